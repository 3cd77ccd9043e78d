// A word that the program was started with, in memory that is lent.
ghost use Rattle.std.specs.Prelude.{◌≤◌, length};

use std::env::Env;

// Puts word i at the start of buf and returns its length: 0 where there is no such word, and where it is longer than buf.
pub fn word(rt: &impl Env, i: usize, buf: &mut [u8]) -> usize
    ensures { result ≤ length buf.new }
{
    rt.arg(i, buf).unwrap_or(0)
}
