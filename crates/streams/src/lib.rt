// What the programs take in: blocks and packets of a reader, and the words that they were started with; and in what words they tell of bytes and of failures.
#![tactic(auto)]

ghost use Rattle.std.specs.Prelude.{◌≡◌, ℕ, List, ◌+◌, ◌<◌, ◌≤◌, length, take, drop, Some, IfOk, IfSome, IfNone, OnErr};
ghost use Rattle.std.specs.Io.{ReadsAtMost};
ghost use Rattle.std.specs.Io.KnownBytes.{Consumes, IsAtEnd, Keeps, ReadConsumes};
ghost use Rattle.streams.specs.Streams.{framed, spaced, told_text};

pub mod lent;

use std::env::{Env, FillError};
use std::error::Error;
use std::io::{ErrorKind, Read};
use std::marker::Model;
use std::{fmt, io};

// One read, tried again where a signal broke it off. It puts the bytes at the start of buf and returns how many they are; none only at the
// end of the input or where buf has no room. A read that fails takes no byte.
pub fn read_once<R: Read>(from: &mut R, buf: &mut [u8]) -> io::Result<usize>
    ensures bound { ReadsAtMost result buf.new }
    ensures bytes { ReadConsumes (R.remaining from.old) (R.remaining from.new) result buf.new }
{
    for _ in 0..u64::MAX {
        match from.read(buf) {
            Ok(n) => return Ok(n),
            Err(e) => {
                if e.kind() != ErrorKind::Interrupted {
                    return Err(e);
                }
            }
        }
    }
    from.read(buf)
}

// Reads until buf is full or the input ends, and returns how many bytes it put at the start of buf: fewer than it has room for only at the
// end of the input. Where a read fails, the bytes before it are lost.
pub fn read_full<R: Read>(from: &mut R, buf: &mut [u8]) -> io::Result<usize>
    ensures bound { ReadsAtMost result buf.new }
    ensures bytes { IfOk result (λ n. Consumes (R.remaining from.old) (R.remaining from.new) (take n buf.new)) }
    ensures end { IfOk result (λ n. n < length buf.new → IsAtEnd (R.remaining from.new)) }
    ensures lost { OnErr result ((bs : List ℕ) × Consumes (R.remaining from.old) (R.remaining from.new) bs) }
{
    let mut done = 0;
    while done < buf.len() {
        let n = read_behind(from, buf, done)?;
        if n == 0 {
            return Ok(done);
        }
        done += n;
    }
    Ok(done)
}

// One read, behind the first `done` bytes of buf, which stay.
fn read_behind<R: Read>(from: &mut R, buf: &mut [u8], done: usize) -> io::Result<usize>
    requires { done < length buf.old }
    ensures front { take done buf.new ≡ take done buf.old }
    ensures fits { IfOk result (λ n. done + n ≤ length buf.new) }
    ensures bytes { IfOk result (λ n. Consumes (R.remaining from.old) (R.remaining from.new) (take n (drop done buf.new))) }
    ensures end { IfOk result (λ n. n ≡ 0 → IsAtEnd (R.remaining from.new)) }
    ensures err { OnErr result (Keeps (R.remaining from.old) (R.remaining from.new)) }
{
    read_once(from, &mut buf[done..])
}

// The longest packet that a two-byte length can announce.
pub const LONGEST: usize = 65535;

// Reads a packet behind its two-byte length to the start of `held`, and returns how many bytes it has: none at the end of the input, also where
// that lies inside a packet.
pub fn read_packet<R: Read>(from: &mut R, held: &mut [u8; LONGEST]) -> io::Result<Option<usize>>
    ensures fits { IfOk result (λ o. IfSome o (λ n. n ≤ LONGEST)) }
    ensures bytes { IfOk result (λ o. IfSome o (λ n. Consumes (R.remaining from.old) (R.remaining from.new) (framed n held.new))) }
    ensures end { IfOk result (λ o. IfNone o (IsAtEnd (R.remaining from.new))) }
    ensures lost { OnErr result ((bs : List ℕ) × Consumes (R.remaining from.old) (R.remaining from.new) bs) }
{
    let mut length = [0; 2];
    if read_full(from, &mut length)? < 2 {
        return Ok(None);
    }
    let [low, high] = length;
    let n = usize::from(u16::from_le_bytes([low, high]));
    if read_full(from, &mut held[..n])? < n {
        return Ok(None);
    }
    Ok(Some(n))
}

// How many words the program was started with, its own name among them; from `most` on none is counted.
pub fn word_count(rt: &impl Env, most: usize) -> usize
    ensures { result ≤ most }
{
    for i in 0..most {
        if let Err(FillError::NotPresent) = rt.arg(i, &mut []) {
            return i;
        }
    }
    most
}

// A word that the program was started with, in memory for N bytes.
#[derive(Drop)]
pub struct Word<const N: usize> {
    bytes: [u8; N],
    len: usize,
}

impl<const N: usize> Model for Word<N> {
    ghost Value = { List ℕ };

    ghost view = { λ w. take w.len w.bytes };

    ghost invariant = { λ w. w.len ≤ N };
}

impl<const N: usize> Word<N> {
    // Word i: an empty one where there is no such word, and where it is longer than N bytes.
    pub fn at(rt: &impl Env, i: usize) -> Self
        ensures { length result ≤ N }
    {
        let mut bytes = [0; N];
        let len = lent::word(rt, i, &mut bytes);
        Word { bytes, len }
    }

    // Its bytes.
    pub fn as_slice(&self) -> &[u8]
        ensures { result.now ≡ self.now }
    {
        &self.bytes[..self.len]
    }
}

// Bytes as the programs print them: each as a number behind a space.
#[derive(Clone, Copy)]
pub struct Spaced<'a>(pub &'a [u8]);

impl fmt::Display for Spaced<'_> {
    ghost output = { λ s. Some (spaced s.0.now) };

    fn fmt<W: fmt::Write>(&self, f: &mut fmt::Formatter<W>) -> fmt::Result {
        for x in self.0 {
            write!(f, " {x}")?;
        }
        Ok(())
    }
}

// Why a program ends before its work is done: the system refused a read or a write, or what it tells in words.
#[derive(Debug, Drop)]
pub enum Failure {
    Input(io::Error),
    Output(io::Error),
    Told(&'static str),
}

impl fmt::Display for Failure {
    ghost output = { told_text };

    fn fmt<W: fmt::Write>(&self, f: &mut fmt::Formatter<W>) -> fmt::Result {
        match self {
            Failure::Input(e) => write!(f, "standard input: {e}"),
            Failure::Output(e) => write!(f, "standard output: {e}"),
            Failure::Told(words) => write!(f, "{words}"),
        }
    }
}

impl Error for Failure {}

#[cfg(test)]
mod tests {
    use super::*;
    use std::io::Error;
    use std::test::Fail;

    // Gives one byte at a time, and a signal breaks off every other read. Then it ends, or it fails.
    #[derive(Drop)]
    struct Slow {
        reads: u8,
        left: u8,
        fails: bool,
    }

    impl Read for Slow {
        fn read(&mut self, buf: &mut [u8]) -> io::Result<usize> {
            self.reads = self.reads.wrapping_add(1);
            if self.reads % 2 == 1 {
                return Err(Error::from(ErrorKind::Interrupted));
            }
            if self.left == 0 && self.fails {
                return Err(Error::from(ErrorKind::BrokenPipe));
            }
            if self.left == 0 || buf.is_empty() {
                return Ok(0);
            }
            buf[0] = self.left;
            self.left -= 1;
            Ok(1)
        }
    }

    fn reader_of(left: u8, fails: bool) -> Slow {
        Slow {
            reads: 0,
            left,
            fails,
        }
    }

    #[test]
    fn reads_until_full(rt: HostRuntime) -> Result<(), Fail> {
        let mut from = reader_of(5, false);
        let mut buf = [0u8; 3];
        assert_eq!(rt; read_full(&mut from, &mut buf)?, 3);
        assert_eq!(rt; buf, [5, 4, 3]);
        assert_eq!(rt; read_full(&mut from, &mut buf)?, 2);
        assert_eq!(rt; buf, [2, 1, 3]);
        assert_eq!(rt; read_full(&mut from, &mut buf)?, 0);
        Ok(())
    }

    // A failure in mid-stream is told at that call, and is no end.
    #[test]
    fn tells_of_a_failure(rt: HostRuntime) {
        let mut from = reader_of(2, true);
        let mut buf = [0u8; 3];
        match read_full(&mut from, &mut buf) {
            Ok(_) => assert!(rt; false, "a failure was taken for the end"),
            Err(e) => assert_eq!(rt; e.kind(), ErrorKind::BrokenPipe),
        }
        assert!(rt; read_once(&mut from, &mut buf).is_err());
    }

    // The words of a program: its name, an empty one and a long one.
    struct Three;

    impl Env for Three {
        fn arg(&self, i: usize, buf: &mut [u8]) -> Result<usize, FillError> {
            if i > 2 {
                return Err(FillError::NotPresent);
            }
            if i == 1 {
                return Ok(0);
            }
            if buf.len() < 4 {
                return Err(FillError::TooLong);
            }
            buf[0] = b'n';
            Ok(4)
        }

        fn var(&self, _name: &str, _buf: &mut [u8]) -> Result<usize, FillError> {
            Err(FillError::NotPresent)
        }

        fn var_at(&self, _i: usize, _buf: &mut [u8]) -> Result<usize, FillError> {
            Err(FillError::NotPresent)
        }
    }

    #[test]
    fn takes_words(rt: HostRuntime) {
        assert_eq!(rt; word_count(&Three, usize::MAX), 3);
        assert_eq!(rt; word_count(&Three, 2), 2);
        let mut buf = [0u8; 5];
        assert_eq!(rt; lent::word(&Three, 0, &mut buf), 4);
        assert_eq!(rt; lent::word(&Three, 1, &mut buf), 0);
        assert_eq!(rt; lent::word(&Three, 3, &mut buf), 0);
        let mut small = [0u8; 3];
        assert_eq!(rt; lent::word(&Three, 0, &mut small), 0);
        assert_eq!(rt; Word::<5>::at(&Three, 0).as_slice().len(), 4);
        assert_eq!(rt; Word::<5>::at(&Three, 1).as_slice().len(), 0);
        assert_eq!(rt; Word::<5>::at(&Three, 3).as_slice().len(), 0);
        assert_eq!(rt; Word::<3>::at(&Three, 0).as_slice().len(), 0);
    }
}
