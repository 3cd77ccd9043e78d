// The words that the programs take to choose an edition: none, or --edition and its name (document 02, No. 10); and what convert's --type means (docs/CONVERT.md).
#![tactic(auto)]

ghost use Rattle.std.specs.Prelude.{◌-◌, ◌≤◌, ◌<◌, min, ◌≡◌, [], length};
ghost use Rattle.words.specs.Words.{edition_named, edition_asked};
ghost use Rattle.words.specs.Types.{all_from, decimal_from, by_id, by_ticker, id_asked, exception_asked, type_asked};

use editions::Edition;
use wire::Number;

// The edition of a name.
#[tactic(auto, using(crate::proofs::NameLaws::named_13, crate::proofs::NameLaws::named_13b, crate::proofs::NameLaws::named_only))]
pub fn edition_named(w: &[u8]) -> Option<Edition>
    ensures { result ≡ edition_named w.now }
{
    match w {
        b"1.3" => Some(Edition::V13),
        b"1.3.a" | b"1.3.b" => Some(Edition::V13b),
        _ => None,
    }
}

// The edition that a program's words ask for: how many they are, the program's own name among them, and the two behind it.
#[tactic(auto, using(crate::proofs::NameLaws::same_eq), unfolding(crate::specs::Words::edition_asked, facts::specs::Pick::pick, facts::specs::Pick::both))]
pub fn edition_asked(count: usize, first: &[u8], second: &[u8]) -> Option<Edition>
    ensures { result ≡ edition_asked count first.now second.now }
{
    match count {
        0 | 1 => Some(Edition::V13b),
        3 if first == b"--edition".as_slice() => edition_named(second),
        _ => None,
    }
}

// What the word behind --type asks for: a type for all symbols, or an exception, as its 13 bytes.
#[derive(Clone, Copy, PartialEq, Eq, Debug)]
pub enum TypeWord {
    All(u8),
    Exception([u8; 13]),
}

// The largest symbol ID.
const MOST_ID: u64 = 4_294_967_295;

// Each byte is one from lo to hi.
pub fn all_from(lo: u8, hi: u8, s: &[u8]) -> bool
    ensures { result ≡ all_from lo hi s.now }
{
    s.iter().all(|&x| lo <= x && x <= hi)
}

// What a digit says; a byte below the digits says nothing, so that any byte may be asked.
fn digit(x: u8) -> u64
    ensures { (result ≡ x - 48) × (result < 256) }
{
    u64::from(x.saturating_sub(b'0'))
}

// What digits say in decimal, and one more than the largest ID for any number above it: more digits only make it larger, so the rest is not read.
fn decimal_of(s: &[u8]) -> u64
    ensures { result ≡ min (decimal_from 0 s.now) 4294967296 }
{
    let mut n = 0;
    for x in s {
        n = 10 * n + digit(*x);
        if MOST_ID < n {
            return MOST_ID + 1;
        }
    }
    n
}

// An exception by symbol ID.
fn by_id(id: u32, t: u8) -> [u8; 13]
    ensures { result ≡ by_id id t }
{
    let mut x = [0; 13];
    id.put(&mut x, 1);
    x[12] = t;
    x
}

// An exception by ticker, its name over spaces.
fn by_ticker(name: &[u8], t: u8) -> [u8; 13]
    requires { length name.now ≤ 11 }
    ensures { result ≡ by_ticker name.now t }
{
    let mut x = [b' '; 13];
    x[0] = 1;
    x[12] = t;
    x[1..1 + name.len()].copy_from_slice(name);
    x
}

// An exception whose name is digits alone.
#[tactic(auto, unfolding(crate::specs::Types::id_asked, facts::specs::Pick::pick))]
fn id_asked(name: &[u8], t: u8) -> Option<TypeWord>
    ensures { result ≡ id_asked (decimal_from 0 name.now) t }
{
    let id = u32::try_from(decimal_of(name)).ok()?;
    Some(TypeWord::Exception(by_id(id, t)))
}

// An exception, by what its name is.
#[tactic(auto, unfolding(crate::specs::Types::exception_asked, facts::specs::Pick::pick, facts::specs::Pick::both))]
fn exception_asked(name: &[u8], t: u8) -> Option<TypeWord>
    ensures { result ≡ exception_asked name.now t }
{
    if all_from(b'0', b'9', name) {
        return id_asked(name, t);
    }
    if 11 < name.len() || !all_from(b'!', b'~', name) {
        return None;
    }
    Some(TypeWord::Exception(by_ticker(name, t)))
}

// What the word behind --type asks for, if anything that is known.
#[tactic(auto, unfolding(crate::specs::Types::type_asked, facts::specs::Pick::pick, facts::specs::Pick::both))]
pub fn type_asked(w: &[u8]) -> Option<TypeWord>
    ensures { result ≡ type_asked w.now }
{
    match w {
        [t] => Some(TypeWord::All(*t)),
        [name @ .., b'=', t] if 1 <= name.len() && name.len() <= 11 => exception_asked(name, *t),
        _ => None,
    }
}
