// Judges one message body and reads it, in two calls: the table frames it and the ranges of its edition judge it; a good one is decoded.
#![tactic(auto)]

ghost use Rattle.std.specs.Prelude.{◌≡◌, ◌≤◌, ◌+◌, leb, Err};
ghost use Rattle.facts.specs.Pick.{pick, both};
ghost use Rattle.wire.specs.Le.{field};
ghost use Rattle.body.specs.Ranges.{nanos_ok, side_ok, price_ok, size_ok, security_ok, test_ok, market_ok};
ghost use Rattle.fields.specs.Fields.{bad_at};
ghost use Rattle.body.specs.Read.{tested, judge_fields, judge_body, judged, read_body};
ghost use Rattle.body.specs.Shown.{security_in};

use editions::Edition;
use fields::{Body, Fault};
use kinds::Kind;
use wire::Number;

#[tactic(auto, unfolding(crate::specs::Ranges::nanos_ok))]
pub fn nanos_ok(n: u32) -> bool
    ensures { result ≡ nanos_ok n }
{
    n <= facts::MOST_NANOS
}

#[tactic(auto, unfolding(crate::specs::Ranges::side_ok, crate::specs::Ranges::one_of, facts::specs::Pick::either))]
pub fn side_ok(x: u8) -> bool
    ensures { result ≡ side_ok x }
{
    matches!(x, b'B' | b'S')
}

#[tactic(auto, unfolding(crate::specs::Ranges::price_ok, facts::specs::Pick::both))]
pub fn price_ok(n: u64) -> bool
    ensures { result ≡ price_ok n }
{
    1 <= n && n <= facts::MOST_PRICE
}

#[tactic(auto, unfolding(crate::specs::Ranges::size_ok))]
pub fn size_ok(n: u32) -> bool
    ensures { result ≡ size_ok n }
{
    1 <= n
}

// In 1.3 byte 20 of a Symbol Update is judged; from 1.3.a on it is reserved.
#[tactic(auto, unfolding(crate::specs::Ranges::security_ok, crate::specs::Ranges::one_of, facts::specs::Pick::either))]
pub fn security_ok(e: Edition, x: u8) -> bool
    ensures { result ≡ security_ok e x }
{
    match e {
        Edition::V13 => matches!(x, b'E' | b'F'),
        Edition::V13b => true,
    }
}

#[tactic(auto, unfolding(crate::specs::Ranges::test_ok, crate::specs::Ranges::one_of, facts::specs::Pick::either))]
pub fn test_ok(x: u8) -> bool
    ensures { result ≡ test_ok x }
{
    matches!(x, b'Y' | b'N')
}

// The eighteen market letters stand in four ranges of the alphabet.
#[tactic(auto, using(crate::proofs::Markets::a_to_c, crate::proofs::Markets::h_to_n, crate::proofs::Markets::p_to_q, crate::proofs::Markets::u_to_z, crate::proofs::Markets::no_letter))]
pub fn market_ok(x: u8) -> bool
    ensures { result ≡ market_ok x }
{
    matches!(x, b'A'..=b'C' | b'H'..=b'N' | b'P'..=b'Q' | b'U'..=b'Z')
}

// Refuses a body by 4 at a field whose test fails.
#[tactic(auto, unfolding(facts::specs::Pick::pick))]
#[inline(always)]
fn judge_field(at: usize, ok: bool) -> Result<(), Fault>
    ensures { result ≡ tested ok at }
{
    if ok {
        Ok(())
    } else {
        Err(Fault { number: 4, at })
    }
}

// The Timestamp, which lies behind the type byte of every message that carries one.
#[inline(always)]
fn judge_stamp(b: &[u8]) -> Result<(), Fault>
    ensures { result ≡ tested (nanos_ok (field b.now 1 4)) 1 }
{
    judge_field(1, nanos_ok(u32::at(b, 1)))
}

// Price and size, which stand side by side in every message that has them.
#[inline(always)]
fn judge_deal(b: &[u8], at: usize) -> Result<(), Fault>
    requires { at ≤ 42 }
    ensures { result ≡ pick (price_ok (field b.now at 8)) (tested (size_ok (field b.now (at + 8) 4)) (at + 8)) (Err (bad_at 4 at)) }
{
    judge_field(at, price_ok(u64::at(b, at)))?;
    judge_field(at + 8, size_ok(u32::at(b, at + 8)))
}

#[inline(always)]
fn judge_update(e: Edition, b: &[u8]) -> Result<(), Fault>
    ensures { result ≡ judge_fields e Kind.SymbolUpdate b.now }
{
    judge_stamp(b)?;
    judge_field(20, security_ok(e, u8::at(b, 20)))?;
    judge_field(21, test_ok(u8::at(b, 21)))?;
    judge_field(41, market_ok(u8::at(b, 41)))
}

// An Add is judged alike in every edition.
#[inline(always)]
fn judge_add(b: &[u8]) -> Result<(), Fault>
    ensures { (e : Edition) → result ≡ judge_fields e Kind.Add b.now }
{
    judge_stamp(b)?;
    judge_field(17, side_ok(u8::at(b, 17)))?;
    judge_deal(b, 18)
}

// A message in which Timestamp, price and size are all that is judged.
#[inline(always)]
fn judge_stamped_deal(b: &[u8], at: usize) -> Result<(), Fault>
    requires { at ≤ 42 }
    ensures { result ≡ pick (nanos_ok (field b.now 1 4)) (pick (price_ok (field b.now at 8)) (tested (size_ok (field b.now (at + 8) 4)) (at + 8)) (Err (bad_at 4 at))) (Err (bad_at 4 1)) }
{
    judge_stamp(b)?;
    judge_deal(b, at)
}

// The fields of a kind in their order: 4 at the earliest one out of range.
#[tactic(auto, using(crate::proofs::Tests::none_judged, crate::proofs::Tests::stamp_judged, crate::proofs::Tests::modify_judged, crate::proofs::Tests::trade_judged, crate::proofs::Tests::execution_judged, crate::proofs::Tests::add_judged), unfolding(facts::specs::Pick::pick))]
#[inline(always)]
fn judge_fields(e: Edition, k: Kind, b: &[u8]) -> Result<(), Fault>
    ensures { result ≡ judge_fields e k b.now }
{
    match k {
        Kind::SystemTime | Kind::Unknown => Ok(()),
        Kind::SystemState | Kind::TradingStatus | Kind::SymbolClear | Kind::Delete => judge_stamp(
            b,
        ),
        Kind::SymbolUpdate => judge_update(e, b),
        Kind::Add => judge_add(b),
        Kind::Modify => judge_stamped_deal(b, 17),
        Kind::Trade | Kind::TradeCancel => judge_stamped_deal(b, 18),
        Kind::Execution => judge_stamped_deal(b, 25),
    }
}

// Judges a body of an edition, and decodes nothing: 3 at its start, then 4 at the earliest field out of range. A good body's kind is told.
#[inline(always)]
pub fn judge_body(e: Edition, b: &[u8]) -> Result<Kind, Fault>
    ensures { result ≡ judge_body e b.now }
{
    if b.is_empty() || b.len() != kinds::length_of(b[0]) {
        return Err(Fault { number: 3, at: 0 });
    }
    let k = Kind::from(b[0]);
    judge_fields(e, k, b)?;
    Ok(k)
}

// The same for whoever asks no more than whether a body is good.
#[inline(always)]
pub fn judge(e: Edition, b: &[u8]) -> Result<(), Fault>
    ensures { result ≡ judged (judge_body e b.now) }
{
    judge_body(e, b)?;
    Ok(())
}

// The message that a good body says, or why and where it is bad.
#[tactic(auto, unfolding(crate::specs::Read::read_body, crate::specs::Read::message))]
pub fn read_body(e: Edition, b: &[u8]) -> Body
    ensures { result ≡ read_body e b.now }
{
    match judge_body(e, b) {
        Err(f) => Body::Bad(f),
        Ok(k) => fields::decode(k, b),
    }
}

// What the fields of a Symbol Update show of byte 20 in an edition, whether in range or not.
pub fn security_in(e: Edition, b: &[u8]) -> Option<u8>
    ensures { result ≡ security_in e b.now }
{
    match e {
        Edition::V13 => Some(fields::security_of(b)),
        Edition::V13b => None,
    }
}
