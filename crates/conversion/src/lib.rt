// A packet of one edition made one of the other, in place: byte 20 of each Symbol Update changes, and nothing else. And so a recording, piece by piece, with its bad packets kept bad.
#![tactic(auto)]

ghost use Rattle.std.specs.Prelude.{◌≡◌, ◌≤◌, Ok, Err};
ghost use Rattle.facts.specs.Limits.{packet_most};
ghost use Rattle.wire.specs.Records.{bad};
ghost use Rattle.fields.specs.Fields.{refusal};
ghost use Rattle.packet.specs.Packet.{framing};
ghost use Rattle.packet.specs.declared.Why.{Why};
ghost use Rattle.retype.specs.Retyped.{asked_of};
ghost use Rattle.conversion.specs.Packet.{conversion, converted, judged_first, IsPacket, Rewrites};
ghost use Rattle.conversion.specs.Piece.{passing, passed, passed_by, tally_of, plus, Countable, turned, pieced, piece_of, turned_to};

use editions::Edition;
use fields::{Fault, Refusal};
use packet::Why;
use retype::Asked;
use wire::Number;

// What became of a packet of a recording: rewritten, with so many Symbol Updates; passed on as it is, since it is refused before and after; or barred, since its own edition alone refuses it.
#[derive(Clone, Copy, Debug, PartialEq, Eq)]
pub enum Passed {
    Rewritten(usize),
    Unread,
    Barred,
}

// Symbol Updates rewritten, packets passed on unread, packets barred.
#[derive(Clone, Copy, Debug, Default, PartialEq, Eq)]
pub struct Tally {
    pub updates: usize,
    pub unread: usize,
    pub barred: usize,
}

// A packet of the edition `from` made one of the edition that is asked for, in place: in 1.3 each Symbol Update gets the type of all symbols, or that of the first exception that names it.
pub fn convert(from: Edition, a: &Asked<'_>, p: &mut [u8]) -> Result<usize, Why>
    ensures { conversion result p.new ≡ converted from (asked_of a.now) p.old }
{
    judge(a)?;
    packet::read_packet(from, p)?;
    Ok(rewrite(a, p))
}

// What is asked for, judged before anything is read: 6 for exceptions that are not whole, then 4 for a type that is none.
#[tactic(auto, unfolding(crate::specs::Packet::judged_first, facts::specs::Pick::pick))]
fn judge(a: &Asked<'_>) -> Result<(), Refusal>
    ensures { result ≡ judged_first (asked_of a.now) (λ n. Err (refusal n)) (Ok tt) }
{
    if !retype::whole_exceptions(a.others.len()) {
        return Err(Refusal { number: 6 });
    }
    if !a.types_ok() {
        return Err(Refusal { number: 4 });
    }
    Ok(())
}

// Record by record: byte 20 of each Symbol Update, in place; how many there are.
fn rewrite(a: &Asked<'_>, p: &mut [u8]) -> usize
    requires { IsPacket p.old }
    ensures { Rewrites (asked_of a.now) p.old result p.new }
{
    let mut at = 0;
    let mut updates = 0;
    while at < p.len() {
        let n = packet::head_at(p, at).len;
        if a.retype_body(&mut p[at + 10..at + 10 + n]) {
            updates += 1;
        }
        at += 10 + n;
    }
    updates
}

// A packet of a recording: rewritten; or passed on as it is, where it is refused before and after; or barred, where only its own edition refuses it.
fn pass(from: Edition, a: &Asked<'_>, p: &mut [u8]) -> Passed
    ensures { passing result p.new ≡ passed from (asked_of a.now) p.old }
{
    match packet::read_packet(from, p) {
        Ok(_) => Passed::Rewritten(rewrite(a, p)),
        Err(Why::Alone(_)) => Passed::Unread,
        Err(Why::Placed(f)) => bar(a, f, p),
    }
}

// Of a packet that its own edition refuses at f: if the edition that is asked for takes it, the byte behind f is made 0.
fn bar(a: &Asked<'_>, f: Fault, p: &mut [u8]) -> Passed
    requires { f.at ≤ packet_most }
    ensures { passing result p.new ≡ passed_by (asked_of a.now) (bad (Why.Placed f)) (framing a.now.to p.old) p.old }
{
    if packet::read_packet(a.to, p).is_err() {
        return Passed::Unread;
    }
    0u8.put(p, f.at + 1);
    Passed::Barred
}

// The whole packets at the front of a piece, each behind its length, made packets of the edition that is asked for, in place; what follows them stays as it is.
pub fn convert_piece(from: Edition, a: &Asked<'_>, b: &mut [u8]) -> Result<(usize, Tally), Refusal>
    ensures { turned result b.new ≡ turned_to from (asked_of a.now) b.old }
{
    judge(a)?;
    Ok(turn(from, a, b))
}

// Packet by packet from the front, while a whole one lies there.
fn turn(from: Edition, a: &Asked<'_>, b: &mut [u8]) -> (usize, Tally)
    ensures { turned (Ok result) b.new ≡ pieced (piece_of from (asked_of a.now) b.old) }
{
    let mut at = 0;
    let mut t = Tally::default();
    while 2 <= b.len() - at {
        let n = u16::at(b, at) as usize;
        if b.len() - at - 2 < n {
            return (at, t);
        }
        t = counted(t, pass(from, a, &mut b[at + 2..at + 2 + n]));
        at += 2 + n;
    }
    (at, t)
}

// What a packet adds to what was counted.
fn counted(t: Tally, x: Passed) -> Tally
    requires { Countable (plus t (tally_of x)) }
    ensures { result ≡ plus t (tally_of x) }
{
    match x {
        Passed::Rewritten(n) => Tally {
            updates: t.updates + n,
            ..t
        },
        Passed::Unread => Tally {
            unread: t.unread + 1,
            ..t
        },
        Passed::Barred => Tally {
            barred: t.barred + 1,
            ..t
        },
    }
}
