// The shelf: 64 slots of 74 bytes, each a number, a length and a body padded with zeros to 64 bytes; message n lies in slot n mod 64, and number 0 marks an empty slot.
// Each function answers for a slice of any length, any slot and any body; a slot that is not there reads as an empty one and is not written.
#![tactic(auto)]

ghost use Rattle.std.specs.Prelude.{◌≡◌, [], length, get_or};
ghost use Rattle.facts.specs.Pieces.{pieces};
ghost use Rattle.wire.specs.Le.{padded};
ghost use Rattle.facts.specs.Same.{same_bytes};
ghost use Rattle.arbitration.specs.Slots.{empty_slot, slot_for, slot_body, same_slot};
ghost use Rattle.arbitration.specs.Receive.{highest as highest_number};
ghost use Rattle.shelf.specs.Shelf.{slot_size, good_shelf, bytes_of, slot_at, put_slot};
ghost use Rattle.shelf.specs.Store.{shelf_store};

use wire::Number;

// The bytes of a slot.
const SLOT: usize = 74;

#[tactic(auto, unfolding(crate::specs::Shelf::good_shelf))]
pub fn good_shelf(n: usize) -> bool
    ensures { result ≡ good_shelf n }
{
    n == facts::SHELF_SIZE
}

// The slots of a shelf, as they lie in it.
#[tactic(auto, using(crate::proofs::Laws::chunks_pieces))]
fn slots(s: &[u8]) -> &[[u8; SLOT]]
    ensures { result.now ≡ pieces slot_size s.now }
{
    let (slots, _) = s.as_chunks();
    slots
}

// The bytes of slot i; none where there is no such slot.
fn slot(s: &[u8], i: usize) -> &[u8]
    ensures { result.now ≡ get_or (pieces slot_size s.now) i [] }
{
    match slots(s).get(i) {
        Some(x) => x,
        None => &[],
    }
}

#[tactic(auto, using(crate::proofs::Laws::number_is))]
pub fn slot_number(s: &[u8], i: usize) -> u64
    ensures { result ≡ (slot_at s.now i).number }
{
    match slots(s).get(i) {
        Some(x) => u64::at(x, 0),
        None => 0,
    }
}

#[tactic(auto, using(crate::proofs::Laws::len_is))]
pub fn slot_len(s: &[u8], i: usize) -> usize
    ensures { result ≡ (slot_at s.now i).len }
{
    u16::at(slot(s, i), 8) as usize
}

// The part with the slot's body: as many bytes as its length says, and never more than the 64.
pub fn slot_body<'a>(s: &'a [u8], i: usize) -> &'a [u8]
    ensures { result.now ≡ slot_body (slot_at s.now i) }
{
    match slots(s).get(i) {
        Some(x) => {
            let n = (u16::at(x, 8) as usize).min(64);
            &x[10..10 + n]
        }
        None => &[],
    }
}

// The 64 bytes behind number and length are the body, with zeros behind it.
fn same_bytes(x: &[u8], body: &[u8]) -> bool
    ensures { result ≡ same_bytes (padded x.now 10 64) (padded body.now 0 64) }
{
    for k in 0..64 {
        if u8::at(x, 10 + k) != u8::at(body, k) {
            return false;
        }
    }
    true
}

// Slot i holds the message: its number, its length and the same 64 padded bytes.
pub fn holds(s: &[u8], i: usize, number: u64, body: &[u8]) -> bool
    ensures { result ≡ same_slot (slot_at s.now i) (slot_for number body.now) }
{
    let x = slot(s, i);
    u64::at(x, 0) == number && u16::at(x, 8) as usize == body.len() && same_bytes(x, body)
}

// Every byte of one slot: number, length, padded body.
fn write(x: &mut [u8], number: u64, body: &[u8])
    requires { length x.old ≡ slot_size }
    ensures { x.new ≡ bytes_of (slot_for number body.now) }
{
    wire::put_le(x, 0, 8, number);
    wire::put_le(x, 8, 2, body.len() as u64);
    wire::copy_at(body, 0, &mut x[10..74]);
}

// Stores the slot of a message. Of a body longer than 64 bytes (no good one is) the first 64 are stored, beside its length modulo 65,536.
#[tactic(auto, using(crate::proofs::Laws::part_put, crate::proofs::Laws::put_past, wire::proofs::Laws::length_padded))]
pub fn put(s: &mut [u8], i: usize, number: u64, body: &[u8])
    ensures { s.new ≡ put_slot s.old i (slot_for number body.now) }
{
    if i < s.len() / SLOT {
        let at = SLOT * i;
        write(&mut s[at..at + SLOT], number, body);
    }
}

// Zeroes slot i.
pub fn empty(s: &mut [u8], i: usize)
    ensures { s.new ≡ put_slot s.old i empty_slot }
{
    if i < s.len() / SLOT {
        let at = SLOT * i;
        wire::wipe(&mut s[at..at + SLOT]);
    }
}

// The largest number in any of the 64 slots, 0 if none.
#[tactic(auto, using(crate::proofs::Laws::highest_next), unfolding(arbitration::specs::Receive::highest))]
pub fn highest(s: &[u8]) -> u64
    ensures { result ≡ highest_number shelf_store 64 s.now }
{
    let mut top: u64 = 0;
    for i in 0..64 {
        top = top.max(slot_number(s, i));
    }
    top
}
