// Writes recordings into lent memory: a record behind a packet so far, a packet behind a recording so far (docs/WRITE.md). What refuses
// leaves every byte as it was.
#![tactic(auto)]

ghost use Rattle.std.specs.Prelude.{◌≡◌, ◌<◌, ◌+◌, ◌≤◌, length, take, leb};
ghost use Rattle.std.proofs.lemmas.List.Edits.{sets};
ghost use Rattle.trips.specs.Records.{record_bytes, length_first};
ghost use Rattle.writer.specs.Append.{writing, put, so_far, room_number, message_number, Numbered, own_number, unless, appended_as, appended, numbers_appended, packet_appended};

use editions::Edition;
use fields::Refusal;
use packet::Why;
use wire::Number;

// Whether a head and n bytes fit behind those that are used. No sum of them need fit.
fn room_for(room: usize, head: usize, used: usize, n: usize) -> bool
    ensures { result ≡ leb (used + (head + n)) room }
{
    room.checked_sub(head)
        .and_then(|left| left.checked_sub(n))
        .is_some_and(|left| used <= left)
}

// Whether nothing refuses a record with a body of n bytes: its number, its message, the packet's size, the memory's.
fn allowed(
    number: u64,
    message: Result<(), Refusal>,
    room: usize,
    used: usize,
    n: usize,
) -> Result<(), Refusal>
    requires { Numbered message }
    ensures { result ≡ unless (own_number (message_number message) number room (used + (10 + n))) }
{
    if !packet::number_ok(number) {
        return Err(Refusal { number: 5 });
    }
    message?;
    if !room_for(facts::PACKET_MOST, 10, used, n) {
        return Err(Refusal { number: 1 });
    }
    if !room_for(room, 10, used, n) {
        return Err(Refusal { number: 32 });
    }
    Ok(())
}

// The packet so far, as reading judges it; an empty one is good.
fn so_far(e: Edition, memory: &[u8], used: usize) -> Result<usize, Why>
    requires { used ≤ length memory.now }
    ensures { result ≡ so_far e (take used memory.now) }
{
    if used == 0 {
        return Ok(0);
    }
    packet::read_packet(e, &memory[..used])
}

// The record's bytes, from a place on.
fn put_record(memory: &mut [u8], at: usize, number: u64, body: &[u8])
    requires room { at + (10 + length body.now) ≤ length memory.old }
    requires small { length body.now < 65536 }
    ensures { memory.new ≡ sets memory.old at (record_bytes number body.now) }
{
    number.put(memory, at);
    (body.len() as u16).put(memory, at + 8);
    wire::put_at(memory, at + 10, body);
}

// A record, whose message is refused or is the body, behind a packet so far.
fn append_as(
    e: Edition,
    memory: &mut [u8],
    used: usize,
    number: u64,
    message: Result<(), Refusal>,
    body: &[u8],
) -> Result<usize, Why>
    requires { Numbered message }
    ensures { writing result memory.new ≡ appended_as e (message_number message) memory.old used number body.now }
{
    if memory.len() < used {
        return Err(Why::Alone(Refusal { number: 32 }));
    }
    so_far(e, memory, used)?;
    allowed(number, message, memory.len(), used, body.len())?;
    put_record(memory, used, number, body);
    Ok(used + (10 + body.len()))
}

// A record behind a packet so far: refused by 32, then as reading refuses the packet so far, then by 5, 3 or 4, 1 and 32.
pub fn append(
    e: Edition,
    memory: &mut [u8],
    used: usize,
    number: u64,
    body: &[u8],
) -> Result<usize, Why>
    ensures { writing result memory.new ≡ appended e memory.old used number body.now }
{
    let message = body::judge(e, body).map_err(|f| Refusal { number: f.number });
    append_as(e, memory, used, number, message, body)
}

// The same from eight numbers and 28 bytes of text: refused by 3 where the first is no message's type, and by 4 also for a number that its
// field cannot hold.
pub fn append_numbers(
    e: Edition,
    memory: &mut [u8],
    used: usize,
    number: u64,
    n: &[u64; 8],
    t: &[u8; 28],
) -> Result<usize, Why>
    ensures { writing result memory.new ≡ numbers_appended e memory.old used number n.now t.now }
{
    match numbers::draft_of(e, n, t) {
        Ok(d) => append_as(e, memory, used, number, Ok(()), d.body()),
        Err(r) => append_as(e, memory, used, number, Err(r), &[]),
    }
}

// The packet behind its length, where it fits.
fn put_packet(memory: &mut [u8], used: usize, p: &[u8]) -> Result<usize, Why>
    requires { length p.now < 65536 }
    ensures { writing result memory.new ≡ put (room_number (length memory.old) (used + length (length_first p.now))) memory.old used (length_first p.now) }
{
    if !room_for(memory.len(), 2, used, p.len()) {
        return Err(Why::Alone(Refusal { number: 32 }));
    }
    (p.len() as u16).put(memory, used);
    wire::put_at(memory, used + 2, p);
    Ok(used + (2 + p.len()))
}

// A packet behind a recording so far: refused by 32, then as reading refuses the packet, then by 32.
pub fn append_packet(e: Edition, memory: &mut [u8], used: usize, p: &[u8]) -> Result<usize, Why>
    ensures { writing result memory.new ≡ packet_appended e memory.old used p.now }
{
    if memory.len() < used {
        return Err(Why::Alone(Refusal { number: 32 }));
    }
    packet::read_packet(e, p)?;
    put_packet(memory, used, p)
}
