// A stream that listens to a chunk: bytes passed over, packets given to the receiver, and bytes of an unfinished packet put into the buffer.
ghost use Rattle.std.specs.Prelude.{◌≡◌, ◌≤◌, ◌<◌, length, drop, IfSome, IfNone};
ghost use Rattle.facts.specs.Limits.{packet_most};
ghost use Rattle.arbitration.specs.Stream.{each};
ghost use Rattle.recording.specs.Stream.{added, placed, heard, byte};
ghost use Rattle.recording.specs.Whole.{InFront, NoneInFront};
ghost use Rattle.recording.specs.Steps.{missed, passed_over};

use crate::Stream;
use arbitration::Counts;
use facts::PACKET_MOST;
use fields::Fault;
use packet::Why;
use wire::Number;

// What the stream's receiver is lent, and the stream.
#[derive(Drop)]
pub(crate) struct Listener<'a> {
    pub(crate) orders: &'a mut [u64],
    pub(crate) symbols: &'a mut [u8],
    pub(crate) shelf: &'a mut [u8],
    pub(crate) index: &'a mut [u64],
    pub(crate) stream: Stream,
}

// The totals with the counts of one packet more; a sum stays at the largest number where it would pass it.
#[tactic(auto, unfolding(crate::specs::Stream::added, crate::specs::Stream::more))]
fn added(totals: Counts, counts: Counts) -> Counts
    ensures { result ≡ added counts totals }
{
    Counts {
        taken: counts.taken.saturating_add(totals.taken),
        old: counts.old.saturating_add(totals.old),
        far: counts.far.saturating_add(totals.far),
        repeated: counts.repeated.saturating_add(totals.repeated),
        differing: counts.differing.saturating_add(totals.differing),
    }
}

// Why a packet was refused, by number and offset; offset 0 where the number stands alone.
fn placed(why: Why) -> Fault
    ensures { result ≡ placed why }
{
    match why {
        Why::Alone(r) => Fault {
            number: r.number,
            at: 0,
        },
        Why::Placed(f) => f,
    }
}

// A refused packet: counted, and why it was.
#[tactic(auto, unfolding(crate::specs::Stream::more))]
fn missed(mut stream: Stream, why: Fault) -> Stream
    ensures { result ≡ missed why stream }
{
    stream.bad = stream.bad.saturating_add(1);
    stream.last = why;
    stream
}

// The next n bytes of an over-long packet; it is refused where they are its last.
fn passed(mut stream: Stream, n: usize) -> Stream
    requires { n ≤ stream.skip }
    ensures { result ≡ passed_over n stream }
{
    stream.skip -= n;
    if stream.skip == 0 {
        return missed(stream, Fault { number: 1, at: 0 });
    }
    stream
}

// The packet of at most 1,500 bytes that lies whole in front, behind its length.
fn whole(chunk: &[u8]) -> Option<&[u8]>
    ensures packet { IfSome result (λ p. InFront p.now chunk.now) }
    ensures short { IfSome result (λ p. length p.now ≤ packet_most) }
    ensures none { IfNone result (NoneInFront chunk.now) }
{
    let n = u16::at(chunk, 0) as usize;
    if PACKET_MOST < n {
        return None;
    }
    chunk.get(2..2 + n)
}

impl Listener<'_> {
    ghost use Rattle.recording.specs.Steps.{Kept, Room, standing_at, hearing_at};

    // A whole packet: given to the receiver and counted. Nothing is held after it.
    fn hear(&mut self, p: &[u8])
        requires { length p.now ≤ packet_most }
        ensures kept { Kept self.old self.new }
        ensures standing { standing_at self.new ≡ heard p.now (standing_at self.old) }
        ensures held { self.new.stream.held ≡ 0 }
        ensures skip { self.new.stream.skip ≡ 0 }
    {
        let reply = receiver::receive(
            self.orders,
            self.symbols,
            self.shelf,
            self.index,
            self.stream.receiver,
            p,
        );
        self.stream.receiver = reply.state;
        self.stream.held = 0;
        self.stream.skip = 0;
        match reply.answer {
            Ok(account) => self.stream.totals = added(self.stream.totals, account.counts),
            Err(why) => self.stream = missed(self.stream, placed(why)),
        }
    }

    // One byte behind those held. A full buffer has a whole packet or an over-long one's length in front, so that no byte is lost.
    fn push(&mut self, hold: &mut [u8], x: u8)
        requires skip { self.old.stream.skip ≡ 0 }
        requires room { Room self.old hold.old }
        ensures kept { Kept self.old self.new }
        ensures room { Room self.new hold.new }
        ensures hearing { hearing_at self.new hold.new ≡ byte x (hearing_at self.old hold.old) }
    {
        let held = self.stream.held;
        x.put(hold, held);
        let n = u16::at(hold, 0) as usize;
        if held == 0 {
            self.stream.held = 1;
        } else if PACKET_MOST < n {
            self.stream.held = 0;
            self.stream.skip = n;
        } else if held <= n {
            self.stream.held = held + 1;
        } else {
            self.hear(&hold[2..2 + n]);
        }
    }

    // What is done with the first bytes of the rest of a chunk, and how many they are: some of an over-long packet are passed over, a whole packet is
    // given as it lies there, or one byte is kept.
    fn step(&mut self, hold: &mut [u8], rest: &[u8]) -> usize
        requires some { 0 < length rest.now }
        requires room { Room self.old hold.old }
        ensures kept { Kept self.old self.new }
        ensures room { Room self.new hold.new }
        ensures on { 0 < result }
        ensures within { result ≤ length rest.now }
        ensures hearing { each byte (drop result rest.now) (hearing_at self.new hold.new) ≡ each byte rest.now (hearing_at self.old hold.old) }
    {
        if 0 < self.stream.skip {
            let n = self.stream.skip.min(rest.len());
            self.stream = passed(self.stream, n);
            return n;
        }
        if self.stream.held == 0
            && let Some(p) = whole(rest)
        {
            self.hear(p);
            return 2 + p.len();
        }
        self.push(hold, rest[0]);
        1
    }

    // All of a chunk.
    pub(crate) fn run(&mut self, hold: &mut [u8], chunk: &[u8])
        requires { Room self.old hold.old }
        ensures kept { Kept self.old self.new }
        ensures room { Room self.new hold.new }
        ensures hearing { hearing_at self.new hold.new ≡ each byte chunk.now (hearing_at self.old hold.old) }
    {
        let mut rest = chunk;
        while !rest.is_empty() {
            let n = self.step(hold, rest);
            rest = &rest[n..];
        }
    }
}
