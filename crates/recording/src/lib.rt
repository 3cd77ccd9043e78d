// A recording in pieces: packets, each behind its length in two bytes, carved out of chunks of any size and given to a receiver.
#![tactic(auto)]

ghost use Rattle.std.specs.Prelude.{◌≡◌, ◌≤◌, length};
ghost use Rattle.recording.specs.Stream.{cut, opened, feedable, feeding, fed};

mod listen;

use arbitration::Counts;
use facts::HOLD_LEAST;
use fields::{Fault, Refusal};
use listen::Listener;
use receiver::State;

// What a stream keeps between chunks, beside its buffer: the receiver, how many bytes of an unfinished packet are in the buffer, how many
// of an over-long one are still to come, how many packets were refused and why the last of them was (0 and 0 before the first), and the counts.
#[derive(Clone, Copy)]
pub struct Stream {
    pub receiver: State,
    pub held: usize,
    pub skip: usize,
    pub bad: u64,
    pub last: Fault,
    pub totals: Counts,
}

// Sizes of what is lent, and a state, that a stream works with.
#[tactic(auto, unfolding(crate::specs::Stream::feedable, facts::specs::Pick::both))]
fn can_feed(
    s: Stream,
    orders: usize,
    symbols: usize,
    shelf: usize,
    index: usize,
    hold: usize,
) -> bool
    ensures { result ≡ feedable s orders symbols shelf index hold }
{
    receiver::sizes_ok(orders, symbols, shelf, index)
        && receiver::next_ok(s.receiver.next)
        && HOLD_LEAST <= hold
        && s.held <= hold
}

// A stream over a receiver, before the first chunk.
pub fn open(state: State) -> Stream
    ensures { result ≡ opened state }
{
    Stream {
        receiver: state,
        held: 0,
        skip: 0,
        bad: 0,
        last: Fault { number: 0, at: 0 },
        totals: Counts::default(),
    }
}

// A chunk of any size, to a stream of any state with anything lent. The bytes of the buffer behind those held are zeroed.
pub fn feed(
    orders: &mut [u64],
    symbols: &mut [u8],
    shelf: &mut [u8],
    index: &mut [u64],
    hold: &mut [u8],
    s: Stream,
    chunk: &[u8],
) -> Result<Stream, Refusal>
    ensures { feeding result orders.new symbols.new shelf.new index.new hold.new ≡ fed s orders.old symbols.old shelf.old index.old hold.old chunk.now }
{
    if !can_feed(
        s,
        orders.len(),
        symbols.len(),
        shelf.len(),
        index.len(),
        hold.len(),
    ) {
        return Err(Refusal { number: 6 });
    }
    let mut listener = Listener {
        orders,
        symbols,
        shelf,
        index,
        stream: s,
    };
    listener.run(hold, chunk);
    let after = listener.stream;
    wire::wipe(&mut hold[after.held..]);
    Ok(after)
}

// Whether a recording that ends here ends inside a length or packet.
#[tactic(auto, unfolding(crate::specs::Stream::cut, facts::specs::Pick::either))]
pub fn is_cut(s: Stream) -> bool
    ensures { result ≡ cut s }
{
    0 < s.held || 0 < s.skip
}
