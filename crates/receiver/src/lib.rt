// The receiver: starts, takes packets of lines A, B and the gap fills in any order, and applies the messages by their numbers.
#![tactic(auto)]

ghost use Rattle.std.specs.Prelude.{◌≡◌, ◌+◌, ◌≤◌, length};
ghost use Rattle.facts.specs.Limits.{last_number, shelf_size};
ghost use Rattle.packet.specs.Packet.{framing};
ghost use Rattle.receiver.specs.Receiver.{next_ok, handled_by};
ghost use Rattle.receiver.specs.Lent.{real, sizes_ok, GoodPacket, lent, handled, received, begun, started};

mod at_work;
mod walk;

use arbitration::Counts;
use at_work::Receiver;
use book::Clock;
use editions::Edition;
use facts::LAST_NUMBER;
use fields::Refusal;
use packet::Why;

// The largest next number: one above the last sequence number.
const MOST_NEXT: u64 = LAST_NUMBER + 1;

// What a receiver keeps between packets: the next number, what the book has by value, the stop of the last accepted packet, and the edition
// that was chosen at its start.
#[derive(Clone, Copy, Debug, PartialEq, Eq)]
pub struct State {
    pub next: u64,
    pub clock: Clock,
    pub stop: u8,
    pub edition: Edition,
}

// How a record is answered: 10 to 14.
#[derive(Clone, Copy, Debug, PartialEq, Eq)]
pub enum Answer {
    Taken,
    Old,
    TooFar,
    Repeated,
    Differing,
}

// The answer to an accepted packet.
#[derive(Clone, Copy, Debug, PartialEq, Eq)]
pub struct Account {
    pub counts: Counts,
    pub next: u64,
    pub applied: u64,
    pub highest: u64,
    pub stop: u8,
}

#[derive(Clone, Copy)]
pub struct Reply {
    pub answer: Result<Account, Why>,
    pub state: State,
}

// An accepted packet: its records are worked, and the stop and the highest number on the shelf told.
fn accept(
    orders: &mut [u64],
    symbols: &mut [u8],
    shelf: &mut [u8],
    index: &mut [u64],
    state: State,
    p: &[u8],
) -> Reply
    requires next { state.next ≤ last_number + 1 }
    requires good { GoodPacket state.edition p.now }
    requires shelf { length shelf.old ≡ shelf_size }
    ensures { handled result.answer (lent orders.new symbols.new shelf.new index.new result.state) ≡ handled_by (real state.edition) (framing state.edition p.now) (lent orders.old symbols.old shelf.old index.old state) }
{
    let mut receiver = Receiver {
        orders,
        symbols,
        shelf,
        index,
        edition: state.edition,
        next: state.next,
        clock: state.clock,
    };
    let counts = receiver.work(p);
    let stop = receiver.stop();
    let next = receiver.next;
    let clock = receiver.clock;
    Reply {
        answer: Ok(Account {
            counts,
            next,
            applied: next - state.next,
            highest: shelf::highest(shelf),
            stop,
        }),
        state: State {
            next,
            clock,
            stop,
            edition: state.edition,
        },
    }
}

// Sizes that a receiver works with: those of the three tables, and the index's.
#[tactic(auto, unfolding(crate::specs::Lent::sizes_ok, crate::specs::Lent::tables_ok, facts::specs::Pick::both))]
pub fn sizes_ok(orders: usize, symbols: usize, shelf: usize, index: usize) -> bool
    ensures { result ≡ sizes_ok orders symbols shelf index }
{
    rows::good_rows(orders)
        && symbols::good_entries(symbols)
        && shelf::good_shelf(shelf)
        && engines::good_index(index)
}

// A next number from 1 to 10^12 + 1.
#[tactic(auto, unfolding(crate::specs::Receiver::next_ok, facts::specs::Pick::both))]
pub fn next_ok(next: u64) -> bool
    ensures { result ≡ next_ok next }
{
    1 <= next && next <= MOST_NEXT
}

// A packet of any bytes, to a receiver of any state with any tables and any index; it is read by the edition that the state has.
pub fn receive(
    orders: &mut [u64],
    symbols: &mut [u8],
    shelf: &mut [u8],
    index: &mut [u64],
    state: State,
    p: &[u8],
) -> Reply
    ensures { handled result.answer (lent orders.new symbols.new shelf.new index.new result.state) ≡ received (lent orders.old symbols.old shelf.old index.old state) p.now }
{
    let sized = sizes_ok(orders.len(), symbols.len(), shelf.len(), index.len());
    if !sized || !next_ok(state.next) {
        return Reply {
            answer: Err(Why::Alone(Refusal { number: 6 })),
            state,
        };
    }
    match packet::read_packet(state.edition, p) {
        Err(why) => Reply {
            answer: Err(why),
            state,
        },
        Ok(_) => accept(orders, symbols, shelf, index, state, p),
    }
}

// "A start zeroes all three, the second included, and sets the next number to 1"; 6 refuses and zeroes nothing. The edition is chosen here, and the
// index made, if one is lent.
pub fn start(
    e: Edition,
    orders: &mut [u64],
    symbols: &mut [u8],
    shelf: &mut [u8],
    index: &mut [u64],
) -> Result<State, Refusal>
    ensures { begun result orders.new symbols.new shelf.new index.new ≡ started e orders.old symbols.old shelf.old index.old }
{
    if !sizes_ok(orders.len(), symbols.len(), shelf.len(), index.len()) {
        return Err(Refusal { number: 6 });
    }
    rows::wipe_rows(orders);
    wire::wipe(symbols);
    wire::wipe(shelf);
    rows::wipe_rows(index);
    index::rebuild(orders, index);
    Ok(State {
        next: 1,
        clock: Clock { second: 0 },
        stop: 0,
        edition: e,
    })
}
