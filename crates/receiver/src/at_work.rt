// A receiver at work on a packet, from one record to the next.
ghost use Rattle.std.specs.Prelude.{◌≡◌, ◌+◌, ◌≤◌, length};
ghost use Rattle.facts.specs.Limits.{last_number, packet_most, shelf_size};
ghost use Rattle.wire.specs.Records.{rec};
ghost use Rattle.packet.specs.Packet.{framing};
ghost use Rattle.arbitration.specs.Receive.{drain as drained, judged, after, stop, records_of, no_counts};
ghost use Rattle.arbitration.specs.Loops.{Turned, work as work_all, counted, total};
ghost use Rattle.shelf.specs.Store.{shelf_store};
ghost use Rattle.receiver.specs.Lent.{ledger_engine, answer_of, GoodPacket};

use crate::Answer;
use crate::walk::Records;
use arbitration::Counts;
use book::{Clock, Rule, Tables};
use editions::Edition;
use kinds::Kind;
use wire::Number;

// What a receiver is lent, its edition, the next number, and what the book has by value.
#[derive(Drop)]
pub(crate) struct Receiver<'a> {
    pub(crate) orders: &'a mut [u64],
    pub(crate) symbols: &'a mut [u8],
    pub(crate) shelf: &'a mut [u8],
    pub(crate) index: &'a mut [u64],
    pub(crate) edition: Edition,
    pub(crate) next: u64,
    pub(crate) clock: Clock,
    ghost whole: { length shelf.now ≡ shelf_size },
}

// The counts with one answer more.
fn counted(mut counts: Counts, a: Answer) -> Counts
    requires { total counts ≤ packet_most }
    ensures { result ≡ counted (answer_of a) counts }
{
    match a {
        Answer::Taken => counts.taken += 1,
        Answer::Old => counts.old += 1,
        Answer::TooFar => counts.far += 1,
        Answer::Repeated => counts.repeated += 1,
        Answer::Differing => counts.differing += 1,
    }
    counts
}

impl Receiver<'_> {
    ghost use Rattle.receiver.specs.AtWork.{Kept, Good, rx_of, laid, working_of};

    // One turn of the drain: the slot for next is tried once. Whether its message applied.
    fn turn(&mut self) -> bool
        requires { self.old.next ≤ last_number + 300000 }
        ensures kept { Kept self.old self.new }
        ensures turned { Turned shelf_store (ledger_engine self.old.edition) (rx_of self.old) (rx_of self.new) result }
    {
        let shelf = &mut *self.shelf;
        let i = (self.next % 64) as usize;
        let n = shelf::slot_number(shelf, i);
        if n == 0 || n != self.next || 64 < shelf::slot_len(shelf, i) {
            return false;
        }
        let tried = book::attempt(
            self.edition,
            self.orders,
            self.symbols,
            self.index,
            self.clock,
            self.next,
            shelf::slot_body(shelf, i),
        );
        let Ok(clock) = tried else {
            return false;
        };
        shelf::empty(shelf, i);
        self.clock = clock;
        self.next += 1;
        true
    }

    // "while the slot for next holds next and its message applies": 64 turns are enough, and fewer where some were made already.
    fn drain(&mut self, turns: usize)
        requires next { self.old.next ≤ last_number + 200001 }
        requires turns { turns ≤ 64 }
        ensures kept { Kept self.old self.new }
        ensures state { rx_of self.new ≡ drained shelf_store (ledger_engine self.old.edition) turns (rx_of self.old) }
    {
        for _ in 0..turns {
            if !self.turn() {
                return;
            }
        }
    }

    // How a record is answered, by the number it has and the slot it would go to.
    fn answer_to(&self, number: u64, body: &[u8]) -> Answer
        requires { self.now.next ≤ last_number + 200000 }
        ensures { answer_of result ≡ judged shelf_store (ledger_engine self.now.edition) (rec number body.now) (rx_of self.now) }
    {
        if number < self.next {
            return Answer::Old;
        }
        if self.next + 64 <= number {
            return Answer::TooFar;
        }
        let i = (number % 64) as usize;
        if shelf::slot_number(self.shelf, i) == 0 {
            return Answer::Taken;
        }
        if shelf::holds(self.shelf, i, number, body) {
            return Answer::Repeated;
        }
        Answer::Differing
    }

    // A taken record that is next. On the shelf it would be what the slot for next offers, so its message is tried as it came, and a good body is not
    // judged again; only one that breaks a rule is put there. The slot of one that applies is left zeroed, as after the turn. Whether it applied.
    fn take_next(&mut self, body: &[u8]) -> bool
        requires { Good self.old.edition (rec self.old.next body.now) }
        ensures kept { Kept self.old self.new }
        ensures turned { Turned shelf_store (ledger_engine self.old.edition) (laid (rec self.old.next body.now) self.old) (rx_of self.new) result }
    {
        let i = (self.next % 64) as usize;
        let k = Kind::from(u8::at(body, 0));
        let tried = book::try_kind(
            k,
            self.orders,
            self.symbols,
            self.index,
            self.clock,
            self.next,
            body,
        );
        let Ok(clock) = tried else {
            shelf::put(self.shelf, i, self.next, body);
            return false;
        };
        shelf::empty(self.shelf, i);
        self.clock = clock;
        self.next += 1;
        true
    }

    // A taken record is shelved: how many of its 64 turns the drain then has. One that is next makes the first of them itself, and where it does not
    // apply no other is made.
    fn lay(&mut self, number: u64, body: &[u8]) -> usize
        requires { Good self.old.edition (rec number body.now) }
        ensures kept { Kept self.old self.new }
        ensures state { drained shelf_store (ledger_engine self.old.edition) result (rx_of self.new) ≡ drained shelf_store (ledger_engine self.old.edition) 64 (laid (rec number body.now) self.old) }
        ensures next { self.new.next ≤ self.old.next + 1 }
        ensures turns { result ≤ 64 }
    {
        if number == self.next {
            return if self.take_next(body) { 63 } else { 0 };
        }
        shelf::put(self.shelf, (number % 64) as usize, number, body);
        64
    }

    // "it is shelved: taken (10). After each taken record" the shelf is drained.
    fn take(&mut self, number: u64, body: &[u8])
        requires next { self.old.next ≤ last_number + 200000 }
        requires good { Good self.old.edition (rec number body.now) }
        ensures kept { Kept self.old self.new }
        ensures state { rx_of self.new ≡ drained shelf_store (ledger_engine self.old.edition) 64 (laid (rec number body.now) self.old) }
    {
        let turns = self.lay(number, body);
        self.drain(turns);
    }

    // One record of a good packet, and its answer.
    fn offer(&mut self, number: u64, body: &[u8]) -> Answer
        requires next { self.old.next ≤ last_number + 200000 }
        requires good { Good self.old.edition (rec number body.now) }
        ensures kept { Kept self.old self.new }
        ensures state { rx_of self.new ≡ after shelf_store (ledger_engine self.old.edition) (rec number body.now) (rx_of self.old) }
        ensures answer { answer_of result ≡ judged shelf_store (ledger_engine self.old.edition) (rec number body.now) (rx_of self.old) }
    {
        let answer = self.answer_to(number, body);
        if let Answer::Taken = answer {
            self.take(number, body);
        }
        answer
    }

    // "A good packet is worked record by record": how many records got each answer.
    pub(crate) fn work(&mut self, p: &[u8]) -> Counts
        requires next { self.old.next ≤ last_number + 1 }
        requires good { GoodPacket self.old.edition p.now }
        ensures kept { Kept self.old self.new }
        ensures work { working_of self.old.edition self.new result ≡ work_all shelf_store (ledger_engine self.old.edition) (records_of (framing self.old.edition p.now)) (working_of self.old.edition self.old no_counts) }
    {
        let mut counts = Counts::default();
        for r in (Records { rest: p }) {
            let answer = self.offer(r.number, r.body);
            counts = counted(counts, answer);
        }
        counts
    }

    // "the stop: 0 if next's slot is empty or its message breaks no rule, else the rule that its message breaks".
    pub(crate) fn stop(&self) -> u8
        ensures { result ≡ stop shelf_store (ledger_engine self.now.edition) (rx_of self.now) }
    {
        let i = (self.next % 64) as usize;
        let n = shelf::slot_number(self.shelf, i);
        if n == 0 {
            return 0;
        }
        if n != self.next || 64 < shelf::slot_len(self.shelf, i) {
            return u8::from(Rule::NoBody);
        }
        let tables = Tables {
            orders: self.orders,
            symbols: self.symbols,
            index: self.index,
        };
        let body = shelf::slot_body(self.shelf, i);
        match book::plan(self.edition, tables, self.clock, self.next, body) {
            Ok(_) => 0,
            Err(rule) => u8::from(rule),
        }
    }
}
