// The library for other languages: thin functions over numbers, slices and arrays of numbers (include/rimeheath.h). Each but rimeheath_cut,
// which answers yes or no, answers 0 or document 01's number of the refusal, and a refusal changes no lent byte. Where packets, records and
// bodies are read, the answer has the offset of the first byte at fault above the number's 8 bits.
#![tactic(auto)]

ghost use Rattle.std.specs.Prelude.{ℕ, List, [], ◌∷◌, ◌≡◌, ◌<◌, IfErr};
ghost use Rattle.editions.specs.Editions.{edition_of};
ghost use Rattle.receiver.specs.Lent.{state_numbers, lent, received, started};
ghost use Rattle.views.specs.Views.{ladder_view, spread_view, counts_view};
ghost use Rattle.packet.specs.Record.{read_record};
ghost use Rattle.packet.specs.Packet.{read_packet};
ghost use Rattle.body.specs.Read.{judge_body, read_body};
ghost use Rattle.answer_sheet.specs.Sheet.{sheet_view};
ghost use Rattle.recording.specs.Stream.{opened, fed, cut as is_cut};
ghost use Rattle.body.specs.Read.{with_offset};
ghost use Rattle.retype.specs.Retyped.{asked};
ghost use Rattle.conversion.specs.Packet.{converted};
ghost use Rattle.conversion.specs.Piece.{turned_to};
ghost use Rattle.writer.specs.Append.{numbers_appended, packet_appended};
ghost use Rattle.api.specs.Told.{why_code, code_of, told, done_of, Small};
ghost use Rattle.api.specs.Writing.{write_answer};
ghost use Rattle.api.specs.Conversions.{convert_call, convert_answer, piece_numbers, piece_answer};
ghost use Rattle.api.specs.Calls.{state_in, account_numbers, side_asked, start_call, start_answer, receive_call, receive_answer, fill_call, ladder_answer, call, spread_numbers, spread_answer, counts_numbers, counts_answer, packet_answer, record_numbers, record_answer, word_of, sheet_answer};
ghost use Rattle.api.specs.Streams.{stream_numbers, stream_from, open_answer, feed_call, feed_answer};
ghost use Rattle.api.specs.Messages.{body_answer};

use answer_sheet::Recording;
use arbitration::Counts;
use book::Clock;
use conversion::Tally;
use editions::Edition;
use fields::{Fault, Refusal};
use packet::{Head, Why};
use receiver::{Account, State};
use recording::Stream;
use retype::Asked;
use views::{Side, Sizes};

// What C is told as so many numbers.
trait Numbers<const N: usize>: Sized {
    ghost numbers: { Self → List ℕ };

    fn numbers(self) -> [u64; N]
        ensures { result ≡ numbers self };
}

// How much there is.
impl Numbers<1> for usize {
    ghost numbers = { λ n. n ∷ [] };

    fn numbers(self) -> [u64; 1] {
        [self as u64]
    }
}

impl Numbers<2> for Head {
    ghost numbers = { record_numbers };

    fn numbers(self) -> [u64; 2] {
        [self.number, self.len as u64]
    }
}

impl Numbers<2> for Sizes {
    ghost numbers = { counts_numbers };

    fn numbers(self) -> [u64; 2] {
        [self.orders as u64, self.symbols as u64]
    }
}

// 1 and a spread as the 64 bits that hold it, or two zeros where a side is empty.
impl Numbers<2> for Option<i64> {
    ghost numbers = { spread_numbers };

    fn numbers(self) -> [u64; 2] {
        match self {
            Some(z) => [1, z.cast_unsigned()],
            None => [0, 0],
        }
    }
}

// The bytes of whole packets, and what was counted of them.
impl Numbers<4> for (usize, Tally) {
    ghost numbers = { piece_numbers };

    fn numbers(self) -> [u64; 4] {
        let (n, t) = self;
        [n as u64, t.updates as u64, t.unread as u64, t.barred as u64]
    }
}

impl Numbers<4> for State {
    ghost numbers = { state_numbers };

    fn numbers(self) -> [u64; 4] {
        [
            self.next,
            self.clock.second as u64,
            self.stop as u64,
            u64::from(self.edition),
        ]
    }
}

impl Numbers<9> for Account {
    ghost numbers = { account_numbers };

    fn numbers(self) -> [u64; 9] {
        let t = self.counts;
        [
            t.taken,
            t.old,
            t.far,
            t.repeated,
            t.differing,
            self.next,
            self.applied,
            self.highest,
            self.stop as u64,
        ]
    }
}

impl Numbers<14> for Stream {
    ghost numbers = { stream_numbers };

    fn numbers(self) -> [u64; 14] {
        let [next, second, stop, edition]: [u64; 4] = self.receiver.numbers();
        let t = self.totals;
        [
            next,
            second,
            stop,
            edition,
            self.held as u64,
            self.skip as u64,
            self.bad,
            t.taken,
            t.old,
            t.far,
            t.repeated,
            t.differing,
            self.last.number as u64,
            self.last.at as u64,
        ]
    }
}

// Stores the numbers of an answer; a refusal leaves the lent ones as they are.
fn store<T: Numbers<N>, E, const N: usize>(
    answer: Result<T, E>,
    out: &mut [u64; N],
) -> Result<(), E>
    ensures lent { out.new ≡ told T.numbers answer out.old }
    ensures done { result ≡ done_of answer }
{
    *out = answer?.numbers();
    Ok(())
}

// 0, or the number of a refusal.
fn number(done: Result<(), Refusal>) -> u8
    ensures { result ≡ code_of (λ r. r.number) done }
{
    match done {
        Ok(()) => 0,
        Err(r) => r.number,
    }
}

// Number and offset in one number; no offset in a packet, a record or a body is large.
fn with_offset(f: Fault) -> u32
    requires { f.at < 65536 }
    ensures { result ≡ with_offset f }
{
    (f.number as u32) + 256 * (f.at as u32)
}

// 0, the number of a refusal alone, or number and offset.
fn code(done: Result<(), Why>) -> u32
    requires { IfErr done Small }
    ensures { result ≡ code_of why_code done }
{
    match done {
        Ok(()) => 0,
        Err(Why::Alone(r)) => r.number as u32,
        Err(Why::Placed(f)) => with_offset(f),
    }
}

// Starts a receiver of an edition: the tables are zeroed, the index is made if one is lent, and state becomes next 1, second 0, stop 0 and the edition's number.
#[tactic(auto, using(crate::proofs::Telling::code_told), unfolding(crate::specs::Calls::start_answer))]
pub fn rimeheath_start(
    edition: u64,
    orders: &mut [u64],
    symbols: &mut [u8],
    shelf: &mut [u8],
    index: &mut [u64],
    state: &mut [u64; 4],
) -> u8
    ensures { start_call result state.new orders.new symbols.new shelf.new index.new ≡ start_answer (started (edition_of edition) orders.old symbols.old shelf.old index.old) state.old }
{
    let started = receiver::start(Edition::from(edition), orders, symbols, shelf, index);
    number(store(started, state))
}

// A receiver's state of four lent numbers.
fn state_in(l: &[u64; 4]) -> State
    ensures { result ≡ state_in l.now }
{
    State {
        next: l[0],
        clock: Clock {
            second: (l[1] % 4294967296) as u32,
        },
        stop: (l[2] % 256) as u8,
        edition: Edition::from(l[3]),
    }
}

// Gives a packet to a receiver: state and account become what they are after it.
#[tactic(auto, using(crate::proofs::Telling::code_told), unfolding(crate::specs::Calls::receive_answer))]
pub fn rimeheath_receive(
    orders: &mut [u64],
    symbols: &mut [u8],
    shelf: &mut [u8],
    index: &mut [u64],
    state: &mut [u64; 4],
    p: &[u8],
    account: &mut [u64; 9],
) -> u32
    ensures { receive_call result state.new account.new orders.new symbols.new shelf.new index.new ≡ receive_answer (received (lent orders.old symbols.old shelf.old index.old (state_in state.old)) p.now) state.old account.old }
{
    let r = receiver::receive(orders, symbols, shelf, index, state_in(state), p);
    let done = store(r.answer, account);
    if done.is_ok() {
        *state = r.state.numbers();
    }
    code(done)
}

// A stream of fourteen lent numbers.
fn stream_from(l: &[u64; 14]) -> Stream
    ensures { result ≡ stream_from l.now }
{
    let head = [l[0], l[1], l[2], l[3]];
    let receiver = state_in(&head);
    let totals = Counts {
        taken: l[7],
        old: l[8],
        far: l[9],
        repeated: l[10],
        differing: l[11],
    };
    let last = Fault {
        number: (l[12] % 256) as u8,
        at: l[13] as usize,
    };
    Stream {
        receiver,
        held: l[4] as usize,
        skip: l[5] as usize,
        bad: l[6],
        last,
        totals,
    }
}

// Opens a stream over a receiver, before the first chunk of a recording.
#[tactic(auto, unfolding(crate::specs::Streams::open_answer))]
pub fn rimeheath_open(state: &[u64; 4], stream: &mut [u64; 14]) -> u8
    ensures { call result stream.new ≡ open_answer (opened (state_in state.now)) }
{
    *stream = recording::open(state_in(state)).numbers();
    0
}

// Gives the next chunk of a recording: the stream, the tables and the buffer become what they are after it.
#[tactic(auto, using(crate::proofs::Telling::code_told), unfolding(crate::specs::Streams::feed_answer, recording::specs::Stream::fed_number))]
pub fn rimeheath_feed(
    orders: &mut [u64],
    symbols: &mut [u8],
    shelf: &mut [u8],
    index: &mut [u64],
    hold: &mut [u8],
    stream: &mut [u64; 14],
    chunk: &[u8],
) -> u8
    ensures { feed_call result stream.new orders.new symbols.new shelf.new index.new hold.new ≡ feed_answer (fed (stream_from stream.old) orders.old symbols.old shelf.old index.old hold.old chunk.now) stream.old }
{
    let from = stream_from(stream);
    let fed = recording::feed(orders, symbols, shelf, index, hold, from, chunk);
    number(store(fed, stream))
}

// Whether a recording that ends here ends inside a length or packet.
pub fn rimeheath_cut(stream: &[u64; 14]) -> bool
    ensures { result ≡ is_cut (stream_from stream.now) }
{
    recording::is_cut(stream_from(stream))
}

fn side_asked(sell: bool) -> Side
    ensures { result ≡ side_asked sell }
{
    if sell { Side::Sell } else { Side::Buy }
}

// The ladder of a symbol and side: the levels that fit into the run, and the number of all.
#[tactic(auto, using(crate::proofs::Telling::code_told), unfolding(crate::specs::Calls::ladder_answer, views::specs::Views::ladder_number))]
pub fn rimeheath_ladder(
    orders: &[u64],
    symbols: &[u8],
    symbol: u32,
    sell: bool,
    run: &mut [u64],
    levels: &mut [u64; 1],
) -> u8
    ensures { fill_call result levels.new run.new ≡ ladder_answer (ladder_view (side_asked sell) symbol orders.now symbols.now run.old) levels.old }
{
    let ladder = views::ladder(orders, symbols, symbol, side_asked(sell), run);
    number(store(ladder, levels))
}

// The spread of a symbol: 1 and the signed number as 64 bits, or two zeros where a side is empty.
#[tactic(auto, using(crate::proofs::Telling::code_told, crate::proofs::Telling::spread_code), unfolding(crate::specs::Calls::spread_answer))]
pub fn rimeheath_spread(orders: &[u64], symbols: &[u8], symbol: u32, answer: &mut [u64; 2]) -> u8
    ensures { call result answer.new ≡ spread_answer (spread_view symbol orders.now symbols.now) answer.old }
{
    number(store(views::spread(orders, symbols, symbol), answer))
}

// Live orders and used entries.
#[tactic(auto, using(crate::proofs::Telling::code_told), unfolding(crate::specs::Calls::counts_answer, views::specs::Views::counts_number))]
pub fn rimeheath_counts(orders: &[u64], symbols: &[u8], counts: &mut [u64; 2]) -> u8
    ensures { call result counts.new ≡ counts_answer (counts_view orders.now symbols.now) counts.old }
{
    number(store(views::counts(orders, symbols), counts))
}

// Judges a packet of an edition: the number of its records.
#[tactic(auto, using(crate::proofs::Telling::code_told), unfolding(crate::specs::Calls::packet_answer))]
pub fn rimeheath_packet(edition: u64, p: &[u8], records: &mut [u64; 1]) -> u32
    ensures { call result records.new ≡ packet_answer (read_packet (edition_of edition) p.now) records.old }
{
    code(store(packet::read_packet(Edition::from(edition), p), records))
}

// Judges the first record of what is left of a packet of an edition: its number, and the length of its body.
#[tactic(auto, using(crate::proofs::Telling::code_told), unfolding(crate::specs::Calls::record_answer))]
pub fn rimeheath_record(edition: u64, rest: &[u8], head: &mut [u64; 2]) -> u32
    ensures { call result head.new ≡ record_answer (read_record (edition_of edition) rest.now) head.old }
{
    match store(packet::read_record(Edition::from(edition), rest), head) {
        Ok(()) => 0,
        Err(f) => with_offset(f),
    }
}

// Judges a body of an edition, and reads all fields of a good one: its numbers, of which the first is its type, and its text.
pub fn rimeheath_body(edition: u64, b: &[u8], fields: &mut [u64; 8], text: &mut [u8; 28]) -> u32
    ensures { fill_call result fields.new text.new ≡ body_answer (edition_of edition) (judge_body (edition_of edition) b.now) (read_body (edition_of edition) b.now) b.now fields.old text.old }
{
    let e = Edition::from(edition);
    match body::judge_body(e, b) {
        Ok(k) => {
            *fields = numbers::fields_of(e, k, b);
            *text = numbers::text_of(e, k, b);
            0
        }
        Err(f) => with_offset(f),
    }
}

fn word_of(cut: bool) -> Recording
    ensures { result ≡ word_of cut }
{
    if cut {
        Recording::Cut
    } else {
        Recording::Whole
    }
}

// The answer sheet, as far as the buffer reaches, and how long the whole of it is.
#[tactic(auto, using(crate::proofs::Telling::code_told), unfolding(crate::specs::Calls::sheet_answer, answer_sheet::specs::Sheet::sheet_number))]
pub fn rimeheath_sheet(
    buf: &mut [u8],
    orders: &[u64],
    symbols: &[u8],
    state: &[u64; 4],
    bad: u64,
    cut: bool,
    length: &mut [u64; 1],
) -> u8
    ensures { fill_call result length.new buf.new ≡ sheet_answer (sheet_view (word_of cut) bad (state_in state.now) orders.now symbols.now buf.old) length.old }
{
    let sheet = answer_sheet::sheet(buf, orders, symbols, state_in(state), bad, word_of(cut));
    number(store(sheet, length))
}

// Makes a packet of one edition one of another, in place: how many Symbol Updates it has.
#[tactic(auto, using(crate::proofs::Telling::code_told), unfolding(crate::specs::Conversions::convert_answer))]
pub fn rimeheath_convert(
    from: u64,
    to: u64,
    kind: u8,
    others: &[u8],
    p: &mut [u8],
    updates: &mut [u64; 1],
) -> u32
    ensures { convert_call result p.new updates.new ≡ convert_answer (converted (edition_of from) (asked (edition_of to) kind others.now) p.old) updates.old }
{
    let asked = Asked {
        to: Edition::from(to),
        all: kind,
        others,
    };
    let converted = conversion::convert(Edition::from(from), &asked, p);
    code(store(converted, updates))
}

// The same of the whole packets at the front of a piece of a recording: their bytes, and what was counted of them.
#[tactic(auto, using(crate::proofs::Telling::code_told, crate::proofs::Telling::piece_code), unfolding(crate::specs::Conversions::piece_answer))]
pub fn rimeheath_convert_piece(
    from: u64,
    to: u64,
    kind: u8,
    others: &[u8],
    b: &mut [u8],
    counts: &mut [u64; 4],
) -> u8
    ensures { convert_call result b.new counts.new ≡ piece_answer (turned_to (edition_of from) (asked (edition_of to) kind others.now) b.old) counts.old }
{
    let asked = Asked {
        to: Edition::from(to),
        all: kind,
        others,
    };
    let turned = conversion::convert_piece(Edition::from(from), &asked, b);
    number(store(turned, counts))
}

// Writes a record behind the packet so far, from the numbers and the text in which rimeheath_body gives a message: the packet's new length.
#[tactic(auto, using(crate::proofs::Telling::code_told), unfolding(crate::specs::Writing::write_answer))]
pub fn rimeheath_append(
    edition: u64,
    memory: &mut [u8],
    used: usize,
    number: u64,
    fields: &[u64; 8],
    text: &[u8; 28],
    length: &mut [u64; 1],
) -> u32
    ensures { fill_call result length.new memory.new ≡ write_answer (numbers_appended (edition_of edition) memory.old used number fields.now text.now) length.old }
{
    let e = Edition::from(edition);
    let written = writer::append_numbers(e, memory, used, number, fields, text);
    code(store(written, length))
}

// Writes a packet, behind its length, behind the recording so far: the recording's new length.
#[tactic(auto, using(crate::proofs::Telling::code_told), unfolding(crate::specs::Writing::write_answer))]
pub fn rimeheath_append_packet(
    edition: u64,
    memory: &mut [u8],
    used: usize,
    p: &[u8],
    length: &mut [u64; 1],
) -> u32
    ensures { fill_call result length.new memory.new ≡ write_answer (packet_appended (edition_of edition) memory.old used p.now) length.old }
{
    let e = Edition::from(edition);
    let written = writer::append_packet(e, memory, used, p);
    code(store(written, length))
}
