// Makes of a morning's text on standard input a recording on standard output (docs/TEXT.md), in constant memory. Nothing that matters lives here: lines are
// read by `line_in`, and records and packets are written by `writer`. That all was composed it tells in its last line on standard error.
#![tactic(auto)]

ghost use Rattle.std.specs.Prelude.{◌≤◌, length, IfOk};

use editions::Edition;
use keys::{Form, Row};
use kinds::Kind;
use line_in::{Expected, Line, Slip};
use packet::Why;
use std::env::Env;
use std::fmt;
use streams::{Failure, Word};
use styles::Style;

// What is held of the text at a time.
const PIECE: usize = 65536;

// A packet behind its length.
const LENGTH_FIRST: usize = facts::PACKET_MOST + 2;

const WRONG_WORDS: &str =
    "compose takes no word but --edition with 1.3, 1.3.a or 1.3.b; the text comes on standard input";

// Never reached with this program's piece and packet.
const NOT_COMPOSED: &str = "the text was not composed";

// What went wrong goes to standard error, which is the last place where anything could be told; and so does what was counted.
fn main(rt: HostRuntime) {
    let _ = match answer(&rt) {
        Ok(c) => eprintln!(rt;
            "rimeheath: {} in {}",
            Counted(c.records, "record"),
            Counted(c.packets, "packet")
        ),
        Err(e) => eprintln!(rt; "rimeheath: {e}"),
    };
}

fn answer(rt: &(impl Env + Input + Print)) -> Result<Counts, Stop> {
    let asked = words::edition_asked(
        streams::word_count(rt, usize::MAX),
        Word::<16>::at(rt, 1).as_slice(),
        Word::<16>::at(rt, 2).as_slice(),
    );
    compose(rt, asked.ok_or(Failure::Told(WRONG_WORDS))?)
}

// Why the text is not composed to its end: the program fails, or a line is wrong, or the packet has no room for its record.
#[derive(Debug, Drop)]
enum Stop {
    Failed(Failure),
    Wrong(u64, Edition, Slip),
    Full(u64),
}

impl From<Failure> for Stop {
    fn from(x: Failure) -> Stop {
        Stop::Failed(x)
    }
}

// ---- the text

// A proved loop has to end, so it counts its pieces up to a number that no text reaches. What is held at the end of the text is a last line
// without a line feed; then the last packet ends.
fn compose(rt: &(impl Input + Print), e: Edition) -> Result<Counts, Stop> {
    let mut piece = [0; PIECE];
    let mut held = 0;
    let mut recording = Recording::new(e);
    let mut from = rt.reader();
    for _ in 0..u64::MAX {
        if PIECE <= held {
            break;
        }
        let n = streams::read_once(&mut from, &mut piece[held..]).map_err(Failure::Input)?;
        if n == 0 {
            if held > 0 {
                recording.take_line(rt, &piece[..held])?;
            }
            recording.end_packet(rt)?;
            return Ok(recording.counts);
        }
        let have = held + n;
        held = recording.take_lines(rt, &piece[..have])?;
        piece.copy_within(have - held..have, 0);
    }
    Err(Stop::from(Failure::Told(NOT_COMPOSED)))
}

// How many lines, records and packets are done. Each stays at the largest number where it would pass it.
#[derive(Clone, Copy, Default)]
struct Counts {
    lines: u64,
    records: u64,
    packets: u64,
}

// How far the text was composed: what is done, and the packet so far.
#[derive(Clone, Copy)]
struct Recording {
    edition: Edition,
    counts: Counts,
    packet: [u8; facts::PACKET_MOST],
    used: usize,
}

impl Recording {
    fn new(edition: Edition) -> Self {
        Recording {
            edition,
            counts: Counts::default(),
            packet: [0; facts::PACKET_MOST],
            used: 0,
        }
    }

    // Composes the whole lines of a piece, and returns how many bytes are behind them. A line whose end has not come waits for it, but one that
    // is too long already is told at once.
    fn take_lines(&mut self, out: &impl Print, piece: &[u8]) -> Result<usize, Stop>
        ensures { IfOk result (λ n. n ≤ length piece.now) }
    {
        let mut rest = piece;
        while let Some(n) = spans::place_of(rest, b'\n') {
            self.take_line(out, &rest[..n])?;
            rest = &rest[n + 1..];
        }
        if rest.len() > spans::LINE_MOST {
            self.take_line(out, rest)?;
        }
        Ok(rest.len())
    }

    // A blank line ends the packet, and a record goes behind the packet so far.
    fn take_line(&mut self, out: &impl Print, line: &[u8]) -> Result<(), Stop> {
        self.counts.lines = self.counts.lines.saturating_add(1);
        match line_in::read_line(self.edition, line) {
            Ok(Line::Blank) => self.end_packet(out),
            Ok(Line::Comment) => Ok(()),
            Ok(
                Line::Record {
                    number,
                    body,
                    length,
                },
            ) => self.take_record(number, text::front(&body, length)),
            Err(x) => Err(Stop::Wrong(self.counts.lines, self.edition, x)),
        }
    }

    // No refusal is left but that of a full packet, since the line was judged.
    fn take_record(&mut self, number: u64, body: &[u8]) -> Result<(), Stop> {
        match writer::append(self.edition, &mut self.packet, self.used, number, body) {
            Ok(used) => {
                self.used = used;
                self.counts.records = self.counts.records.saturating_add(1);
                Ok(())
            }
            Err(Why::Alone(r)) if r.number == 1 => Err(Stop::Full(self.counts.lines)),
            Err(_) => Err(Stop::from(Failure::Told(NOT_COMPOSED))),
        }
    }

    // The packet so far behind its length, unless it is empty.
    fn end_packet(&mut self, out: &impl Print) -> Result<(), Stop> {
        if self.used == 0 {
            return Ok(());
        }
        let mut whole = [0; LENGTH_FIRST];
        let packet = text::front(&self.packet, self.used);
        let n = writer::append_packet(self.edition, &mut whole, 0, packet)
            .ok()
            .ok_or(Failure::Told(NOT_COMPOSED))?;
        out.write_all(text::front(&whole, n))
            .map_err(Failure::Output)?;
        self.used = 0;
        self.counts.packets = self.counts.packets.saturating_add(1);
        Ok(())
    }
}

// ---- what is said

// One thing, or so many things.
#[derive(Clone, Copy)]
struct Counted(u64, &'static str);

impl fmt::Display for Counted {
    fn fmt<W: fmt::Write>(&self, f: &mut fmt::Formatter<W>) -> fmt::Result {
        let ending = if self.0 == 1 { "" } else { "s" };
        write!(f, "{} {}{ending}", self.0, self.1)
    }
}

impl fmt::Display for Stop {
    fn fmt<W: fmt::Write>(&self, f: &mut fmt::Formatter<W>) -> fmt::Result {
        match self {
            Stop::Failed(x) => write!(f, "{x}"),
            Stop::Wrong(line, e, x) => write!(
                f,
                "line {line}, column {}: expected {}",
                x.column,
                Wanted(*e, x.expected)
            ),
            Stop::Full(line) => write!(
                f,
                "line {line}, column 1: expected a blank line before it: the packet would have more than 1,500 bytes"
            ),
        }
    }
}

// What was expected, in an edition.
#[derive(Clone, Copy)]
struct Wanted(Edition, Expected);

impl fmt::Display for Wanted {
    fn fmt<W: fmt::Write>(&self, f: &mut fmt::Formatter<W>) -> fmt::Result {
        let Wanted(e, expected) = *self;
        match expected {
            Expected::Shorter => {
                f.write_str("the end of the line: a line has at most 4,096 bytes")
            }
            Expected::Number => f.write_str("a sequence number from 1 to 1000000000000"),
            Expected::Name => f.write_str(
                "the name of a message: time, update, state, status, clear, add, modify, delete, execution, trade or cancel",
            ),
            Expected::Key(k) => write!(
                f,
                "a key of {}: {}",
                keys::name_of(k),
                Keys(keys::rows(e, k))
            ),
            Expected::Once(k, i) => write!(f, "{}= once: it stood before", field(e, k, i).key),
            Expected::Needed(k, i) => write!(f, "{}=, which has to be written", field(e, k, i).key),
            Expected::Value(k, i) => write!(f, "{}", Value(field(e, k, i).form)),
            Expected::Range(k, i) => f.write_str(range_of(k, field(e, k, i).form)),
        }
    }
}

// A field of a message, as the table has it; none is told that is not there.
fn field(e: Edition, k: Kind, i: usize) -> Row {
    keys::rows(e, k).get(i).copied().unwrap_or_default()
}

// The keys of a message, one after another.
#[derive(Clone, Copy)]
struct Keys(&'static [Row]);

impl fmt::Display for Keys {
    fn fmt<W: fmt::Write>(&self, f: &mut fmt::Formatter<W>) -> fmt::Result {
        for (i, row) in self.0.iter().enumerate() {
            let between = match i {
                0 => "",
                _ if i + 1 == self.0.len() => " or ",
                _ => ", ",
            };
            write!(f, "{between}{}=", row.key)?;
        }
        Ok(())
    }
}

const PRICE: &str = "a price in dollars, 0.000001 to 1000000000.000000, with at most six places";

// What the value of a field may be, by its form.
#[derive(Clone, Copy)]
struct Value(Form);

impl fmt::Display for Value {
    fn fmt<W: fmt::Write>(&self, f: &mut fmt::Formatter<W>) -> fmt::Result {
        let width = self.0.width;
        match self.0.style {
            Style::Number => write!(f, "a number from 0 to {}", values::most_of(width)),
            Style::Price => f.write_str(PRICE),
            Style::Clock => f.write_str("seconds, or a time as 09:30:00"),
            Style::Text => {
                if width > 1 {
                    write!(f, "1 to {width} bytes")?;
                } else {
                    f.write_str("1 byte")?;
                }
                write!(
                    f,
                    " of text without blanks, or 0x and {} hexadecimal digits",
                    width.saturating_mul(2)
                )
            }
        }
    }
}

// What a judged field may have. The Timestamp is the first field of all messages that have one.
fn range_of(k: Kind, f: Form) -> &'static str {
    match (k, f.style, f.at) {
        (_, _, 1) => "nanoseconds, at most 999999999",
        (_, Style::Price, _) => PRICE,
        (Kind::Add, Style::Text, _) => "a side, B or S",
        (_, Style::Text, 20) => "a security type, E or F",
        (_, Style::Text, 21) => "a test indicator, Y or N",
        (_, Style::Text, _) => "a market, one of A B C H I J K L M N P Q U V W X Y Z",
        _ => "a size of 1 or more",
    }
}
