// Reads a recording from standard input and prints its answer sheet on standard output. Nothing that matters lives here: packets are
// carved out by `recording`, and the sheet is what `answer_sheet` writes.
#![tactic(auto)]

use answer_sheet::Recording;
use editions::Edition;
use fields::Refusal;
use recording::Stream;
use std::env::Env;
use streams::{Failure, Word};

// "It uses full capacities"; of rows "the sheet program keeps 1,600" (document 02, No. 9)
const ORDERS: usize = rows::ROW_SIZE * facts::SHEET_ROWS;

const SYMBOLS: usize = facts::ENTRY_SIZE * facts::MOST_ENTRIES;

// What is read at a time.
const BLOCK: usize = 65536;

const VERSION: &str = "rimeheath 1.0, for DoM 1.3, 1.3.a and 1.3.b\n";

const HELP: &str = "Reads a recording from standard input, packets each behind a 2-byte length,
and prints the order book that it leaves as an answer sheet.
  --edition  names its edition: 1.3, where byte 20 of a Symbol Update is its
             type, or 1.3.a or 1.3.b, where it is reserved; 1.3.b if not named
  --help     prints this
  --version  prints the program's version
";

const WRONG_WORDS: &str =
    "sheet takes no word but --help, --version, and --edition with 1.3, 1.3.a or 1.3.b; the recording comes on standard input";

// Never reached with this program's tables; said rather than a wrong sheet printed.
const REFUSED: &str = "the tables were refused";

// What the program is asked for.
#[derive(Clone, Copy)]
enum Task {
    Sheet(Edition),
    Help,
    Version,
}

// What went wrong goes to standard error, which is the last place where anything could be told.
fn main(rt: HostRuntime) {
    if let Err(e) = answer(&rt) {
        let _ = eprintln!(rt; "rimeheath: {e}");
    }
}

fn answer(rt: &(impl Env + Input + Print)) -> Result<(), Failure> {
    let words = match task_asked(rt).ok_or(Failure::Told(WRONG_WORDS))? {
        Task::Sheet(e) => return sheet(rt, e),
        Task::Help => HELP,
        Task::Version => VERSION,
    };
    // Where they cannot be written, nobody reads them.
    let _ = rt.print(words);
    Ok(())
}

// A sheet, in the edition that the words ask for; or what one word alone asks for.
fn task_asked(rt: &impl Env) -> Option<Task> {
    let count = streams::word_count(rt, usize::MAX);
    let first = Word::<16>::at(rt, 1);
    let second = Word::<16>::at(rt, 2);
    if let Some(e) = words::edition_asked(count, first.as_slice(), second.as_slice()) {
        return Some(Task::Sheet(e));
    }
    match first.as_slice() {
        b"--help" if count <= 2 => Some(Task::Help),
        b"--version" if count <= 2 => Some(Task::Version),
        _ => None,
    }
}

// A proved loop has to end, so it counts its blocks up to a number that no recording reaches.
fn sheet(rt: &(impl Input + Print), e: Edition) -> Result<(), Failure> {
    let mut orders = [0; ORDERS];
    let mut symbols = [0; SYMBOLS];
    let mut shelf = [0; facts::SHELF_SIZE];
    let mut index = [0; index::INDEX_SIZE];
    let mut hold = [0; facts::HOLD_LEAST];
    let mut block = [0; BLOCK];
    let mut text = [0; answer_sheet::SHEET_MOST];
    let mut from = rt.reader();
    let started = receiver::start(e, &mut orders, &mut symbols, &mut shelf, &mut index);
    let mut stream = recording::open(started.map_err(refused)?);
    for _ in 0..u64::MAX {
        let n = streams::read_once(&mut from, &mut block).map_err(Failure::Input)?;
        if n == 0 {
            return print(rt, &orders, &symbols, stream, &mut text);
        }
        let fed = recording::feed(
            &mut orders,
            &mut symbols,
            &mut shelf,
            &mut index,
            &mut hold,
            stream,
            &block[..n],
        );
        stream = fed.map_err(refused)?;
    }
    Err(Failure::Told(REFUSED))
}

fn refused(_: Refusal) -> Failure {
    Failure::Told(REFUSED)
}

// The sheet's memory is lent as an array: one so long is no slice where it is made, since its length would be counted there.
fn print(
    rt: &impl Print,
    orders: &[u64],
    symbols: &[u8],
    s: Stream,
    sheet: &mut [u8; answer_sheet::SHEET_MOST],
) -> Result<(), Failure> {
    let word = if recording::is_cut(s) {
        Recording::Cut
    } else {
        Recording::Whole
    };
    let n = answer_sheet::sheet(sheet, orders, symbols, s.receiver, s.bad, word).map_err(refused)?;
    rt.write_all(text::front(sheet, n)).map_err(Failure::Output)
}
