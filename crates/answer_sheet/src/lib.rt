// The sheet of a receiver: key=value lines, written into lent memory as far as it reaches.
#![tactic(auto)]

ghost use Rattle.std.specs.Prelude.{◌≡◌, true, ◌+◌, ◌*◌, ◌^◌, ◌≤◌, ◌<◌, length, get_or, [], ◌∷◌};
ghost use Rattle.body.specs.Shown.{security_in};
ghost use Rattle.rows.specs.Rows.{rows};
ghost use Rattle.symbols.specs.Entries.{entries};
ghost use Rattle.views.specs.Views.{good_tables, view_fault};
ghost use Rattle.text.specs.Text.{Wrote, decimal_of, signed_of, ticker_of, line_of, first_texts};
ghost use Rattle.answer_sheet.specs.Keys.{recording_key, ticker_key, spread_key, side_key};
ghost use Rattle.answer_sheet.specs.Lines.{text_of};
ghost use Rattle.answer_sheet.specs.Page.{Printed};
ghost use Rattle.answer_sheet.specs.Sheet.{recording_word, head_lines, table_lines, marked_of, level_value, level_at, side_lines, spread_word, type_lines, symbol_lines, book_lines, entry_lines, all_entries, lines_of, sheet_of, sheet_and, sheet_view, AreSizes};

use editions::Edition;
use fields::{Refusal, Symbol};
use receiver::State;
use views::{Level, Side, Sizes};

// A buffer of this many bytes holds any sheet whole (`sheet_whole`).
pub const SHEET_MOST: usize = 1_500_000;

// The most levels of a side on a sheet.
const LEVELS_SHOWN: usize = 10;

// Three numbers for each of them.
const RUN_SIZE: usize = 3 * LEVELS_SHOWN;

// A recording that ends inside a length or packet is cut.
#[derive(Clone, Copy, PartialEq, Eq, Debug)]
pub enum Recording {
    Whole,
    Cut,
}

// Level i of a run that holds it whole.
fn level_in(run: &[u64], i: usize) -> Level
    requires { 3 * i + 3 ≤ length run.now }
    ensures { result ≡ level_at run.now i }
{
    let b = 3 * i;
    Level {
        price: run[b],
        shares: run[b + 1],
        orders: run[b + 2],
    }
}

// The key of a side's levels.
fn side_key(side: Side) -> &'static [u8]
    ensures { result.now ≡ side_key side }
{
    match side {
        Side::Buy => b"bid=",
        Side::Sell => b"ask=",
    }
}

// What byte 20 of entry i is in an edition.
fn security_at(e: Edition, symbols: &[u8], i: usize) -> Option<u8>
    ensures { result ≡ security_in e (get_or (entries symbols.now) i []) }
{
    body::security_in(e, symbols::entry_bytes(symbols, i))
}

// The lent tables that a sheet tells of, of good sizes, and what is counted of them.
#[derive(Clone, Copy)]
struct Tables<'a> {
    orders: &'a [u64],
    symbols: &'a [u8],
    sizes: Sizes,
    ghost counted: { AreSizes sizes orders.now symbols.now },
}

// The lent memory, and the place behind the text so far, which goes on behind the memory's end and so tells how long the whole is.
#[derive(Drop)]
struct Page<'a> {
    buf: &'a mut [u8],
    at: usize,
}

impl Page<'_> {
    fn byte(&mut self, b: u8)
        ensures { Printed self.old (b ∷ []) self.new }
    {
        self.at = text::byte(self.buf, self.at, b);
    }

    fn bytes(&mut self, s: &[u8])
        ensures { Printed self.old s.now self.new }
    {
        self.at = text::bytes(self.buf, self.at, s);
    }

    fn decimal(&mut self, n: u64)
        ensures { Printed self.old (decimal_of n) self.new }
    {
        self.at = text::decimal(self.buf, self.at, n);
    }

    fn signed(&mut self, n: i64)
        ensures { Printed self.old (signed_of n) self.new }
    {
        self.at = text::signed(self.buf, self.at, n);
    }

    fn ticker(&mut self, t: [u8; 11])
        ensures { Printed self.old (ticker_of t) self.new }
    {
        self.at = text::ticker(self.buf, self.at, t);
    }

    fn line(&mut self, key: &[u8], n: u64)
        ensures { Printed self.old (line_of key.now (decimal_of n)) self.new }
    {
        self.at = text::line(self.buf, self.at, key, n);
    }

    fn recording_line(&mut self, word: Recording)
        ensures { Printed self.old (line_of recording_key (recording_word word)) self.new }
    {
        match word {
            Recording::Whole => self.bytes(b"recording=whole\n"),
            Recording::Cut => self.bytes(b"recording=cut\n"),
        }
    }

    // The lines of the state, and that its stop is a machine's number: the length of the sheet is told by one.
    fn head(&mut self, word: Recording, bad: u64, state: State)
        ensures { Printed self.old (text_of (head_lines word bad state)) self.new × (state.stop < 2 ^ 8) }
    {
        self.recording_line(word);
        self.line(b"bad=", bad);
        self.line(b"next=", state.next);
        self.line(b"stop=", state.stop as u64);
    }

    // The second, and how much the tables hold; and that the second is a machine's number.
    fn table_lines(&mut self, second: u32, sizes: Sizes)
        ensures { Printed self.old (text_of (table_lines second sizes.symbols sizes.orders)) self.new × (second < 2 ^ 32) }
    {
        self.line(b"second=", second as u64);
        self.line(b"symbols=", sizes.symbols as u64);
        self.line(b"orders=", sizes.orders as u64);
    }

    // A number and the byte behind it.
    fn number(&mut self, n: u64, mark: u8)
        ensures { Printed self.old (marked_of n mark) self.new }
    {
        self.decimal(n);
        self.byte(mark);
    }

    fn level_line(&mut self, key: &[u8], l: Level)
        ensures { Printed self.old (line_of key.now (level_value l)) self.new }
    {
        self.bytes(key);
        self.number(l.price, b' ');
        self.number(l.shares, b' ');
        self.number(l.orders, b'\n');
    }

    // The first n levels of a run.
    fn levels(&mut self, key: &[u8], run: &[u64], n: usize)
        requires { 3 * n ≤ length run.now }
        ensures { Printed self.old (first_texts (λ i. line_of key.now (level_value (level_at run.now i))) n) self.new }
    {
        for i in 0..n {
            self.level_line(key, level_in(run, i));
        }
    }

    // The levels of a symbol and side, under the side's key, for a caller that knows the symbol.
    fn side_lines(&mut self, t: &Tables<'_>, id: u32, side: Side)
        requires { view_fault id t.now.orders.now t.now.symbols.now ≡ 0 }
        ensures { Printed self.old (text_of (side_lines side id (rows t.now.orders.now))) self.new }
    {
        let mut run = [0u64; RUN_SIZE];
        let n = views::ladder(t.orders, t.symbols, id, side, &mut run).unwrap();
        self.levels(side_key(side), &run, n.min(LEVELS_SHOWN));
    }

    fn spread_word(&mut self, spread: Option<i64>)
        ensures { Printed self.old (spread_word spread) self.new }
    {
        match spread {
            Some(z) => self.signed(z),
            None => self.bytes(b"none"),
        }
    }

    fn spread_line(&mut self, spread: Option<i64>)
        ensures { Printed self.old (line_of spread_key (spread_word spread)) self.new }
    {
        self.bytes(b"spread=");
        self.spread_word(spread);
        self.byte(b'\n');
    }

    // The spread and both sides of a symbol, for a caller that knows it.
    fn book_lines(&mut self, t: &Tables<'_>, id: u32)
        requires { view_fault id t.now.orders.now t.now.symbols.now ≡ 0 }
        ensures { Printed self.old (text_of (book_lines id (rows t.now.orders.now))) self.new }
    {
        self.spread_line(views::spread(t.orders, t.symbols, id).unwrap());
        self.side_lines(t, id, Side::Buy);
        self.side_lines(t, id, Side::Sell);
    }

    fn ticker_line(&mut self, t: [u8; 11])
        ensures { Printed self.old (line_of ticker_key (ticker_of t)) self.new }
    {
        self.bytes(b"ticker=");
        self.ticker(t);
        self.byte(b'\n');
    }

    // The Security Type, where there is one: on a sheet of 1.3 alone.
    fn type_lines(&mut self, y: Option<u8>)
        ensures { Printed self.old (text_of (type_lines y)) self.new }
    {
        if let Some(x) = y {
            self.bytes(b"type=");
            self.byte(text::shown(x));
            self.byte(b'\n');
        }
    }

    fn symbol_lines(&mut self, y: Option<u8>, s: Symbol)
        ensures { Printed self.old (text_of (symbol_lines y s)) self.new }
    {
        self.line(b"symbol=", s.id as u64);
        self.ticker_line(s.ticker);
        self.type_lines(y);
        self.line(b"lot=", s.lot as u64);
    }

    // The lines of entry i; none where it is not in use.
    fn entry_lines(&mut self, e: Edition, t: &Tables<'_>, i: usize)
        ensures { Printed self.old (text_of (entry_lines e (rows t.now.orders.now) (get_or (entries t.now.symbols.now) i []))) self.new }
    {
        if symbols::is_used_at(t.symbols, i) {
            let s = symbols::entry_at(t.symbols, i);
            self.symbol_lines(security_at(e, t.symbols, i), s);
            self.book_lines(t, s.id);
        }
    }

    fn all_entries(&mut self, e: Edition, t: &Tables<'_>)
        ensures { Printed self.old (text_of (all_entries e t.now.orders.now t.now.symbols.now)) self.new }
    {
        for i in 0..symbols::entry_count(t.symbols) {
            self.entry_lines(e, t, i);
        }
    }

    fn all_lines(&mut self, t: &Tables<'_>, state: State, bad: u64, word: Recording)
        ensures { Printed self.old (sheet_of word bad state t.now.orders.now t.now.symbols.now) self.new × (state.stop < 2 ^ 8) × (state.clock.second < 2 ^ 32) }
    {
        self.head(word, bad, state);
        self.table_lines(state.clock.second, t.sizes);
        self.all_entries(state.edition, t);
    }
}

// The sheet of a receiver of any state with any tables, its bad count and the recording's word; it is one of the state's edition.
pub fn sheet(
    buf: &mut [u8],
    orders: &[u64],
    symbols: &[u8],
    state: State,
    bad: u64,
    word: Recording,
) -> Result<usize, Refusal>
    ensures { sheet_and result buf.new ≡ sheet_view word bad state orders.now symbols.now buf.old }
{
    let sizes = views::counts(orders, symbols)?;
    if !receiver::next_ok(state.next) {
        return Err(Refusal { number: 6 });
    }
    let tables = Tables {
        orders,
        symbols,
        sizes,
    };
    let mut page = Page { buf, at: 0 };
    page.all_lines(&tables, state, bad, word);
    Ok(page.at)
}
