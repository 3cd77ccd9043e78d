// The searches of a message, through the index or, where none is lent, row by row and entry by entry; and what a message's work leaves of the index.
// Each function answers for tables and an index of any length and content.
#![tactic(auto)]

ghost use Rattle.std.specs.Prelude.{◌≡◌};
ghost use Rattle.rows.specs.Rows.{rows};
ghost use Rattle.symbols.specs.Entries.{entries};
ghost use Rattle.index.specs.Index.{each_row};
ghost use Rattle.engines.specs.Engines.{good_index, order_by, free_by, hinted, entry_by, put_noted, left, noted, hinted_to};

use orders::RowWork;
use rows::Row;
use wire::Number;

// No index, or one of the stated size.
#[tactic(auto, unfolding(crate::specs::Engines::good_index, facts::specs::Pick::either))]
pub fn good_index(n: usize) -> bool
    ensures { result ≡ good_index n }
{
    n == 0 || n == index::INDEX_SIZE
}

#[tactic(auto, unfolding(crate::specs::Engines::order_by, facts::specs::Pick::pick))]
#[inline(always)]
pub fn find_order(t: &[u64], ix: &[u64], id: u64) -> Option<usize>
    ensures { result ≡ order_by ix.now id (rows t.now) }
{
    if ix.is_empty() {
        rows::find_order(t, id)
    } else {
        index::find(t, ix, id)
    }
}

#[tactic(auto, unfolding(crate::specs::Engines::free_by, facts::specs::Pick::pick))]
#[inline(always)]
pub fn find_free(t: &[u64], ix: &[u64]) -> Option<usize>
    ensures { result ≡ free_by ix.now (rows t.now) }
{
    if ix.is_empty() {
        rows::find_free(t)
    } else {
        index::lowest_free(t, ix)
    }
}

// A hint is tested, and the whole table is searched where it names no entry of the symbol.
#[tactic(auto, unfolding(crate::specs::Engines::hinted, facts::specs::Pick::pick))]
fn follow_hint(symbols: &[u8], ix: &[u64], id: u32) -> Option<usize>
    ensures { result ≡ hinted ix.now id (entries symbols.now) }
{
    let i = index::hint(ix, id);
    if symbols::is_symbol_at(symbols, i, id) {
        Some(i)
    } else {
        symbols::find_symbol(symbols, id)
    }
}

#[tactic(auto, unfolding(crate::specs::Engines::entry_by, facts::specs::Pick::pick))]
pub fn find_entry(symbols: &[u8], ix: &[u64], id: u32) -> Option<usize>
    ensures { result ≡ entry_by ix.now id (entries symbols.now) }
{
    if ix.is_empty() {
        symbols::find_symbol(symbols, id)
    } else {
        follow_hint(symbols, ix, id)
    }
}

// Row i is about to become r.
#[tactic(auto, unfolding(crate::specs::Engines::put_noted, facts::specs::Pick::pick))]
fn note_put(t: &[u64], ix: &mut [u64], i: usize, r: Row)
    ensures { ix.new ≡ put_noted i r (rows t.now) ix.old }
{
    match (rows::is_free(rows::row_at(t, i)), rows::is_free(r)) {
        (true, false) => index::come(t, ix, r.order, i),
        (false, true) => index::gone(ix, i),
        _ => {}
    }
}

// A row of the symbol leaves.
#[tactic(auto, unfolding(crate::specs::Engines::left, facts::specs::Pick::pick))]
fn note_row(ix: &mut [u64], r: Row, i: usize, symbol: u64)
    ensures { ix.new ≡ left symbol ix.old r i }
{
    if rows::of_symbol(r, symbol) {
        index::gone(ix, i);
    }
}

// Every live row of the symbol leaves.
fn note_clear(t: &[u64], ix: &mut [u64], symbol: u64)
    ensures { ix.new ≡ each_row (left symbol) 0 (rows t.now) ix.old }
{
    for i in 0..rows::row_count(t) {
        note_row(ix, rows::row_at(t, i), i, symbol);
    }
}

// What the work that is about to be done on the order table leaves of the index.
pub fn note(t: &[u64], ix: &mut [u64], w: RowWork)
    ensures { ix.new ≡ noted w (rows t.now) ix.old }
{
    if ix.is_empty() {
        return;
    }
    match w {
        RowWork::Keep => {}
        RowWork::Put(i, r) => note_put(t, ix, i, r),
        RowWork::Clear(symbol) => note_clear(t, ix, u64::from(symbol)),
    }
}

// What the work on the symbol table leaves of it.
#[tactic(auto, unfolding(crate::specs::Engines::hinted_to))]
pub fn note_entry(ix: &mut [u64], w: Option<usize>, body: &[u8])
    ensures { ix.new ≡ hinted_to w body.now ix.old }
{
    if let Some(i) = w {
        index::put_hint(ix, u32::at(body, 5), i);
    }
}
