// An index of the order table in further lent memory (docs/INDEX.md): 32,768 slots, how many of them were used, the free rows of each block of 64 rows,
// and hints of symbols.
// Each function answers for any memory and any table. A slot is filled once and stays until the next rebuild: what it names is tested at each search.
#![tactic(auto)]

ghost use Rattle.std.specs.Prelude.{◌-◌, ◌≤◌, ◌≡◌, ◌==◌, get_or, set};
ghost use Rattle.std.specs.List.{list_all};
ghost use Rattle.rows.specs.Rows.{rows};
ghost use Rattle.index.specs.Index.{slots, blocks, tag_of, hash, packed, fits, looked, WalkEnds, vacant, placed, taken, freed, block_from, lowest_free, entered, each_row, front, zeroed, built, roomy, came, hint_at, hint_of};

use rows::Row;

// How many numbers an index has, hints included.
pub const INDEX_SIZE: usize = 49_403;

// Slots.
const SLOTS: usize = 32_768;

// Where the number of used slots stands.
const USED: usize = 32_768;

// Where the counts of free rows begin, and how many there are.
const COUNTS: usize = 32_769;

const BLOCKS: usize = 250;

// Where the hints of symbols begin.
const HINTS: usize = 33_019;

// Used slots from which on an index is built anew.
const FULL: u64 = 24_576;

// One number of the memory; none counts as 0.
fn word(ix: &[u64], p: usize) -> u64
    ensures { result ≡ get_or ix.now p 0 }
{
    ix.get(p).copied().unwrap_or(0)
}

fn put_word(ix: &mut [u64], p: usize, v: u64)
    ensures { ix.new ≡ set ix.old p v }
{
    if p < ix.len() {
        ix[p] = v;
    }
}

// Where the search for an order ID begins.
#[tactic(auto, unfolding(crate::specs::Index::hash))]
fn start_of(id: u64) -> usize
    ensures { result ≡ hash id }
{
    let folded = (id % 4294967296 + id / 4294967296) % 4294967296;
    (folded * 2654435769 / 131072 % 32768) as usize
}

// What of an order ID stands in a slot.
#[tactic(auto, unfolding(crate::specs::Index::tag_of))]
fn tag_of(id: u64) -> u64
    ensures { result ≡ tag_of id }
{
    id % 140737488355328 + 1
}

#[tactic(auto, unfolding(crate::specs::Index::packed, crate::specs::Index::tag_of))]
fn pack(id: u64, i: usize) -> u64
    ensures { result ≡ packed id i }
{
    tag_of(id) * 65536 + (i % 65536) as u64
}

// The slot's row is the live one of this ID; another tag is seen without a look at the table.
#[tactic(auto, unfolding(crate::specs::Index::fits, facts::specs::Pick::both))]
fn is_row(t: &[u64], s: u64, id: u64) -> bool
    ensures { result ≡ fits id (rows t.now) s }
{
    s / 65536 == tag_of(id) && rows::is_order(rows::row_at(t, (s % 65536) as usize), id)
}

// The first slot of an order ID that a test passes: from its own on, the first after the last.
fn first_slot<F: Fn(u64) -> bool>(ix: &[u64], id: u64, passes: F) -> Option<usize>
    requires { F.IsAlwaysCallable passes }
    ensures { WalkEnds (F.post passes) slots ix.now (hash id) result }
{
    let start = start_of(id);
    for n in 0..SLOTS {
        let p = (start + n) % SLOTS;
        if passes(word(ix, p)) {
            return Some(p);
        }
    }
    None
}

// An empty slot ends the search.
pub fn find(t: &[u64], ix: &[u64], id: u64) -> Option<usize>
    ensures { result ≡ looked ix.now (rows t.now) id }
{
    let p = first_slot(ix, id, |s| s == 0 || is_row(t, s, id))?;
    let s = word(ix, p);
    if s == 0 {
        None
    } else {
        Some((s % 65536) as usize)
    }
}

// The first empty slot for an order ID.
fn find_vacant(ix: &[u64], id: u64) -> Option<usize>
    ensures { result ≡ vacant slots ix.now (hash id) }
{
    first_slot(ix, id, |s| s == 0)
}

// Row i goes into the first empty slot for its order ID.
#[tactic(auto, unfolding(crate::specs::Index::placed, crate::specs::Index::filled_at, facts::specs::Pick::pick))]
fn place(ix: &mut [u64], id: u64, i: usize)
    ensures { ix.new ≡ placed ix.old id i }
{
    let used = word(ix, USED);
    if used >= 32768 {
        return;
    }
    let Some(p) = find_vacant(ix, id) else {
        return;
    };
    put_word(ix, p, pack(id, i));
    put_word(ix, USED, used + 1);
}

// Row i is free no more.
#[tactic(auto, unfolding(crate::specs::Index::taken, facts::specs::Pick::pick))]
fn take(ix: &mut [u64], i: usize)
    ensures { ix.new ≡ taken ix.old i }
{
    let p = COUNTS + i / 64;
    let n = word(ix, p);
    if n > 0 {
        put_word(ix, p, n - 1);
    }
}

// Row i is free again.
#[tactic(auto, unfolding(crate::specs::Index::freed, facts::specs::Pick::pick))]
pub fn gone(ix: &mut [u64], i: usize)
    ensures { ix.new ≡ freed ix.old i }
{
    let p = COUNTS + i / 64;
    let n = word(ix, p);
    if n < 64 {
        put_word(ix, p, n + 1);
    }
}

// Eight numbers that are all 0: asked at once, without a branch for each.
fn none_in(eight: &[u64; 8]) -> bool
    ensures { result ≡ list_all (λ n. n == 0) eight.now }
{
    eight.iter().fold(0, |all, n| all | *n) == 0
}

// The blocks in front that have no free row, by eights as long as eight are left of the 250: most of a full table have none.
fn skipped(ix: &[u64]) -> usize
    ensures { (result ≤ 250) × (block_from blocks ix.now 0 ≡ block_from (blocks - result) ix.now result) }
{
    let Some(counts) = ix.get(COUNTS..HINTS) else {
        return 0;
    };
    8 * counts
        .as_chunks()
        .0
        .iter()
        .take_while(|eight| none_in(*eight))
        .count()
}

// The first block with a free row.
fn first_block(ix: &[u64]) -> Option<usize>
    ensures { result ≡ block_from blocks ix.now 0 }
{
    for b in skipped(ix)..BLOCKS {
        if word(ix, COUNTS + b) != 0 {
            return Some(b);
        }
    }
    None
}

pub fn lowest_free(t: &[u64], ix: &[u64]) -> Option<usize>
    ensures { result ≡ lowest_free ix.now (rows t.now) }
{
    let b = first_block(ix)?;
    rows::free_from(t, 64 * b)
}

// A live row goes into a slot, a free one into its block's count.
#[tactic(auto, unfolding(crate::specs::Index::entered, facts::specs::Pick::pick))]
fn enter(ix: &mut [u64], r: Row, i: usize)
    ensures { ix.new ≡ entered ix.old r i }
{
    if rows::is_live(r) {
        place(ix, r.order, i);
    } else if rows::is_free(r) {
        gone(ix, i);
    }
}

// Every row in its turn.
fn enter_rows(t: &[u64], ix: &mut [u64])
    ensures { ix.new ≡ each_row entered 0 (rows t.now) ix.old }
{
    for i in 0..rows::row_count(t) {
        enter(ix, rows::row_at(t, i), i);
    }
}

// Everything but the hints becomes 0.
fn empty(ix: &mut [u64])
    ensures { ix.new ≡ zeroed front ix.old }
{
    let end = ix.len().min(HINTS);
    ix[..end].fill(0);
}

// The index of a table, from nothing; hints stay.
#[tactic(auto, unfolding(crate::specs::Index::built))]
pub fn rebuild(t: &[u64], ix: &mut [u64])
    ensures { ix.new ≡ built ix.old (rows t.now) }
{
    empty(ix);
    enter_rows(t, ix);
}

// Room for one order more.
#[tactic(auto, unfolding(crate::specs::Index::roomy, facts::specs::Pick::pick))]
fn make_room(t: &[u64], ix: &mut [u64])
    ensures { ix.new ≡ roomy ix.old (rows t.now) }
{
    if FULL <= word(ix, USED) {
        rebuild(t, ix);
    }
}

// An order comes to row i, which is still free in the table.
#[tactic(auto, unfolding(crate::specs::Index::came))]
pub fn come(t: &[u64], ix: &mut [u64], id: u64, i: usize)
    ensures { ix.new ≡ came ix.old (rows t.now) id i }
{
    make_room(t, ix);
    take(ix, i);
    place(ix, id, i);
}

// The entry that a symbol's hint names.
pub fn hint(ix: &[u64], symbol: u32) -> usize
    ensures { result ≡ hint_of ix.now symbol }
{
    word(ix, HINTS + (symbol % 16384) as usize) as usize
}

// A symbol was put into entry i.
pub fn put_hint(ix: &mut [u64], symbol: u32, i: usize)
    ensures { ix.new ≡ set ix.old (hint_at symbol) i }
{
    put_word(ix, HINTS + (symbol % 16384) as usize, i as u64);
}
