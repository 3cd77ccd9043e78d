// The symbol table: entries of 42 bytes, each a Symbol Update body. Each function answers for any table, any place and any body;
// only `whole_entries` and `put_entry` know where an entry lies.
#![tactic(auto)]

ghost use Rattle.std.specs.Prelude.{◌≡◌, ◌<◌, length, get_or, []};
ghost use Rattle.fields.specs.Fields.{symbol_of};
ghost use Rattle.symbols.specs.Entries.{good_entries, entries, put_entry, used, free_entry};
ghost use Rattle.symbols.specs.Find.{is_symbol, find_symbol, find_free_entry, known_symbol, place_for, count_used};
ghost use Rattle.symbols.specs.Work.{entered};

use fields::Symbol;
use wire::Number;

// The type byte of an entry in use.
const USED: u8 = 1;

// The type byte of a free entry.
const FREE: u8 = 0;

// A table of n bytes holds whole entries, and as many as it may.
#[tactic(auto, unfolding(crate::specs::Entries::good_entries, facts::specs::Pick::both))]
pub fn good_entries(n: usize) -> bool
    ensures { result ≡ good_entries n }
{
    n % facts::ENTRY_SIZE == 0 && (1..=facts::MOST_ENTRIES).contains(&(n / facts::ENTRY_SIZE))
}

// The bytes of each entry; bytes behind the last whole entry are none.
fn whole_entries(t: &[u8]) -> &[[u8; facts::ENTRY_SIZE]]
    ensures { result.now ≡ entries t.now }
{
    t.as_chunks().0
}

pub fn entry_count(t: &[u8]) -> usize
    ensures { result ≡ length (entries t.now) }
{
    whole_entries(t).len()
}

// The bytes of entry i; none where there is no such entry.
pub fn entry_bytes(t: &[u8], i: usize) -> &[u8]
    ensures { result.now ≡ get_or (entries t.now) i [] }
{
    match whole_entries(t).get(i) {
        Some(e) => e,
        None => &[],
    }
}

pub fn entry_at(t: &[u8], i: usize) -> Symbol
    ensures { result ≡ symbol_of (get_or (entries t.now) i []) }
{
    fields::symbol_of(entry_bytes(t, i))
}

#[tactic(auto, unfolding(crate::specs::Entries::used))]
fn is_used(e: &[u8]) -> bool
    ensures { result ≡ used e.now }
{
    u8::at(e, 0) == USED
}

#[tactic(auto, unfolding(crate::specs::Entries::free_entry))]
fn is_free(e: &[u8]) -> bool
    ensures { result ≡ free_entry e.now }
{
    u8::at(e, 0) == FREE
}

#[tactic(auto, unfolding(crate::specs::Find::is_symbol, facts::specs::Pick::both))]
fn is_symbol(e: &[u8], id: u32) -> bool
    ensures { result ≡ is_symbol id e.now }
{
    is_used(e) && u32::at(e, 5) == id
}

pub fn is_used_at(t: &[u8], i: usize) -> bool
    ensures { result ≡ used (get_or (entries t.now) i []) }
{
    is_used(entry_bytes(t, i))
}

pub fn is_symbol_at(t: &[u8], i: usize, id: u32) -> bool
    ensures { result ≡ is_symbol id (get_or (entries t.now) i []) }
{
    is_symbol(entry_bytes(t, i), id)
}

pub fn find_symbol(t: &[u8], id: u32) -> Option<usize>
    ensures { result ≡ find_symbol id (entries t.now) }
{
    whole_entries(t).iter().position(|e| is_symbol(e, id))
}

fn find_free_entry(t: &[u8]) -> Option<usize>
    ensures { result ≡ find_free_entry (entries t.now) }
{
    whole_entries(t).iter().position(|e| is_free(e))
}

#[tactic(auto, unfolding(crate::specs::Find::known_symbol))]
pub fn known(t: &[u8], id: u32) -> bool
    ensures { result ≡ known_symbol id (entries t.now) }
{
    find_symbol(t, id).is_some()
}

#[tactic(auto, unfolding(crate::specs::Find::place_for))]
pub fn find_place(t: &[u8], id: u32) -> Option<usize>
    ensures { result ≡ place_for id (entries t.now) }
{
    find_symbol(t, id).or_else(|| find_free_entry(t))
}

fn put_entry(t: &mut [u8], i: usize, body: &[u8])
    ensures { t.new ≡ put_entry t.old i body.now }
{
    if i < entry_count(t) {
        let b = facts::ENTRY_SIZE * i;
        wire::copy_at(body, 0, &mut t[b..b + facts::ENTRY_SIZE]);
    }
}

// The one function that changes the symbol table.
#[tactic(auto, unfolding(crate::specs::Work::entered))]
pub fn commit(t: &mut [u8], w: Option<usize>, body: &[u8])
    ensures { t.new ≡ entered w body.now t.old }
{
    if let Some(i) = w {
        put_entry(t, i, body);
    }
}

pub fn count_used(t: &[u8]) -> usize
    ensures { result ≡ count_used (entries t.now) }
{
    let mut count = 0;
    for e in whole_entries(t) {
        if is_used(e) {
            count += 1;
        }
    }
    count
}
