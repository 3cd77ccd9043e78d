// What is done with the order table: nothing, one row put, or every live row of a symbol made free; and what becomes of a row. What a
// message wants done is planned above. Each function answers for a table of any length and content.
#![tactic(auto)]

ghost use Rattle.std.specs.Prelude.{◌≡◌, get_or};
ghost use Rattle.rows.specs.Rows.{rows, put_row, zero_row};
ghost use Rattle.orders.specs.Work.{moves, remade, reduced, wiped, cleared, committed};

use rows::Row;

// The work of a message on the order table: a row at its place, or the symbol whose rows go.
#[derive(Clone, Copy, PartialEq, Eq, Debug)]
pub enum RowWork {
    Keep,
    Put(usize, Row),
    Clear(u32),
}

// Bit 0 of a Modify's flags.
#[tactic(auto, unfolding(crate::specs::Work::moves))]
pub fn loses_place(flags: u8) -> bool
    ensures { result ≡ moves flags }
{
    flags % 2 == 1
}

// Whoever moves to the back takes the sequence number as rank.
#[tactic(auto, unfolding(crate::specs::Work::remade, facts::specs::Pick::pick))]
pub fn remake(old: Row, price: u64, size: u64, moved: bool, number: u64) -> Row
    ensures { result ≡ remade price size moved number old }
{
    Row {
        price,
        size,
        rank: if moved { number } else { old.rank },
        ..old
    }
}

// The row with n shares fewer; at zero the order leaves.
#[tactic(auto, unfolding(crate::specs::Work::reduced, facts::specs::Pick::pick))]
pub fn reduce(r: Row, n: u64) -> Row
    ensures { result ≡ reduced n r }
{
    let size = r.size.saturating_sub(n);
    if size == 0 {
        rows::zero_row()
    } else {
        Row { size, ..r }
    }
}

fn wipe(t: &mut [u64], i: usize, symbol: u64)
    ensures { t.new ≡ put_row t.old i (wiped symbol (get_or (rows t.old) i zero_row)) }
{
    if rows::of_symbol(rows::row_at(t, i), symbol) {
        rows::put_row(t, i, rows::zero_row());
    }
}

fn clear(t: &mut [u64], symbol: u64)
    ensures { t.new ≡ cleared symbol t.old }
{
    for i in 0..rows::row_count(t) {
        wipe(t, i, symbol);
    }
}

// The one function that changes the order table.
#[tactic(auto, unfolding(crate::specs::Work::committed))]
pub fn commit(t: &mut [u64], w: RowWork)
    ensures { t.new ≡ committed w t.old }
{
    match w {
        RowWork::Keep => {}
        RowWork::Put(i, r) => rows::put_row(t, i, r),
        RowWork::Clear(symbol) => clear(t, u64::from(symbol)),
    }
}
