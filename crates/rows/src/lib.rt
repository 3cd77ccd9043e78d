// The order table: five numbers to a row. Each function answers for any table, any place and any row; only
// `whole_rows` and `put_row` know where a row lies.
#![tactic(auto)]

ghost use Rattle.std.specs.Prelude.{◌≡◌, length, get_or, drop, map, replicate};
ghost use Rattle.facts.specs.Search.{first};
ghost use Rattle.rows.specs.Keys.{key_for, symbol_in, side_in, side_of};
ghost use Rattle.rows.specs.Rows.{row_of, numbers_of, rows, row_count, put_row, zero_row, free, live, good_rows};
ghost use Rattle.rows.specs.Find.{is_order, find_order, find_free, held_at, of_symbol, of_key, count_live};

// "five to a row"
pub const ROW_SIZE: usize = 5;

// key: the symbol and the side, by `key_for`.
#[derive(Clone, Copy, Default, PartialEq, Eq, Debug)]
pub struct Row {
    pub order: u64,
    pub key: u64,
    pub price: u64,
    pub size: u64,
    pub rank: u64,
}

// The row that five numbers are.
impl From<[u64; ROW_SIZE]> for Row {
    ghost from_gives = { λ x r. r ≡ row_of x };

    #[tactic(auto, unfolding(crate::specs::Rows::row_of))]
    fn from([order, key, price, size, rank]: [u64; ROW_SIZE]) -> Row {
        Row {
            order,
            key,
            price,
            size,
            rank,
        }
    }
}

// The five numbers of a row.
impl From<Row> for [u64; ROW_SIZE] {
    ghost from_gives = { λ r x. x ≡ numbers_of r };

    #[tactic(auto, unfolding(crate::specs::Rows::numbers_of))]
    fn from(r: Row) -> [u64; ROW_SIZE] {
        [r.order, r.key, r.price, r.size, r.rank]
    }
}

// The symbol ID times 2 plus the side, buy 0 and sell 1.
pub fn key_for(symbol: u32, side: u8) -> u64
    ensures { result ≡ key_for symbol side }
{
    u64::from(symbol) * 2 + u64::from(side)
}

pub fn symbol_in(key: u64) -> u64
    ensures { result ≡ symbol_in key }
{
    key / 2
}

pub fn side_in(key: u64) -> u64
    ensures { result ≡ side_in key }
{
    key % 2
}

// The side that a message's letter tells.
#[tactic(auto, unfolding(crate::specs::Keys::side_of, facts::specs::Pick::pick))]
pub fn side_of(letter: u8) -> u8
    ensures { result ≡ side_of letter }
{
    if letter == b'B' { 0 } else { 1 }
}

#[tactic(auto, unfolding(crate::specs::Rows::zero_row))]
pub fn zero_row() -> Row
    ensures { result ≡ zero_row }
{
    Row::default()
}

pub fn row_count(t: &[u64]) -> usize
    ensures { result ≡ row_count t.now }
{
    t.len() / ROW_SIZE
}

// The numbers of each row; numbers behind the last whole row are none.
fn whole_rows(t: &[u64]) -> &[[u64; ROW_SIZE]]
    ensures { map row_of result.now ≡ rows t.now }
{
    t.as_chunks().0
}

pub fn row_at(t: &[u64], i: usize) -> Row
    ensures { result ≡ get_or (rows t.now) i zero_row }
{
    whole_rows(t).get(i).map_or(zero_row(), |x| Row::from(*x))
}

pub fn put_row(t: &mut [u64], i: usize, r: Row)
    ensures { t.new ≡ put_row t.old i r }
{
    if i < row_count(t) {
        let b = ROW_SIZE * i;
        t[b..b + ROW_SIZE].copy_from_slice(&<[u64; ROW_SIZE]>::from(r));
    }
}

// The rank first: it tells a live row at once.
#[tactic(auto, unfolding(crate::specs::Rows::free, facts::specs::Pick::both))]
pub fn is_free(r: Row) -> bool
    ensures { result ≡ free r }
{
    r.rank == 0 && r.order == 0 && r.key == 0 && r.price == 0 && r.size == 0
}

#[tactic(auto, unfolding(crate::specs::Rows::live, facts::specs::Pick::both))]
pub fn is_live(r: Row) -> bool
    ensures { result ≡ live r }
{
    1 <= r.rank
        && symbol_in(r.key) <= 4_294_967_295
        && 1 <= r.price
        && r.price <= facts::MOST_PRICE
        && 1 <= r.size
        && r.size <= 4_294_967_295
}

#[tactic(auto, unfolding(crate::specs::Find::is_order, facts::specs::Pick::both))]
pub fn is_order(r: Row, id: u64) -> bool
    ensures { result ≡ is_order id r }
{
    r.order == id && is_live(r)
}

#[tactic(auto, unfolding(crate::specs::Find::of_symbol, facts::specs::Pick::both))]
pub fn of_symbol(r: Row, symbol: u64) -> bool
    ensures { result ≡ of_symbol symbol r }
{
    symbol_in(r.key) == symbol && is_live(r)
}

#[tactic(auto, unfolding(crate::specs::Find::of_key, facts::specs::Pick::both))]
pub fn of_key(r: Row, key: u64) -> bool
    ensures { result ≡ of_key key r }
{
    r.key == key && is_live(r)
}

// A table of n numbers holds whole rows, and as many as it may.
#[tactic(auto, unfolding(crate::specs::Rows::good_rows, facts::specs::Pick::both))]
pub fn good_rows(n: usize) -> bool
    ensures { result ≡ good_rows n }
{
    n % ROW_SIZE == 0 && (1..=facts::MOST_ROWS).contains(&(n / ROW_SIZE))
}

pub fn find_order(t: &[u64], id: u64) -> Option<usize>
    ensures { result ≡ find_order id (rows t.now) }
{
    whole_rows(t)
        .iter()
        .position(|x| is_order(Row::from(*x), id))
}

// The lowest free row from row s on. A walk by place reads of most rows the rank alone, where one over `whole_rows` reads all five numbers.
pub fn free_from(t: &[u64], s: usize) -> Option<usize>
    ensures { result ≡ first free s (drop s (rows t.now)) }
{
    for i in s..row_count(t) {
        if is_free(row_at(t, i)) {
            return Some(i);
        }
    }
    None
}

#[tactic(auto, unfolding(crate::specs::Find::find_free))]
pub fn find_free(t: &[u64]) -> Option<usize>
    ensures { result ≡ find_free (rows t.now) }
{
    free_from(t, 0)
}

// The row that a search ended at, whichever search it was.
#[tactic(auto, unfolding(crate::specs::Find::held_at))]
pub fn held_at(t: &[u64], at: Option<usize>) -> Option<(usize, Row)>
    ensures { result ≡ held_at at (rows t.now) }
{
    at.map(|i| (i, row_at(t, i)))
}

// Every number of a table of any length.
pub fn wipe_rows(t: &mut [u64])
    ensures { t.new ≡ replicate (length t.old) 0 }
{
    t.fill(0);
}

// A free row is passed by its rank alone. `filter` and `count` took half as long again where most rows are live, and a loop without the first test
// reads every number of every row, which takes twice as long where most are free.
pub fn count_live(t: &[u64]) -> usize
    ensures { result ≡ count_live (rows t.now) }
{
    let mut count = 0;
    for x in whole_rows(t) {
        let r = Row::from(*x);
        if r.rank == 0 {
            continue;
        }
        if is_live(r) {
            count += 1;
        }
    }
    count
}
