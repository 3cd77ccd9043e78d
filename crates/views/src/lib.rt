// Views of the book: the price ladder, the signed spread and the counts. Each answers for any tables, any symbol and any run.
#![tactic(auto)]

ghost use Rattle.std.specs.Prelude.{◌≡◌, true, ◌≤◌, length, pos, ◌-ℤ◌};
ghost use Rattle.facts.specs.Limits.{most_price};
ghost use Rattle.rows.specs.Rows.{rows, good_rows};
ghost use Rattle.views.specs.Ladder.{key_of, far, at_price, level_of, put_level, laid_out, ladder_run};
ghost use Rattle.views.specs.Nearest.{place_from, nearest};
ghost use Rattle.views.specs.Spread.{spread_of};
ghost use Rattle.views.specs.Views.{good_tables, viewable, ladder_out, ladder_view, spread_view, counts_view};

use fields::Refusal;
use rows::Row;

// By document 01's numbers.
#[derive(Clone, Copy, Debug, PartialEq, Eq)]
pub enum Side {
    Buy = 0,
    Sell = 1,
}

#[derive(Clone, Copy, Debug, PartialEq, Eq)]
pub struct Level {
    pub price: u64,
    pub shares: u64,
    pub orders: u64,
}

// Live orders and used entries.
#[derive(Clone, Copy, Debug, PartialEq, Eq)]
pub struct Sizes {
    pub orders: usize,
    pub symbols: usize,
}

#[tactic(auto, unfolding(crate::specs::Ladder::key_of))]
pub fn key_of(symbol: u32, side: Side) -> u64
    ensures { result ≡ key_of side symbol }
{
    rows::key_for(symbol, side as u8)
}

// How far a price lies from the best that there can be, and the price that lies so far.
#[tactic(auto, unfolding(crate::specs::Ladder::far, facts::specs::Pick::pick))]
fn far_of(key: u64, price: u64) -> u64
    requires { price ≤ most_price }
    ensures { result ≡ far key price }
{
    if rows::side_in(key) == 0 {
        facts::MOST_PRICE - price
    } else {
        price
    }
}

// Where a row lies, if it is the key's and lies not below low.
#[tactic(auto, unfolding(crate::specs::Nearest::place_from, facts::specs::Pick::pick))]
fn place_from(r: Row, key: u64, low: u64) -> Option<u64>
    ensures { result ≡ place_from key low r }
{
    if !rows::of_key(r, key) {
        return None;
    }
    let d = far_of(key, r.price);
    (low <= d).then_some(d)
}

// The nearest place, not below low, where the key has an order. Until the rows end a number beyond every place stands for none: an Option asked again
// at each row took a quarter longer.
fn nearest(t: &[u64], key: u64, low: u64) -> Option<u64>
    ensures { result ≡ nearest key low (rows t.now) }
{
    let mut best = u64::MAX;
    for i in 0..rows::row_count(t) {
        if let Some(d) = place_from(rows::row_at(t, i), key, low) {
            best = best.min(d);
        }
    }
    (best <= facts::MOST_PRICE).then_some(best)
}

#[tactic(auto, unfolding(crate::specs::Ladder::at_price, facts::specs::Pick::both))]
fn at_price(r: Row, key: u64, price: u64) -> bool
    ensures { result ≡ at_price key price r }
{
    rows::of_key(r, key) && r.price == price
}

// The level of the key at a price; a table of good size keeps the sums within 64 bits.
fn level_at(t: &[u64], key: u64, price: u64) -> Level
    requires { good_rows (length t.now) ≡ true }
    ensures { result ≡ level_of key (rows t.now) price }
{
    let mut level = Level {
        price,
        shares: 0,
        orders: 0,
    };
    for i in 0..rows::row_count(t) {
        let r = rows::row_at(t, i);
        if at_price(r, key, price) {
            level.shares += r.size;
            level.orders += 1;
        }
    }
    level
}

// Three numbers from 3 * j on, or none.
fn put_level(out: &mut [u64], j: usize, l: Level)
    ensures { out.new ≡ put_level out.old j l }
{
    if j < out.len() / 3 {
        let b = 3 * j;
        out[b..b + 3].copy_from_slice(&[l.price, l.shares, l.orders]);
    }
}

// The ladder of a key, for a caller that knows its symbol. Levels times rows steps, and no memory but the run.
fn ladder_of(orders: &[u64], key: u64, out: &mut [u64]) -> usize
    ensures { laid_out result out.new ≡ ladder_run key orders.now out.old }
{
    if !rows::good_rows(orders.len()) {
        return 0;
    }
    let mut j = 0;
    let mut low = 0;
    while let Some(d) = nearest(orders, key, low) {
        put_level(out, j, level_at(orders, key, far_of(key, d)));
        j += 1;
        low = d + 1;
    }
    j
}

// What is left of two prices, signed.
fn minus(a: u64, b: u64) -> i64
    requires { (a ≤ most_price) × (b ≤ most_price) }
    ensures { result ≡ pos a -ℤ pos b }
{
    (a as i64) - (b as i64)
}

// The spread of a symbol, for a caller that knows it; none where a side is empty.
fn spread_of(orders: &[u64], symbol: u32) -> Option<i64>
    ensures { result ≡ spread_of symbol (rows orders.now) }
{
    let bid = nearest(orders, key_of(symbol, Side::Buy), 0)?;
    let offer = nearest(orders, key_of(symbol, Side::Sell), 0)?;
    Some(minus(offer, facts::MOST_PRICE - bid))
}

#[tactic(auto, unfolding(crate::specs::Views::good_tables, facts::specs::Pick::both))]
fn good_tables(orders: &[u64], symbols: &[u8]) -> bool
    ensures { result ≡ good_tables orders.now symbols.now }
{
    rows::good_rows(orders.len()) && symbols::good_entries(symbols.len())
}

// The refusal of a view of a symbol, where there is one.
#[tactic(auto, unfolding(crate::specs::Views::viewable, crate::specs::Views::view_fault, facts::specs::Pick::pick))]
pub fn viewable(orders: &[u64], symbols: &[u8], symbol: u32) -> Result<(), Refusal>
    ensures { result ≡ viewable symbol orders.now symbols.now }
{
    if !good_tables(orders, symbols) {
        return Err(Refusal { number: 6 });
    }
    if !symbols::known(symbols, symbol) {
        return Err(Refusal { number: 30 });
    }
    Ok(())
}

// The price levels of a symbol and side, into the lent run while a whole level fits.
pub fn ladder(
    orders: &[u64],
    symbols: &[u8],
    symbol: u32,
    side: Side,
    out: &mut [u64],
) -> Result<usize, Refusal>
    ensures { ladder_out result out.new ≡ ladder_view side symbol orders.now symbols.now out.old }
{
    viewable(orders, symbols, symbol)?;
    Ok(ladder_of(orders, key_of(symbol, side), out))
}

// Best offer less best bid of a symbol, in millionths of a dollar.
pub fn spread(orders: &[u64], symbols: &[u8], symbol: u32) -> Result<Option<i64>, Refusal>
    ensures { result ≡ spread_view symbol orders.now symbols.now }
{
    viewable(orders, symbols, symbol)?;
    Ok(spread_of(orders, symbol))
}

// How many orders are live and how many entries in use.
#[tactic(auto, unfolding(crate::specs::Views::counts_view, facts::specs::Pick::pick))]
pub fn counts(orders: &[u64], symbols: &[u8]) -> Result<Sizes, Refusal>
    ensures { result ≡ counts_view orders.now symbols.now }
{
    if !good_tables(orders, symbols) {
        return Err(Refusal { number: 6 });
    }
    Ok(Sizes {
        orders: rows::count_live(orders),
        symbols: symbols::count_used(symbols),
    })
}
