// One message applied to a book, or the rule that it breaks, with nothing changed. A message is planned first: each kind has one function from
// what the searches found to a plan by value. Then the plan is carried out, by one call a table. Every function answers for tables of any length
// and content, and for any index; sizes are judged by those who lend them (6).
#![tactic(auto)]

ghost use Rattle.std.specs.Prelude.{◌≡◌, None, Ok};
ghost use Rattle.fields.specs.Fields.{decoded};
ghost use Rattle.rows.specs.Rows.{rows};
ghost use Rattle.symbols.specs.Entries.{entries};
ghost use Rattle.symbols.specs.Find.{place_for};
ghost use Rattle.symbols.specs.Work.{entered};
ghost use Rattle.orders.specs.Work.{committed};
ghost use Rattle.engines.specs.Engines.{free_by, entry_by, noted, hinted_to};
ghost use Rattle.book.specs.declared.Rule.TheVariants.{NoBody};
ghost use Rattle.book.specs.Plan.{number_of, works, idle, row_for, target, add_plan, modify_plan, delete_plan, execution_plan, clear_plan, update_plan, plan_by};
ghost use Rattle.book.specs.Book.{book};
ghost use Rattle.book.specs.Ledger.{order_for, looks, ledger, seen, posts, told, devised, posted};

use editions::Edition;
use fields::{AddOrder, DeleteOrder, Fault, ModifyOrder, OrderExecution, SymbolClear};
use kinds::Kind;
use orders::RowWork;
use rows::Row;
use wire::Number;

// The book rules, by document 01's numbers.
#[derive(Clone, Copy, Debug, PartialEq, Eq)]
pub enum Rule {
    UnknownSymbol = 20,
    AlreadyLive = 21,
    NotLive = 22,
    OtherSymbol = 23,
    AboveSize = 24,
    NoRow = 25,
    NoEntry = 26,
    NoBody = 27,
}

impl From<Rule> for u8 {
    ghost from_gives = { λ r n. n ≡ number_of r };

    fn from(r: Rule) -> u8 {
        r as u8
    }
}

// "no good body stops with 27", whatever its fault.
impl From<Fault> for Rule {
    ghost from_gives = { λ f r. r ≡ NoBody };

    fn from(_: Fault) -> Rule {
        Rule::NoBody
    }
}

// What a book has by value: the current second.
#[derive(Clone, Copy, Debug, PartialEq, Eq)]
pub struct Clock {
    pub second: u32,
}

// What a message does: the clock after it, and the work on each table.
#[derive(Clone, Copy, Debug, PartialEq, Eq)]
pub struct Works {
    pub clock: Clock,
    pub orders: RowWork,
    pub symbols: Option<usize>,
}

// The three lent tables, as whoever plans looks at them.
#[derive(Clone, Copy)]
pub struct Tables<'a> {
    pub orders: &'a [u64],
    pub symbols: &'a [u8],
    pub index: &'a [u64],
}

impl Tables<'_> {
    // The order that stands under an ID.
    #[inline(always)]
    fn order(self, id: u64) -> Option<(usize, Row)>
        ensures { result ≡ order_for self.entry.index.now id self.entry.orders.now }
    {
        rows::held_at(
            self.orders,
            engines::find_order(self.orders, self.index, id),
        )
    }

    // The row that an Add takes.
    #[inline(always)]
    fn free_row(self) -> Option<usize>
        ensures { result ≡ free_by self.entry.index.now (rows self.entry.orders.now) }
    {
        engines::find_free(self.orders, self.index)
    }

    // The entry of a symbol.
    #[inline(always)]
    fn entry(self, id: u32) -> Option<usize>
        ensures { result ≡ entry_by self.entry.index.now id (entries self.entry.symbols.now) }
    {
        engines::find_entry(self.symbols, self.index, id)
    }

    // The entry that a Symbol Update takes.
    #[inline(always)]
    fn room(self, id: u32) -> Option<usize>
        ensures { result ≡ place_for id (entries self.entry.symbols.now) }
    {
        symbols::find_place(self.symbols, id)
    }
}

// The row of a new order; its rank is the message's sequence number.
#[tactic(auto, unfolding(crate::specs::Plan::row_for))]
pub fn row_for(m: AddOrder, number: u64) -> Row
    ensures { result ≡ row_for m number }
{
    Row {
        order: m.order,
        key: rows::key_for(m.symbol, rows::side_of(m.side)),
        price: m.price,
        size: u64::from(m.size),
        rank: number,
    }
}

// Work on the order table alone.
fn on_rows(clock: Clock, w: RowWork) -> Works
    ensures { result ≡ works clock w None }
{
    Works {
        clock,
        orders: w,
        symbols: None,
    }
}

// Work on no table.
fn idle(clock: Clock) -> Works
    ensures { Ok result ≡ idle clock }
{
    on_rows(clock, RowWork::Keep)
}

// The order that a message names: not live 22; live under another symbol 23.
#[tactic(auto, unfolding(crate::specs::Plan::target, facts::specs::Pick::pick))]
fn target_of(order: Option<(usize, Row)>, symbol: u32) -> Result<(usize, Row), Rule>
    ensures { result ≡ target order symbol }
{
    let (i, r) = order.ok_or(Rule::NotLive)?;
    if rows::symbol_in(r.key) != u64::from(symbol) {
        return Err(Rule::OtherSymbol);
    }
    Ok((i, r))
}

// Unknown symbol 20; order ID already live 21; no free row 25.
#[tactic(auto, unfolding(crate::specs::Plan::add_plan, crate::specs::Plan::of_known, crate::specs::Plan::room_for))]
pub fn add_plan(
    clock: Clock,
    m: AddOrder,
    number: u64,
    entry: Option<usize>,
    order: Option<(usize, Row)>,
    free: Option<usize>,
) -> Result<Works, Rule>
    ensures { result ≡ add_plan clock m number entry order free }
{
    entry.ok_or(Rule::UnknownSymbol)?;
    if order.is_some() {
        return Err(Rule::AlreadyLive);
    }
    let j = free.ok_or(Rule::NoRow)?;
    Ok(on_rows(clock, RowWork::Put(j, row_for(m, number))))
}

// Unknown symbol 20; its order 22, 23.
#[tactic(auto, unfolding(crate::specs::Plan::modify_plan, crate::specs::Plan::of_known, crate::specs::Plan::upon))]
pub fn modify_plan(
    clock: Clock,
    m: ModifyOrder,
    number: u64,
    entry: Option<usize>,
    order: Option<(usize, Row)>,
) -> Result<Works, Rule>
    ensures { result ≡ modify_plan clock m number entry order }
{
    entry.ok_or(Rule::UnknownSymbol)?;
    let (i, r) = target_of(order, m.symbol)?;
    let moved = orders::loses_place(m.flags);
    let new = orders::remake(r, m.price, u64::from(m.size), moved, number);
    Ok(on_rows(clock, RowWork::Put(i, new)))
}

// Unknown symbol 20; its order 22, 23.
#[tactic(auto, unfolding(crate::specs::Plan::delete_plan, crate::specs::Plan::of_known, crate::specs::Plan::upon))]
pub fn delete_plan(
    clock: Clock,
    m: DeleteOrder,
    entry: Option<usize>,
    order: Option<(usize, Row)>,
) -> Result<Works, Rule>
    ensures { result ≡ delete_plan clock m entry order }
{
    entry.ok_or(Rule::UnknownSymbol)?;
    let (i, _) = target_of(order, m.symbol)?;
    Ok(on_rows(clock, RowWork::Put(i, rows::zero_row())))
}

// Unknown symbol 20; its order 22, 23; executed size above the order's 24.
#[tactic(auto, unfolding(crate::specs::Plan::execution_plan, crate::specs::Plan::of_known, crate::specs::Plan::upon, facts::specs::Pick::pick))]
pub fn execution_plan(
    clock: Clock,
    m: OrderExecution,
    entry: Option<usize>,
    order: Option<(usize, Row)>,
) -> Result<Works, Rule>
    ensures { result ≡ execution_plan clock m entry order }
{
    entry.ok_or(Rule::UnknownSymbol)?;
    let (i, r) = target_of(order, m.symbol)?;
    if r.size < u64::from(m.size) {
        return Err(Rule::AboveSize);
    }
    Ok(on_rows(clock, RowWork::Put(i, orders::reduce(r, u64::from(m.size)))))
}

// Unknown symbol 20.
#[tactic(auto, unfolding(crate::specs::Plan::clear_plan, crate::specs::Plan::of_known))]
pub fn clear_plan(clock: Clock, m: SymbolClear, entry: Option<usize>) -> Result<Works, Rule>
    ensures { result ≡ clear_plan clock m entry }
{
    entry.ok_or(Rule::UnknownSymbol)?;
    Ok(on_rows(clock, RowWork::Clear(m.symbol)))
}

// No entry of its own, and none free: 26.
#[tactic(auto, unfolding(crate::specs::Plan::update_plan))]
pub fn update_plan(clock: Clock, place: Option<usize>) -> Result<Works, Rule>
    ensures { result ≡ update_plan clock place }
{
    let i = place.ok_or(Rule::NoEntry)?;
    Ok(Works {
        clock,
        orders: RowWork::Keep,
        symbols: Some(i),
    })
}

// The plan of a message of a kind, by its number and its body; nothing is changed. It is written into its callers, since a plan handed over
// in memory costs a tenth of a message's time; so are the searches.
#[tactic(auto, unfolding(crate::specs::Plan::plan_by, fields::specs::Fields::decoded))]
#[inline(always)]
pub fn plan_kind(k: Kind, t: Tables, clock: Clock, number: u64, body: &[u8]) -> Result<Works, Rule>
    ensures { result ≡ plan_by (decoded k body.now) number body.now clock (looks (seen t.entry clock)) }
{
    match k {
        Kind::SystemTime => {
            let second = u32::at(body, 1);
            Ok(idle(Clock { second }))
        }
        Kind::SymbolUpdate => update_plan(clock, t.room(u32::at(body, 5))),
        Kind::SymbolClear => {
            let m = fields::clear_of(body);
            clear_plan(clock, m, t.entry(m.symbol))
        }
        Kind::Add => {
            let m = fields::add_of(body);
            let free = t.free_row();
            add_plan(clock, m, number, t.entry(m.symbol), t.order(m.order), free)
        }
        Kind::Modify => {
            let m = fields::modify_of(body);
            modify_plan(clock, m, number, t.entry(m.symbol), t.order(m.order))
        }
        Kind::Delete => {
            let m = fields::delete_of(body);
            delete_plan(clock, m, t.entry(m.symbol), t.order(m.order))
        }
        Kind::Execution => {
            let m = fields::execution_of(body);
            execution_plan(clock, m, t.entry(m.symbol), t.order(m.order))
        }
        Kind::SystemState | Kind::TradingStatus | Kind::Trade | Kind::TradeCancel => Ok(idle(
            clock,
        )),
        Kind::Unknown => Err(Rule::NoBody),
    }
}

// The plan of a message by its number and its body, which is read by the edition.
#[tactic(auto, unfolding(crate::specs::Ledger::devised, crate::specs::Plan::plan_by, body::specs::Read::read_body, body::specs::Read::message))]
pub fn plan(e: Edition, t: Tables, clock: Clock, number: u64, body: &[u8]) -> Result<Works, Rule>
    ensures { result ≡ devised e number body.now (seen t.entry clock) }
{
    plan_kind(body::judge_body(e, body)?, t, clock, number, body)
}

// Each table is left by its own work, and the index by both.
fn carry_out(w: Works, orders: &mut [u64], symbols: &mut [u8], index: &mut [u64], body: &[u8])
    ensures orders { orders.new ≡ committed w.orders orders.old }
    ensures symbols { symbols.new ≡ entered w.symbols body.now symbols.old }
    ensures index { index.new ≡ hinted_to w.symbols body.now (noted w.orders (rows orders.old) index.old) }
{
    engines::note(orders, index, w.orders);
    engines::note_entry(index, w.symbols, body);
    orders::commit(orders, w.orders);
    symbols::commit(symbols, w.symbols, body);
}

// A message of a kind, planned and carried out: the clock after it, or the rule that it breaks, and then nothing is changed.
#[tactic(auto, unfolding(crate::specs::Book::carried, crate::specs::Ledger::index_after))]
pub fn try_kind(
    k: Kind,
    orders: &mut [u64],
    symbols: &mut [u8],
    index: &mut [u64],
    clock: Clock,
    number: u64,
    body: &[u8],
) -> Result<Clock, Rule>
    ensures { told result (ledger (book orders.new symbols.new clock) index.new) ≡ posts (plan_by (decoded k body.now) number body.now clock (looks (ledger (book orders.old symbols.old clock) index.old))) body.now (ledger (book orders.old symbols.old clock) index.old) }
{
    let w = plan_kind(
        k,
        Tables {
            orders,
            symbols,
            index,
        },
        clock,
        number,
        body,
    )?;
    carry_out(w, orders, symbols, index, body);
    Ok(w.clock)
}

// A message by its number and its body, which is read by the edition, planned and carried out.
#[tactic(auto, unfolding(crate::specs::Ledger::posted, crate::specs::Ledger::devised, crate::specs::Plan::plan_by, body::specs::Read::read_body, body::specs::Read::message, crate::specs::Book::carried, crate::specs::Ledger::index_after))]
pub fn attempt(
    e: Edition,
    orders: &mut [u64],
    symbols: &mut [u8],
    index: &mut [u64],
    clock: Clock,
    number: u64,
    body: &[u8],
) -> Result<Clock, Rule>
    ensures { told result (ledger (book orders.new symbols.new clock) index.new) ≡ posted e number body.now (ledger (book orders.old symbols.old clock) index.old) }
{
    let k = body::judge_body(e, body)?;
    try_kind(k, orders, symbols, index, clock, number, body)
}
