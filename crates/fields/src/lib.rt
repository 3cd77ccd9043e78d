// The eleven messages as values: what stands where in a body (docs/MESSAGES.md). Decoding judges nothing; any bytes have fields.
#![tactic(auto)]

ghost use Rattle.std.specs.Prelude.{◌≡◌};
ghost use Rattle.fields.specs.Fields.{status_of, clear_of, add_of, modify_of, delete_of, execution_of, trade_of, cancel_of, symbol_of, security_of, update_of, state_of, decoded};

use kinds::Kind;
use wire::Number;

// Security Trading Status (4.4).
#[derive(Clone, Copy, Debug, PartialEq, Eq)]
pub struct TradingStatus {
    pub nanos: u32,
    pub symbol: u32,
    pub trading: u8,
    pub market: u8,
    pub short: u8,
}

// Symbol Clear (4.5).
#[derive(Clone, Copy, Debug, PartialEq, Eq)]
pub struct SymbolClear {
    pub nanos: u32,
    pub symbol: u32,
}

// Add Order (4.6); the attributable ID is its four letters read as one number.
#[derive(Clone, Copy, Debug, PartialEq, Eq)]
pub struct AddOrder {
    pub nanos: u32,
    pub symbol: u32,
    pub order: u64,
    pub side: u8,
    pub price: u64,
    pub size: u32,
    pub attributable: u32,
}

// Modify Order (4.7).
#[derive(Clone, Copy, Debug, PartialEq, Eq)]
pub struct ModifyOrder {
    pub nanos: u32,
    pub symbol: u32,
    pub order: u64,
    pub price: u64,
    pub size: u32,
    pub flags: u8,
}

// Delete Order (4.8).
#[derive(Clone, Copy, Debug, PartialEq, Eq)]
pub struct DeleteOrder {
    pub nanos: u32,
    pub symbol: u32,
    pub order: u64,
}

// Order Execution (4.9).
#[derive(Clone, Copy, Debug, PartialEq, Eq)]
pub struct OrderExecution {
    pub nanos: u32,
    pub symbol: u32,
    pub order: u64,
    pub trade: u64,
    pub price: u64,
    pub size: u32,
    pub flags: u8,
}

// Trade (4.10).
#[derive(Clone, Copy, Debug, PartialEq, Eq)]
pub struct Trade {
    pub nanos: u32,
    pub symbol: u32,
    pub trade: u64,
    pub correction: u8,
    pub price: u64,
    pub size: u32,
    pub flags: u8,
}

// Trade Cancel (4.11).
#[derive(Clone, Copy, Debug, PartialEq, Eq)]
pub struct TradeCancel {
    pub nanos: u32,
    pub symbol: u32,
    pub trade: u64,
    pub correction: u8,
    pub price: u64,
    pub size: u32,
}

// Symbol Update (4.2), what the table and the sheet show of it. All of its fields are in SymbolUpdate.
#[derive(Clone, Copy, Debug, PartialEq, Eq)]
pub struct Symbol {
    pub id: u32,
    pub ticker: [u8; 11],
    pub opening: [u8; 8],
    pub closing: [u8; 8],
    pub lot: u16,
    pub market: u8,
}

// Symbol Update (4.2), every field of it: byte 20 is the Security Type of 1.3 and reserved from 1.3.a on, byte 22 is reserved.
#[derive(Clone, Copy, Debug, PartialEq, Eq)]
pub struct SymbolUpdate {
    pub nanos: u32,
    pub symbol: Symbol,
    pub security: u8,
    pub test: u8,
    pub reserved: u8,
}

// System State (4.3).
#[derive(Clone, Copy, Debug, PartialEq, Eq)]
pub struct SystemState {
    pub nanos: u32,
    pub version: [u8; 8],
    pub session: u8,
    pub status: u8,
}

// Why something is refused: document 01's number.
#[derive(Clone, Copy, Debug, PartialEq, Eq)]
pub struct Refusal {
    pub number: u8,
}

// Why bytes that were read are refused: the number, 2 to 5, and the offset of the first byte at fault in what was read. A stream keeps
// its last refusal so too, with offset 0 where the number stands alone.
#[derive(Clone, Copy, Debug, PartialEq, Eq)]
pub struct Fault {
    pub number: u8,
    pub at: usize,
}

// What a body says, or why it is refused.
#[derive(Clone, Copy, Debug, PartialEq, Eq)]
pub enum Body {
    SystemTime(u32),
    SymbolUpdate(SymbolUpdate),
    SystemState(SystemState),
    TradingStatus(TradingStatus),
    SymbolClear(SymbolClear),
    Add(AddOrder),
    Modify(ModifyOrder),
    Delete(DeleteOrder),
    Execution(OrderExecution),
    Trade(Trade),
    TradeCancel(TradeCancel),
    Bad(Fault),
}

pub fn status_of(b: &[u8]) -> TradingStatus
    ensures { result ≡ status_of b.now }
{
    TradingStatus {
        nanos: u32::at(b, 1),
        symbol: u32::at(b, 5),
        trading: u8::at(b, 9),
        market: u8::at(b, 10),
        short: u8::at(b, 11),
    }
}

pub fn clear_of(b: &[u8]) -> SymbolClear
    ensures { result ≡ clear_of b.now }
{
    SymbolClear {
        nanos: u32::at(b, 1),
        symbol: u32::at(b, 5),
    }
}

#[inline(always)]
pub fn add_of(b: &[u8]) -> AddOrder
    ensures { result ≡ add_of b.now }
{
    AddOrder {
        nanos: u32::at(b, 1),
        symbol: u32::at(b, 5),
        order: u64::at(b, 9),
        side: u8::at(b, 17),
        price: u64::at(b, 18),
        size: u32::at(b, 26),
        attributable: u32::at(b, 30),
    }
}

pub fn modify_of(b: &[u8]) -> ModifyOrder
    ensures { result ≡ modify_of b.now }
{
    ModifyOrder {
        nanos: u32::at(b, 1),
        symbol: u32::at(b, 5),
        order: u64::at(b, 9),
        price: u64::at(b, 17),
        size: u32::at(b, 25),
        flags: u8::at(b, 29),
    }
}

pub fn delete_of(b: &[u8]) -> DeleteOrder
    ensures { result ≡ delete_of b.now }
{
    DeleteOrder {
        nanos: u32::at(b, 1),
        symbol: u32::at(b, 5),
        order: u64::at(b, 9),
    }
}

#[inline(always)]
pub fn execution_of(b: &[u8]) -> OrderExecution
    ensures { result ≡ execution_of b.now }
{
    OrderExecution {
        nanos: u32::at(b, 1),
        symbol: u32::at(b, 5),
        order: u64::at(b, 9),
        trade: u64::at(b, 17),
        price: u64::at(b, 25),
        size: u32::at(b, 33),
        flags: u8::at(b, 37),
    }
}

pub fn trade_of(b: &[u8]) -> Trade
    ensures { result ≡ trade_of b.now }
{
    Trade {
        nanos: u32::at(b, 1),
        symbol: u32::at(b, 5),
        trade: u64::at(b, 9),
        correction: u8::at(b, 17),
        price: u64::at(b, 18),
        size: u32::at(b, 26),
        flags: u8::at(b, 30),
    }
}

pub fn cancel_of(b: &[u8]) -> TradeCancel
    ensures { result ≡ cancel_of b.now }
{
    TradeCancel {
        nanos: u32::at(b, 1),
        symbol: u32::at(b, 5),
        trade: u64::at(b, 9),
        correction: u8::at(b, 17),
        price: u64::at(b, 18),
        size: u32::at(b, 26),
    }
}

// Written into its callers, since a conversion asks for no more of it than ID and ticker.
#[inline(always)]
pub fn symbol_of(b: &[u8]) -> Symbol
    ensures { result ≡ symbol_of b.now }
{
    let ticker = wire::bytes_at(b, 9);
    let opening = wire::bytes_at(b, 25);
    let closing = wire::bytes_at(b, 33);
    Symbol {
        id: u32::at(b, 5),
        ticker,
        opening,
        closing,
        lot: u16::at(b, 23),
        market: u8::at(b, 41),
    }
}

// The Security Type of a Symbol Update of 1.3; the byte is reserved from 1.3.a on.
pub fn security_of(b: &[u8]) -> u8
    ensures { result ≡ security_of b.now }
{
    u8::at(b, 20)
}

pub fn update_of(b: &[u8]) -> SymbolUpdate
    ensures { result ≡ update_of b.now }
{
    let symbol = symbol_of(b);
    SymbolUpdate {
        nanos: u32::at(b, 1),
        symbol,
        security: security_of(b),
        test: u8::at(b, 21),
        reserved: u8::at(b, 22),
    }
}

pub fn state_of(b: &[u8]) -> SystemState
    ensures { result ≡ state_of b.now }
{
    let version = wire::bytes_at(b, 5);
    SystemState {
        nanos: u32::at(b, 1),
        version,
        session: u8::at(b, 13),
        status: u8::at(b, 14),
    }
}

// The fields of a body of a kind, whether in range or not.
#[tactic(auto, unfolding(crate::specs::Fields::decoded))]
pub fn decode(k: Kind, b: &[u8]) -> Body
    ensures { result ≡ decoded k b.now }
{
    match k {
        Kind::SystemTime => Body::SystemTime(u32::at(b, 1)),
        Kind::SymbolUpdate => Body::SymbolUpdate(update_of(b)),
        Kind::SystemState => Body::SystemState(state_of(b)),
        Kind::TradingStatus => Body::TradingStatus(status_of(b)),
        Kind::SymbolClear => Body::SymbolClear(clear_of(b)),
        Kind::Add => Body::Add(add_of(b)),
        Kind::Modify => Body::Modify(modify_of(b)),
        Kind::Delete => Body::Delete(delete_of(b)),
        Kind::Execution => Body::Execution(execution_of(b)),
        Kind::Trade => Body::Trade(trade_of(b)),
        Kind::TradeCancel => Body::TradeCancel(cancel_of(b)),
        Kind::Unknown => Body::Bad(Fault { number: 3, at: 0 }),
    }
}
