// A message as eight numbers and 28 bytes of text, as C has it (docs/WRITE.md), both ways: read into them, and written from them.
#![tactic(auto)]

ghost use Rattle.std.specs.Prelude.{ℕ, ◌≡◌, ◌<◌, ◌≤◌, List, [], ◌∷◌, ◌++◌, length, take, get_or};
ghost use Rattle.std.proofs.Common.{ap, arith, length-take-le, sym};
ghost use Rattle.body.specs.Shown.{security_in};
ghost use Rattle.fields.specs.Fields.{update_of, state_of, decoded};
ghost use Rattle.fields.specs.Messages.{system_time, symbol_update, system_state, trading_status, symbol_clear, add_order, modify_order, delete_order, order_execution, trade, trade_cancel};
ghost use Rattle.kinds.specs.Table.{length_of, kind_of};
ghost use Rattle.layout.specs.Layout.{FieldsFit};
ghost use Rattle.layout.specs.Message.{written, Fit};
ghost use Rattle.wire.specs.Le.{padded};
ghost use Rattle.wire.proofs.Laws.{length_padded};
ghost use Rattle.numbers.specs.Drafts.{time_from, security_from, symbol_from, update_from, state_from, status_from, clear_from, add_from, modify_from, delete_from, execution_from, trade_from, cancel_from, fields_from, most, draft_fits, body_from, held_draft, draft_of};
ghost use Rattle.numbers.specs.Numbers.{update_fields, state_fields, status_fields, clear_fields, add_fields, modify_fields, delete_fields, execution_fields, trade_fields, cancel_fields, typed, reserved_byte, update_text, state_text, text_of};

use editions::Edition;
use fields::{
    AddOrder, DeleteOrder, ModifyOrder, OrderExecution, Refusal, Symbol, SymbolClear, SymbolUpdate,
    SystemState, Trade, TradeCancel, TradingStatus,
};
use kinds::Kind;
use std::marker::Model;
use wire::Number;

// A body from numbers and text: as many bytes as it has, in front of zeros.
#[derive(Clone, Copy)]
pub struct Draft {
    len: usize,
    bytes: [u8; 42],
}

impl Model for Draft {
    ghost Value = { List ℕ };

    ghost view = { λ d. take d.len d.bytes };

    ghost invariant = { λ d. (d.len ≤ 42) × (d.bytes ≡ padded (take d.len d.bytes) 0 42) };

    ghost inverse = { λ b. record { len = length b; bytes = padded b 0 42 } };

    ghost inverse_ok = { λ d h i. record {
      len = length-take-le d.len d.bytes (omega (arith, h.0, ap length h.1, length_padded (take d.len d.bytes) 0 42)) i;
      bytes = sym h.1 i;
    } };
}

impl Draft {
    pub fn body(&self) -> &[u8]
        ensures { result.now ≡ self.now }
    {
        &self.bytes[..self.len]
    }

    // The body, with zeros behind it to the longest body's length.
    pub fn bytes(&self) -> [u8; 42]
        ensures { result ≡ padded self.now 0 42 }
    {
        self.bytes
    }
}

// The numbers of each message: its type t first, zeros behind them. They stand in the order of their places, but for a Symbol Update's.
fn update_fields(t: u64, m: SymbolUpdate, y: Option<u8>) -> [u64; 8]
    ensures { result ≡ update_fields t m y }
{
    let s = m.symbol;
    [
        t,
        s.id as u64,
        s.lot as u64,
        s.market as u64,
        y.unwrap_or(0) as u64,
        m.nanos as u64,
        m.test as u64,
        m.reserved as u64,
    ]
}

fn state_fields(t: u64, s: SystemState) -> [u64; 8]
    ensures { result ≡ state_fields t s }
{
    [
        t,
        s.nanos as u64,
        s.session as u64,
        s.status as u64,
        0,
        0,
        0,
        0,
    ]
}

fn status_fields(t: u64, s: TradingStatus) -> [u64; 8]
    ensures { result ≡ status_fields t s }
{
    [
        t,
        s.nanos as u64,
        s.symbol as u64,
        s.trading as u64,
        s.market as u64,
        s.short as u64,
        0,
        0,
    ]
}

fn clear_fields(t: u64, s: SymbolClear) -> [u64; 8]
    ensures { result ≡ clear_fields t s }
{
    [t, s.nanos as u64, s.symbol as u64, 0, 0, 0, 0, 0]
}

fn add_fields(t: u64, s: AddOrder) -> [u64; 8]
    ensures { result ≡ add_fields t s }
{
    [
        t,
        s.nanos as u64,
        s.symbol as u64,
        s.order,
        s.side as u64,
        s.price,
        s.size as u64,
        s.attributable as u64,
    ]
}

fn modify_fields(t: u64, s: ModifyOrder) -> [u64; 8]
    ensures { result ≡ modify_fields t s }
{
    [
        t,
        s.nanos as u64,
        s.symbol as u64,
        s.order,
        s.price,
        s.size as u64,
        s.flags as u64,
        0,
    ]
}

fn delete_fields(t: u64, s: DeleteOrder) -> [u64; 8]
    ensures { result ≡ delete_fields t s }
{
    [t, s.nanos as u64, s.symbol as u64, s.order, 0, 0, 0, 0]
}

fn execution_fields(t: u64, s: OrderExecution) -> [u64; 8]
    ensures { result ≡ execution_fields t s }
{
    [
        t,
        s.nanos as u64,
        s.symbol as u64,
        s.order,
        s.trade,
        s.price,
        s.size as u64,
        s.flags as u64,
    ]
}

fn trade_fields(t: u64, s: Trade) -> [u64; 8]
    ensures { result ≡ trade_fields t s }
{
    [
        t,
        s.nanos as u64,
        s.symbol as u64,
        s.trade,
        s.correction as u64,
        s.price,
        s.size as u64,
        s.flags as u64,
    ]
}

fn cancel_fields(t: u64, s: TradeCancel) -> [u64; 8]
    ensures { result ≡ cancel_fields t s }
{
    [
        t,
        s.nanos as u64,
        s.symbol as u64,
        s.trade,
        s.correction as u64,
        s.price,
        s.size as u64,
        0,
    ]
}

// The numbers of a body of a kind, whether in range or not: its type byte first.
#[tactic(auto, unfolding(fields::specs::Fields::decoded))]
pub fn fields_of(e: Edition, k: Kind, b: &[u8]) -> [u64; 8]
    ensures { result ≡ typed e (get_or b.now 0 0) (decoded k b.now) b.now }
{
    let t = u8::at(b, 0) as u64;
    match k {
        Kind::SystemTime => [t, u32::at(b, 1) as u64, 0, 0, 0, 0, 0, 0],
        Kind::SymbolUpdate => update_fields(t, fields::update_of(b), body::security_in(e, b)),
        Kind::SystemState => state_fields(t, fields::state_of(b)),
        Kind::TradingStatus => status_fields(t, fields::status_of(b)),
        Kind::SymbolClear => clear_fields(t, fields::clear_of(b)),
        Kind::Add => add_fields(t, fields::add_of(b)),
        Kind::Modify => modify_fields(t, fields::modify_of(b)),
        Kind::Delete => delete_fields(t, fields::delete_of(b)),
        Kind::Execution => execution_fields(t, fields::execution_of(b)),
        Kind::Trade => trade_fields(t, fields::trade_of(b)),
        Kind::TradeCancel => cancel_fields(t, fields::cancel_of(b)),
        Kind::Unknown => [t, 0, 0, 0, 0, 0, 0, 0],
    }
}

// Byte 20 where it is reserved, 0 where it is the Security Type, which stands among the numbers.
fn reserved_byte(y: Option<u8>, x: u8) -> u8
    ensures { result ≡ reserved_byte y x }
{
    match y {
        Some(_) => 0,
        None => x,
    }
}

// The texts of a Symbol Update and a last byte, back to back.
fn laid(ticker: [u8; 11], opening: [u8; 8], closing: [u8; 8], last: u8) -> [u8; 28]
    ensures { result ≡ ticker ++ (opening ++ (closing ++ (last ∷ []))) }
{
    let mut out = [0u8; 28];
    wire::put_at(&mut out, 0, &ticker);
    wire::put_at(&mut out, 11, &opening);
    wire::put_at(&mut out, 19, &closing);
    last.put(&mut out, 27);
    out
}

fn update_text(e: Edition, b: &[u8]) -> [u8; 28]
    ensures { result ≡ update_text (update_of b.now) (security_in e b.now) }
{
    let m = fields::update_of(b);
    let s = m.symbol;
    let last = reserved_byte(body::security_in(e, b), m.security);
    laid(s.ticker, s.opening, s.closing, last)
}

fn state_text(b: &[u8]) -> [u8; 28]
    ensures { result ≡ state_text (state_of b.now) }
{
    let m = fields::state_of(b);
    let mut out = [0u8; 28];
    wire::put_at(&mut out, 0, &m.version);
    out
}

// The bytes of a body of a kind that are no numbers, zeros behind them.
#[tactic(auto, unfolding(fields::specs::Fields::decoded))]
pub fn text_of(e: Edition, k: Kind, b: &[u8]) -> [u8; 28]
    ensures { result ≡ text_of e (decoded k b.now) b.now }
{
    match k {
        Kind::SymbolUpdate => update_text(e, b),
        Kind::SystemState => state_text(b),
        _ => [0u8; 28],
    }
}

// The largest numbers of one, two, four and eight bytes.
const ONE: u64 = u8::MAX as u64;

const TWO: u64 = u16::MAX as u64;

const FOUR: u64 = u32::MAX as u64;

const ANY: u64 = u64::MAX;

// The largest of each number behind the type; one that the message does not have may be anything.
fn most(e: Edition, k: Kind) -> [u64; 7]
    ensures { result ≡ most e k }
{
    match k {
        Kind::SystemTime => [FOUR, ANY, ANY, ANY, ANY, ANY, ANY],
        Kind::SymbolUpdate => match e {
            Edition::V13 => [FOUR, TWO, ONE, ONE, FOUR, ONE, ONE],
            Edition::V13b => [FOUR, TWO, ONE, ANY, FOUR, ONE, ONE],
        },
        Kind::SystemState => [FOUR, ONE, ONE, ANY, ANY, ANY, ANY],
        Kind::TradingStatus => [FOUR, FOUR, ONE, ONE, ONE, ANY, ANY],
        Kind::SymbolClear | Kind::Delete => [FOUR, FOUR, ANY, ANY, ANY, ANY, ANY],
        Kind::Add => [FOUR, FOUR, ANY, ONE, ANY, FOUR, FOUR],
        Kind::Modify => [FOUR, FOUR, ANY, ANY, FOUR, ONE, ANY],
        Kind::Execution => [FOUR, FOUR, ANY, ANY, ANY, FOUR, ONE],
        Kind::Trade => [FOUR, FOUR, ANY, ONE, ANY, FOUR, ONE],
        Kind::TradeCancel => [FOUR, FOUR, ANY, ONE, ANY, FOUR, ANY],
        Kind::Unknown => [ANY; 7],
    }
}

// Whether each number fits its field. Of a text each byte does.
fn fits(e: Edition, k: Kind, n: &[u64; 8]) -> bool
    ensures { (t : List ℕ) → get_or t 27 0 < 256 → result ≡ draft_fits e k n.now t }
{
    let largest = most(e, k);
    n[1..].iter().zip(largest.iter()).all(|(x, m)| x <= m)
}

// Byte 20 of a Symbol Update: in 1.3 the Security Type, which is a number, and later a byte of the text.
fn security_from(e: Edition, n: &[u64; 8], t: &[u8; 28]) -> u8
    requires { security_from e n.now t.now < 256 }
    ensures { result ≡ security_from e n.now t.now }
{
    match e {
        Edition::V13 => n[4] as u8,
        Edition::V13b => t[27],
    }
}

// The body of each message from its numbers, in front of zeros: they fit their fields, so that nothing is lost.
fn time_from(n: &[u64; 8]) -> [u8; 42]
    requires { Fit system_time (time_from n.now) }
    ensures { result ≡ padded (written system_time (time_from n.now)) 0 42 }
{
    let b = encode::time_body(n[1] as u32);
    wire::bytes_at(&b, 0)
}

fn symbol_from(n: &[u64; 8], t: &[u8; 28]) -> Symbol
    requires { (e : Edition) × Fit symbol_update (update_from e n.now t.now) }
    ensures { result ≡ symbol_from n.now t.now }
{
    Symbol {
        id: n[1] as u32,
        ticker: wire::bytes_at(t, 0),
        opening: wire::bytes_at(t, 11),
        closing: wire::bytes_at(t, 19),
        lot: n[2] as u16,
        market: n[3] as u8,
    }
}

fn update_from(e: Edition, n: &[u64; 8], t: &[u8; 28]) -> [u8; 42]
    requires { Fit symbol_update (update_from e n.now t.now) }
    ensures { result ≡ padded (written symbol_update (update_from e n.now t.now)) 0 42 }
{
    let b = encode::update_body(SymbolUpdate {
        nanos: n[5] as u32,
        symbol: symbol_from(n, t),
        security: security_from(e, n, t),
        test: n[6] as u8,
        reserved: n[7] as u8,
    });
    wire::bytes_at(&b, 0)
}

fn state_from(n: &[u64; 8], t: &[u8; 28]) -> [u8; 42]
    requires { Fit system_state (state_from n.now t.now) }
    ensures { result ≡ padded (written system_state (state_from n.now t.now)) 0 42 }
{
    let b = encode::state_body(SystemState {
        nanos: n[1] as u32,
        version: wire::bytes_at(t, 0),
        session: n[2] as u8,
        status: n[3] as u8,
    });
    wire::bytes_at(&b, 0)
}

fn status_from(n: &[u64; 8]) -> [u8; 42]
    requires { Fit trading_status (status_from n.now) }
    ensures { result ≡ padded (written trading_status (status_from n.now)) 0 42 }
{
    let b = encode::status_body(TradingStatus {
        nanos: n[1] as u32,
        symbol: n[2] as u32,
        trading: n[3] as u8,
        market: n[4] as u8,
        short: n[5] as u8,
    });
    wire::bytes_at(&b, 0)
}

fn clear_from(n: &[u64; 8]) -> [u8; 42]
    requires { Fit symbol_clear (clear_from n.now) }
    ensures { result ≡ padded (written symbol_clear (clear_from n.now)) 0 42 }
{
    let b = encode::clear_body(SymbolClear {
        nanos: n[1] as u32,
        symbol: n[2] as u32,
    });
    wire::bytes_at(&b, 0)
}

fn add_from(n: &[u64; 8]) -> [u8; 42]
    requires { Fit add_order (add_from n.now) }
    ensures { result ≡ padded (written add_order (add_from n.now)) 0 42 }
{
    let b = encode::add_body(AddOrder {
        nanos: n[1] as u32,
        symbol: n[2] as u32,
        order: n[3],
        side: n[4] as u8,
        price: n[5],
        size: n[6] as u32,
        attributable: n[7] as u32,
    });
    wire::bytes_at(&b, 0)
}

fn modify_from(n: &[u64; 8]) -> [u8; 42]
    requires { Fit modify_order (modify_from n.now) }
    ensures { result ≡ padded (written modify_order (modify_from n.now)) 0 42 }
{
    let b = encode::modify_body(ModifyOrder {
        nanos: n[1] as u32,
        symbol: n[2] as u32,
        order: n[3],
        price: n[4],
        size: n[5] as u32,
        flags: n[6] as u8,
    });
    wire::bytes_at(&b, 0)
}

fn delete_from(n: &[u64; 8]) -> [u8; 42]
    requires { Fit delete_order (delete_from n.now) }
    ensures { result ≡ padded (written delete_order (delete_from n.now)) 0 42 }
{
    let b = encode::delete_body(DeleteOrder {
        nanos: n[1] as u32,
        symbol: n[2] as u32,
        order: n[3],
    });
    wire::bytes_at(&b, 0)
}

fn execution_from(n: &[u64; 8]) -> [u8; 42]
    requires { Fit order_execution (execution_from n.now) }
    ensures { result ≡ padded (written order_execution (execution_from n.now)) 0 42 }
{
    let b = encode::execution_body(OrderExecution {
        nanos: n[1] as u32,
        symbol: n[2] as u32,
        order: n[3],
        trade: n[4],
        price: n[5],
        size: n[6] as u32,
        flags: n[7] as u8,
    });
    wire::bytes_at(&b, 0)
}

fn trade_from(n: &[u64; 8]) -> [u8; 42]
    requires { Fit trade (trade_from n.now) }
    ensures { result ≡ padded (written trade (trade_from n.now)) 0 42 }
{
    let b = encode::trade_body(Trade {
        nanos: n[1] as u32,
        symbol: n[2] as u32,
        trade: n[3],
        correction: n[4] as u8,
        price: n[5],
        size: n[6] as u32,
        flags: n[7] as u8,
    });
    wire::bytes_at(&b, 0)
}

fn cancel_from(n: &[u64; 8]) -> [u8; 42]
    requires { Fit trade_cancel (cancel_from n.now) }
    ensures { result ≡ padded (written trade_cancel (cancel_from n.now)) 0 42 }
{
    let b = encode::cancel_body(TradeCancel {
        nanos: n[1] as u32,
        symbol: n[2] as u32,
        trade: n[3],
        correction: n[4] as u8,
        price: n[5],
        size: n[6] as u32,
    });
    wire::bytes_at(&b, 0)
}

// The body of any message; 42 zeros where the type is no message's.
fn body_from(e: Edition, k: Kind, n: &[u64; 8], t: &[u8; 28]) -> [u8; 42]
    requires { FieldsFit k (fields_from e k n.now t.now) }
    ensures { result ≡ padded (body_from e k n.now t.now) 0 42 }
{
    match k {
        Kind::SystemTime => time_from(n),
        Kind::SymbolUpdate => update_from(e, n, t),
        Kind::SystemState => state_from(n, t),
        Kind::TradingStatus => status_from(n),
        Kind::SymbolClear => clear_from(n),
        Kind::Add => add_from(n),
        Kind::Modify => modify_from(n),
        Kind::Delete => delete_from(n),
        Kind::Execution => execution_from(n),
        Kind::Trade => trade_from(n),
        Kind::TradeCancel => cancel_from(n),
        Kind::Unknown => [0u8; 42],
    }
}

// Judges a body that stands in front of zeros, as long as its type has it in the table of kinds; a type that is no message's has length 0,
// and is judged 3.
fn judged(e: Edition, bytes: [u8; 42]) -> Result<Draft, Refusal>
    requires { bytes ≡ padded (take (length_of (get_or bytes 0 0)) bytes) 0 42 }
    ensures { result ≡ held_draft e bytes }
{
    let len = kinds::length_of(bytes[0]);
    match body::judge(e, &bytes[..len]) {
        Ok(()) => Ok(Draft { len, bytes }),
        Err(f) => Err(Refusal { number: f.number }),
    }
}

// The kind of the message whose type a number is.
#[tactic(auto, using(crate::proofs::Held::no_type))]
fn kind_in(v: u64) -> Kind
    ensures { result ≡ kind_of v }
{
    match u8::try_from(v) {
        Ok(t) => Kind::from(t),
        Err(_) => Kind::Unknown,
    }
}

// The body that eight numbers and 28 bytes stand for, or why it cannot be written.
pub fn draft_of(e: Edition, n: &[u64; 8], t: &[u8; 28]) -> Result<Draft, Refusal>
    ensures { result ≡ draft_of e n.now t.now }
{
    let k = kind_in(n[0]);
    if !fits(e, k, n) {
        return Err(Refusal { number: 4 });
    }
    judged(e, body_from(e, k, n, t))
}
