// Writes messages: the fields of each, into the bytes of its body, by value. Writing judges nothing; any fields have bytes.
#![tactic(auto)]

ghost use Rattle.std.specs.Prelude.{◌≡◌, set};
ghost use Rattle.std.proofs.lemmas.List.Edits.{sets};
ghost use Rattle.wire.specs.Le.{to_le};
ghost use Rattle.layout.specs.Message.{written};
ghost use Rattle.fields.specs.Messages.{system_time, symbol_update, system_state, trading_status, symbol_clear, add_order, modify_order, delete_order, order_execution, trade, trade_cancel};

use fields::{
    AddOrder, DeleteOrder, ModifyOrder, OrderExecution, SymbolClear, SymbolUpdate, SystemState,
    Trade, TradeCancel, TradingStatus,
};
use wire::Number;

// Type, nanoseconds and symbol, in one place since nine messages start so.
fn front(out: &mut [u8], code: u8, nanos: u32, symbol: u32)
    ensures { out.new ≡ sets (sets (set out.old 0 code) 1 (to_le 4 nanos)) 5 (to_le 4 symbol) }
{
    code.put(out, 0);
    nanos.put(out, 1);
    symbol.put(out, 5);
}

// The same, and behind it the ID of an order or a trade: six messages go on so.
fn front_id(out: &mut [u8], code: u8, nanos: u32, symbol: u32, id: u64)
    ensures { out.new ≡ sets (sets (sets (set out.old 0 code) 1 (to_le 4 nanos)) 5 (to_le 4 symbol)) 9 (to_le 8 id) }
{
    front(out, code, nanos, symbol);
    id.put(out, 9);
}

// System Time (4.1).
pub fn time_body(seconds: u32) -> [u8; 5]
    ensures { result ≡ written system_time seconds }
{
    let mut out = [0u8; 5];
    49u8.put(&mut out, 0);
    seconds.put(&mut out, 1);
    out
}

// Symbol Update (4.2), every field of it, so that a body that was read is written as it was, its reserved bytes too.
pub fn update_body(m: SymbolUpdate) -> [u8; 42]
    ensures { result ≡ written symbol_update m }
{
    let symbol = m.symbol;
    let ticker = symbol.ticker;
    let opening = symbol.opening;
    let closing = symbol.closing;
    let mut out = [0u8; 42];
    front(&mut out, 1, m.nanos, symbol.id);
    wire::put_at(&mut out, 9, &ticker);
    wire::put_at(&mut out, 20, &[m.security, m.test, m.reserved]);
    symbol.lot.put(&mut out, 23);
    wire::put_at(&mut out, 25, &opening);
    wire::put_at(&mut out, 33, &closing);
    symbol.market.put(&mut out, 41);
    out
}

// System State (4.3).
pub fn state_body(m: SystemState) -> [u8; 15]
    ensures { result ≡ written system_state m }
{
    let version = m.version;
    let mut out = [0u8; 15];
    83u8.put(&mut out, 0);
    m.nanos.put(&mut out, 1);
    wire::put_at(&mut out, 5, &version);
    wire::put_at(&mut out, 13, &[m.session, m.status]);
    out
}

// Security Trading Status (4.4).
pub fn status_body(m: TradingStatus) -> [u8; 12]
    ensures { result ≡ written trading_status m }
{
    let mut out = [0u8; 12];
    front(&mut out, 4, m.nanos, m.symbol);
    wire::put_at(&mut out, 9, &[m.trading, m.market, m.short]);
    out
}

// Symbol Clear (4.5).
pub fn clear_body(m: SymbolClear) -> [u8; 9]
    ensures { result ≡ written symbol_clear m }
{
    let mut out = [0u8; 9];
    front(&mut out, 5, m.nanos, m.symbol);
    out
}

// Add Order (4.6).
pub fn add_body(m: AddOrder) -> [u8; 34]
    ensures { result ≡ written add_order m }
{
    let mut out = [0u8; 34];
    front_id(&mut out, 20, m.nanos, m.symbol, m.order);
    m.side.put(&mut out, 17);
    m.price.put(&mut out, 18);
    m.size.put(&mut out, 26);
    m.attributable.put(&mut out, 30);
    out
}

// Modify Order (4.7).
pub fn modify_body(m: ModifyOrder) -> [u8; 30]
    ensures { result ≡ written modify_order m }
{
    let mut out = [0u8; 30];
    front_id(&mut out, 21, m.nanos, m.symbol, m.order);
    m.price.put(&mut out, 17);
    m.size.put(&mut out, 25);
    m.flags.put(&mut out, 29);
    out
}

// Delete Order (4.8).
pub fn delete_body(m: DeleteOrder) -> [u8; 17]
    ensures { result ≡ written delete_order m }
{
    let mut out = [0u8; 17];
    front_id(&mut out, 23, m.nanos, m.symbol, m.order);
    out
}

// Order Execution (4.9).
pub fn execution_body(m: OrderExecution) -> [u8; 38]
    ensures { result ≡ written order_execution m }
{
    let mut out = [0u8; 38];
    front_id(&mut out, 24, m.nanos, m.symbol, m.order);
    m.trade.put(&mut out, 17);
    m.price.put(&mut out, 25);
    m.size.put(&mut out, 33);
    m.flags.put(&mut out, 37);
    out
}

// Trade (4.10).
pub fn trade_body(m: Trade) -> [u8; 31]
    ensures { result ≡ written trade m }
{
    let mut out = [0u8; 31];
    front_id(&mut out, 10, m.nanos, m.symbol, m.trade);
    m.correction.put(&mut out, 17);
    m.price.put(&mut out, 18);
    m.size.put(&mut out, 26);
    m.flags.put(&mut out, 30);
    out
}

// Trade Cancel (4.11).
pub fn cancel_body(m: TradeCancel) -> [u8; 30]
    ensures { result ≡ written trade_cancel m }
{
    let mut out = [0u8; 30];
    front_id(&mut out, 11, m.nanos, m.symbol, m.trade);
    m.correction.put(&mut out, 17);
    m.price.put(&mut out, 18);
    m.size.put(&mut out, 26);
    out
}
