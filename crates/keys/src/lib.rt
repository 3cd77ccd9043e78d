// The names of the messages, the keys of their fields, and what a field that is left out has (docs/TEXT.md).
#![tactic(auto)]

ghost use Rattle.std.specs.Prelude.{◌≡◌, ◌∷◌, map};
ghost use Rattle.keys.specs.Keys.{name_of, kind_named, entries_of, key_named, blank20, zeros, blank_body};
ghost use Rattle.keys.specs.Rows.{entry_of};

use editions::Edition;
use kinds::Kind;
use styles::Style;

// Where a field lies in its body, how its value is written, and whether it has to be.
#[derive(Clone, Copy, PartialEq, Eq, Debug, Default)]
pub struct Form {
    pub at: usize,
    pub width: usize,
    pub style: Style,
    pub needed: bool,
}

// A field of a message: its key and its form.
#[derive(Clone, Copy, PartialEq, Eq, Debug, Default)]
pub struct Row {
    pub key: &'static str,
    pub form: Form,
}

// A line of the tables: the key, the first byte in the body, how many bytes, how the value is written, and whether it has to be.
macro_rules! row {
    ($key:literal, $at:literal, $width:literal, $style:ident, $needed:ident) => {
        Row {
            key: $key,
            form: Form {
                at: $at,
                width: $width,
                style: Style::$style,
                needed: $needed,
            },
        }
    };
}

// "A field without a default has to be written", any other may be left out.
const MUST: bool = true;

const MAY: bool = false;

// The fields of each message, in the order of the table, which is that of their bytes; a Symbol Update's once for each edition.
const TIME: &[Row] = &[row!("second", 1, 4, Clock, MUST)];

const UPDATE_13: &[Row] = &[
    row!("nanoseconds", 1, 4, Number, MAY),
    row!("symbol", 5, 4, Number, MUST),
    row!("ticker", 9, 11, Text, MUST),
    row!("type", 20, 1, Text, MAY),
    row!("test", 21, 1, Text, MAY),
    row!("reserved22", 22, 1, Number, MAY),
    row!("lot", 23, 2, Number, MAY),
    row!("opening", 25, 8, Text, MAY),
    row!("closing", 33, 8, Text, MAY),
    row!("market", 41, 1, Text, MAY),
];

const UPDATE_13B: &[Row] = &[
    row!("nanoseconds", 1, 4, Number, MAY),
    row!("symbol", 5, 4, Number, MUST),
    row!("ticker", 9, 11, Text, MUST),
    row!("reserved20", 20, 1, Number, MAY),
    row!("test", 21, 1, Text, MAY),
    row!("reserved22", 22, 1, Number, MAY),
    row!("lot", 23, 2, Number, MAY),
    row!("opening", 25, 8, Text, MAY),
    row!("closing", 33, 8, Text, MAY),
    row!("market", 41, 1, Text, MAY),
];

const STATE: &[Row] = &[
    row!("nanoseconds", 1, 4, Number, MAY),
    row!("version", 5, 8, Text, MAY),
    row!("session", 13, 1, Number, MAY),
    row!("status", 14, 1, Text, MUST),
];

const STATUS: &[Row] = &[
    row!("nanoseconds", 1, 4, Number, MAY),
    row!("symbol", 5, 4, Number, MUST),
    row!("trading", 9, 1, Number, MUST),
    row!("market", 10, 1, Number, MAY),
    row!("short", 11, 1, Text, MAY),
];

const CLEAR: &[Row] = &[
    row!("nanoseconds", 1, 4, Number, MAY),
    row!("symbol", 5, 4, Number, MUST),
];

const ADD: &[Row] = &[
    row!("nanoseconds", 1, 4, Number, MAY),
    row!("symbol", 5, 4, Number, MUST),
    row!("order", 9, 8, Number, MUST),
    row!("side", 17, 1, Text, MUST),
    row!("price", 18, 8, Price, MUST),
    row!("size", 26, 4, Number, MUST),
    row!("attributable", 30, 4, Text, MAY),
];

const MODIFY: &[Row] = &[
    row!("nanoseconds", 1, 4, Number, MAY),
    row!("symbol", 5, 4, Number, MUST),
    row!("order", 9, 8, Number, MUST),
    row!("price", 17, 8, Price, MUST),
    row!("size", 25, 4, Number, MUST),
    row!("flags", 29, 1, Number, MAY),
];

const DELETE: &[Row] = &[
    row!("nanoseconds", 1, 4, Number, MAY),
    row!("symbol", 5, 4, Number, MUST),
    row!("order", 9, 8, Number, MUST),
];

const EXECUTION: &[Row] = &[
    row!("nanoseconds", 1, 4, Number, MAY),
    row!("symbol", 5, 4, Number, MUST),
    row!("order", 9, 8, Number, MUST),
    row!("trade", 17, 8, Number, MUST),
    row!("price", 25, 8, Price, MUST),
    row!("size", 33, 4, Number, MUST),
    row!("flags", 37, 1, Number, MAY),
];

const TRADE: &[Row] = &[
    row!("nanoseconds", 1, 4, Number, MAY),
    row!("symbol", 5, 4, Number, MUST),
    row!("trade", 9, 8, Number, MUST),
    row!("correction", 17, 1, Number, MAY),
    row!("price", 18, 8, Price, MUST),
    row!("size", 26, 4, Number, MUST),
    row!("flags", 30, 1, Number, MAY),
];

const CANCEL: &[Row] = &[
    row!("nanoseconds", 1, 4, Number, MAY),
    row!("symbol", 5, 4, Number, MUST),
    row!("trade", 9, 8, Number, MUST),
    row!("correction", 17, 1, Number, MAY),
    row!("price", 18, 8, Price, MUST),
    row!("size", 26, 4, Number, MUST),
];

// The messages, in the order of the table.
const KINDS: &[Kind] = &[
    Kind::SystemTime,
    Kind::SymbolUpdate,
    Kind::SystemState,
    Kind::TradingStatus,
    Kind::SymbolClear,
    Kind::Add,
    Kind::Modify,
    Kind::Delete,
    Kind::Execution,
    Kind::Trade,
    Kind::TradeCancel,
];

// ---- names
pub fn name_of(k: Kind) -> &'static str
    ensures { result.now ≡ name_of k }
{
    match k {
        Kind::SystemTime => "time",
        Kind::SymbolUpdate => "update",
        Kind::SystemState => "state",
        Kind::TradingStatus => "status",
        Kind::SymbolClear => "clear",
        Kind::Add => "add",
        Kind::Modify => "modify",
        Kind::Delete => "delete",
        Kind::Execution => "execution",
        Kind::Trade => "trade",
        Kind::TradeCancel => "cancel",
        Kind::Unknown => "",
    }
}

// The message of a name.
pub fn kind_named(w: &[u8]) -> Option<Kind>
    ensures { result ≡ kind_named w.now }
{
    KINDS.iter().copied().find(|k| name_of(*k).as_bytes() == w)
}

// ---- keys
// The fields of a message.
pub fn rows(e: Edition, k: Kind) -> &'static [Row]
    ensures { map entry_of result.now ≡ entries_of e k }
{
    match k {
        Kind::SystemTime => TIME,
        Kind::SymbolUpdate => match e {
            Edition::V13 => UPDATE_13,
            Edition::V13b => UPDATE_13B,
        },
        Kind::SystemState => STATE,
        Kind::TradingStatus => STATUS,
        Kind::SymbolClear => CLEAR,
        Kind::Add => ADD,
        Kind::Modify => MODIFY,
        Kind::Delete => DELETE,
        Kind::Execution => EXECUTION,
        Kind::Trade => TRADE,
        Kind::TradeCancel => CANCEL,
        Kind::Unknown => &[],
    }
}

// Which field of a message has a key.
pub fn key_named(e: Edition, k: Kind, w: &[u8]) -> Option<usize>
    ensures { result ≡ key_named e k w.now }
{
    rows(e, k).iter().position(|r| r.key.as_bytes() == w)
}

// ---- what fields that are left out have
// A message whose fields are all zeros where they are left out.
fn zeros_behind(t: u8) -> [u8; 42]
    ensures { result ≡ t ∷ zeros 41 }
{
    let mut b = [0; 42];
    b[0] = t;
    b
}

// Byte 20 of a Symbol Update: a type in 1.3, reserved behind it.
fn blank_20(e: Edition) -> u8
    ensures { result ≡ blank20 e }
{
    match e {
        Edition::V13 => b'E',
        Edition::V13b => 0,
    }
}

// A ticker of spaces, test N, lot 100, opening 09:30:00, closing 16:00:00, market H.
#[tactic(auto, unfolding(crate::specs::Keys::blank_body))]
fn blank_update(e: Edition) -> [u8; 42]
    ensures { result ≡ blank_body e Kind.SymbolUpdate }
{
    let mut b = zeros_behind(1);
    b[9..20].fill(b' ');
    b[20] = blank_20(e);
    b[21] = b'N';
    b[23] = 100;
    b[25..].copy_from_slice(b"09:30:0016:00:00H");
    b
}

// Version DoM1.3 and two spaces, session 1.
#[tactic(auto, unfolding(crate::specs::Keys::blank_body))]
fn blank_state() -> [u8; 42]
    ensures { result ≡ blank_body Edition.V13b Kind.SystemState }
{
    let mut b = zeros_behind(83);
    b[5..13].copy_from_slice(b"DoM1.3  ");
    b[13] = 1;
    b
}

// Market 3, short N.
#[tactic(auto, unfolding(crate::specs::Keys::blank_body))]
fn blank_status() -> [u8; 42]
    ensures { result ≡ blank_body Edition.V13b Kind.TradingStatus }
{
    let mut b = zeros_behind(4);
    b[10] = 3;
    b[11] = b'N';
    b
}

// Attributable spaces.
#[tactic(auto, unfolding(crate::specs::Keys::blank_body))]
fn blank_add() -> [u8; 42]
    ensures { result ≡ blank_body Edition.V13b Kind.Add }
{
    let mut b = zeros_behind(20);
    b[30..34].fill(b' ');
    b
}

// The body of a message whose fields are all left out (those that have to be written are zeros, and a ticker spaces), with zeros behind it.
#[tactic(auto, unfolding(crate::specs::Keys::blank_body))]
pub fn blank_body(e: Edition, k: Kind) -> [u8; 42]
    ensures { result ≡ blank_body e k }
{
    match k {
        Kind::SystemTime => zeros_behind(49),
        Kind::SymbolUpdate => blank_update(e),
        Kind::SystemState => blank_state(),
        Kind::TradingStatus => blank_status(),
        Kind::SymbolClear => zeros_behind(5),
        Kind::Add => blank_add(),
        Kind::Modify => zeros_behind(21),
        Kind::Delete => zeros_behind(23),
        Kind::Execution => zeros_behind(24),
        Kind::Trade => zeros_behind(10),
        Kind::TradeCancel => zeros_behind(11),
        Kind::Unknown => zeros_behind(0),
    }
}
