// The eleven messages: which of them a type byte decides, and how long each is (docs/MESSAGES.md).
#![tactic(auto)]

ghost use Rattle.std.specs.Prelude.{◌≡◌};
ghost use Rattle.kinds.specs.Table.{length_of, kind_of};

// The kind of a message; Unknown is refusal 3 (`refusal_of` of specs/; `type_refused` of body says that reading goes by it).
#[derive(Clone, Copy, Debug, PartialEq, Eq)]
pub enum Kind {
    SystemTime,
    SymbolUpdate,
    SystemState,
    TradingStatus,
    SymbolClear,
    Add,
    Modify,
    Delete,
    Execution,
    Trade,
    TradeCancel,
    Unknown,
}

#[derive(Clone, Copy, Debug, PartialEq, Eq)]
pub struct Pair {
    pub code: u8,
    pub len: u8,
}

// Type and length of each message, in the order of document 003's sections: the one table that framing and writing read.
const TABLE: [Pair; 11] = [
    Pair { code: 49, len: 5 },
    Pair { code: 1, len: 42 },
    Pair { code: 83, len: 15 },
    Pair { code: 4, len: 12 },
    Pair { code: 5, len: 9 },
    Pair { code: 20, len: 34 },
    Pair { code: 21, len: 30 },
    Pair { code: 23, len: 17 },
    Pair { code: 24, len: 38 },
    Pair { code: 10, len: 31 },
    Pair { code: 11, len: 30 },
];

// The type byte decides the message.
impl From<u8> for Kind {
    ghost from_gives = { λ t k. k ≡ kind_of t };

    #[tactic(auto, unfolding(crate::specs::Table::kind_of, facts::specs::Pick::pick))]
    #[inline(always)]
    fn from(t: u8) -> Kind {
        match t {
            49 => Kind::SystemTime,
            1 => Kind::SymbolUpdate,
            83 => Kind::SystemState,
            4 => Kind::TradingStatus,
            5 => Kind::SymbolClear,
            20 => Kind::Add,
            21 => Kind::Modify,
            23 => Kind::Delete,
            24 => Kind::Execution,
            10 => Kind::Trade,
            11 => Kind::TradeCancel,
            _ => Kind::Unknown,
        }
    }
}

// The length that the table gives a type, 0 where it has no such type. All pairs are looked at, since no type is in two of them, so that
// no branch hangs on the type.
pub fn length_of(t: u8) -> usize
    ensures { result ≡ length_of t }
{
    let mut n = 0;
    for m in TABLE {
        if m.code == t {
            n = m.len as usize;
        }
    }
    n
}
