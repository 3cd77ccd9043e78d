// Which Security Type a symbol gets where a recording is made one of 1.3, and byte 20 of a Symbol Update as another edition has it.
#![tactic(auto)]

ghost use Rattle.std.specs.Prelude.{◌≡◌};
ghost use Rattle.retype.specs.Types.{whole_exceptions, names_symbol, type_for, types_ok};
ghost use Rattle.retype.specs.Retyped.{byte_in, retyping, retypes, asked_of};

use editions::Edition;
use fields::Symbol;
use wire::Number;

// The bytes of an exception.
pub const EXCEPTION_SIZE: usize = 13;

// What is asked for: the edition, and for 1.3 the type of all symbols and the exceptions from it, one behind the other.
#[derive(Clone, Copy)]
pub struct Asked<'a> {
    pub to: Edition,
    pub all: u8,
    pub others: &'a [u8],
}

// Whole exceptions, none too.
#[tactic(auto, unfolding(crate::specs::Types::whole_exceptions))]
pub fn whole_exceptions(n: usize) -> bool
    ensures { result ≡ whole_exceptions n }
{
    n % EXCEPTION_SIZE == 0
}

// The exception names the symbol, by ID or by ticker.
#[tactic(auto, using(crate::proofs::ExceptionLaws::same_eq), unfolding(crate::specs::Types::names_symbol, facts::specs::Pick::pick, facts::specs::Pick::both))]
fn names(x: &[u8], s: &Symbol) -> bool
    ensures { result ≡ names_symbol x.now s.now }
{
    match u8::at(x, 0) {
        0 => u32::at(x, 1) == s.id,
        1 => wire::bytes_at::<11>(x, 1) == s.ticker,
        _ => false,
    }
}

impl Asked<'_> {
    // The type of the first exception that names the symbol of a Symbol Update, else the one for all.
    pub fn type_for(&self, b: &[u8]) -> u8
        ensures { result ≡ type_for self.now.all self.now.others.now b.now }
    {
        if self.others.is_empty() {
            return self.all;
        }
        let s = fields::symbol_of(b);
        self.others
            .chunks_exact(EXCEPTION_SIZE)
            .find(|x| names(x, &s))
            .map_or(self.all, |x| u8::at(x, 12))
    }

    // Each type that is asked for is one of the edition's.
    pub fn types_ok(&self) -> bool
        ensures { result ≡ types_ok self.now.to self.now.all self.now.others.now }
    {
        body::security_ok(self.to, self.all)
            && self
                .others
                .chunks_exact(EXCEPTION_SIZE)
                .all(|x| body::security_ok(self.to, u8::at(x, 12)))
    }

    // A body as the edition asked for has it; whether it is a Symbol Update.
    #[tactic(auto, unfolding(crate::specs::Retyped::retyped, crate::specs::Retyped::is_update, facts::specs::Pick::pick))]
    pub fn retype_body(&self, b: &mut [u8]) -> bool
        ensures { retyping result b.new ≡ retypes (asked_of self.now) b.old }
    {
        if u8::at(b, 0) != 1 {
            return false;
        }
        if 20 < b.len() {
            b[20] = byte_in(self.to, self.type_for(b));
        }
        true
    }
}

// Byte 20 of a Symbol Update in an edition.
fn byte_in(e: Edition, y: u8) -> u8
    ensures { result ≡ byte_in e y }
{
    match e {
        Edition::V13 => y,
        Edition::V13b => 0,
    }
}
