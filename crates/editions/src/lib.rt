// The editions of the feed's specification by which a recording is read (document 02, No. 10). One is chosen at a receiver's start.
#![tactic(auto)]

ghost use Rattle.std.specs.Prelude.{◌≡◌};
ghost use Rattle.editions.specs.Editions.{number_of, edition_of};

// 1.3, of 2020; and 1.3.a with 1.3.b, which are read alike.
#[derive(Clone, Copy, Debug, PartialEq, Eq)]
pub enum Edition {
    V13,
    V13b,
}

// The number that stands for an edition in lent memory.
impl From<Edition> for u64 {
    ghost from_gives = { λ e n. n ≡ number_of e };

    fn from(e: Edition) -> u64 {
        match e {
            Edition::V13 => 1,
            Edition::V13b => 0,
        }
    }
}

// The edition that any number stands for.
impl From<u64> for Edition {
    ghost from_gives = { λ n e. e ≡ edition_of n };

    #[tactic(auto, unfolding(crate::specs::Editions::edition_of, facts::specs::Pick::pick))]
    fn from(n: u64) -> Edition {
        if n == 1 { Edition::V13 } else { Edition::V13b }
    }
}
