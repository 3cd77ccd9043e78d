// Numbers, the shelf, and what a receiver makes of records (demand 3), over any book and any way to keep 64 slots. Laws only: no code runs from here.
#![tactic(auto)]

// How many records got each answer, 10 to 14: of a packet, or of all packets so far.
#[derive(Clone, Copy, Debug, Default, PartialEq, Eq)]
pub struct Counts {
    pub taken: u64,
    pub old: u64,
    pub far: u64,
    pub repeated: u64,
    pub differing: u64,
}
