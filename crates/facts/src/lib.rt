// Laws only: choosing by a test, tests that the checker computes, searches and lists. No code runs from here.
#![tactic(auto)]

// The limits of documents 01 and 02, each by one name (specs/Limits.antt has its sentences).
pub const LAST_NUMBER: u64 = 1_000_000_000_000;

pub const MOST_PRICE: u64 = 1_000_000_000_000_000;

pub const MOST_NANOS: u32 = 999_999_999;

pub const PACKET_MOST: usize = 1_500;

pub const HOLD_LEAST: usize = 1_502;

pub const ENTRY_SIZE: usize = 42;

// "Raise the order table to 16,000 rows in the library; the sheet program keeps 1,600" (document 02, No. 9).
pub const MOST_ROWS: usize = 16_000;

pub const SHEET_ROWS: usize = 1_600;

pub const MOST_ENTRIES: usize = 1_000;

pub const SHELF_SIZE: usize = 4_736;
