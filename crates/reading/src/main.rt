// Reads packets behind two-byte lengths from standard input and prints what the readers find: the vectors of tools/vectors.py. A failed
// read or write ends it.
#![tactic(auto)]

ghost use Rattle.std.specs.Prelude.{length};
ghost use Rattle.std.specs.Iterator.{at_most};

use editions::Edition;
use fields::{Body, Fault, Symbol};
use kinds::Kind;
use packet::Why;
use std::env::Env;
use std::{fmt, io};
use streams::{Spaced, Word};
use wire::Number;

fn main(rt: HostRuntime) -> io::Result<()> {
    answer(&rt)
}

fn answer(rt: &(impl Env + Input + Print + Eprint)) -> io::Result<()> {
    let asked = words::edition_asked(
        streams::word_count(rt, usize::MAX),
        Word::<16>::at(rt, 1).as_slice(),
        Word::<16>::at(rt, 2).as_slice(),
    );
    let Some(e) = asked else {
        return rt.eprintln(
            "rimeheath: read takes no word but --edition with 1.3, 1.3.a or 1.3.b; the recording comes on standard input",
        );
    };
    read_all(rt, e)
}

// A proved loop has to end, so it counts its packets up to a number that no recording reaches.
fn read_all(rt: &(impl Input + Print), e: Edition) -> io::Result<()> {
    let mut held = [0; streams::LONGEST];
    let mut from = rt.reader();
    for _ in 0..u64::MAX {
        let Some(n) = streams::read_packet(&mut from, &mut held)? else {
            break;
        };
        show_packet(rt, e, &held[..n])?;
    }
    Ok(())
}

fn show_packet(rt: &impl Print, e: Edition, p: &[u8]) -> io::Result<()> {
    match packet::read_packet(e, p) {
        Err(Why::Alone(r)) => println!(rt; "refused {}", r.number),
        Err(Why::Placed(f)) => {
            print!(rt; "refused {} at {}: record", f.number, f.at)?;
            show_first_bad(rt, e, p)
        }
        Ok(n) => {
            println!(rt; "records {n}")?;
            show_records(rt, e, p)
        }
    }
}

// The records of a packet one by one, each with its header, by the lengths that the headers tell; the last may be cut.
#[derive(Drop)]
struct Records<'a>(&'a [u8]);

impl<'a> Iterator for Records<'a> {
    type Item = &'a [u8];

    ghost remaining = { λ r. at_most (length r.0.now) };

    fn next(&mut self) -> Option<&'a [u8]> {
        if self.0.is_empty() {
            return None;
        }
        let n = packet::head_at(self.0, 0).len.saturating_add(10);
        let (t, rest) = self.0.split_at(n.min(self.0.len()));
        self.0 = rest;
        Some(t)
    }
}

// The first bad record, counted from 1, and what in it is wrong.
fn show_first_bad(rt: &impl Print, e: Edition, p: &[u8]) -> io::Result<()> {
    for (i, t) in (1..u64::MAX).zip(Records(p)) {
        if let Err(f) = packet::read_record(e, t) {
            print!(rt; " {i}, {}", slip_of(t, f))?;
            break;
        }
    }
    rt.println("")
}

// What is wrong in a bad record: of a message, where the record has one.
#[derive(Clone, Copy)]
struct Slip {
    of: Option<Kind>,
    what: &'static str,
}

impl fmt::Display for Slip {
    fn fmt<W: fmt::Write>(&self, f: &mut fmt::Formatter<W>) -> fmt::Result {
        if let Some(k) = self.of {
            write!(f, "{}, ", name_of(k))?;
        }
        write!(f, "{}", self.what)
    }
}

fn slip_of(t: &[u8], f: Fault) -> Slip {
    let b = packet::body_at(t, 0);
    let k = Kind::from(u8::at(b, 0));
    match f.number {
        5 => alone("sequence number"),
        2 if t.len() < 10 => alone("unfinished header"),
        2 => alone("body past the end"),
        _ if b.is_empty() => alone("empty body"),
        4 => Slip {
            of: Some(k),
            what: field_at(k, f.at),
        },
        _ if k == Kind::Unknown => alone("unknown type"),
        _ => Slip {
            of: Some(k),
            what: "wrong length",
        },
    }
}

fn alone(what: &'static str) -> Slip {
    Slip { of: None, what }
}

fn name_of(k: Kind) -> &'static str {
    match k {
        Kind::SystemTime => "System Time",
        Kind::SymbolUpdate => "Symbol Update",
        Kind::SystemState => "System State",
        Kind::TradingStatus => "Security Trading Status",
        Kind::SymbolClear => "Symbol Clear",
        Kind::Add => "Add Order",
        Kind::Modify => "Modify Order",
        Kind::Delete => "Delete Order",
        Kind::Execution => "Order Execution",
        Kind::Trade => "Trade",
        Kind::TradeCancel => "Trade Cancel",
        Kind::Unknown => "unknown type",
    }
}

// The judged field of a message that starts at a place of its record. The Timestamp is the first field of all that have one; price and size
// stand side by side.
fn field_at(k: Kind, at: usize) -> &'static str {
    match (k, at) {
        (_, 11) => "nanoseconds",
        (Kind::SymbolUpdate, 30) => "security type",
        (Kind::SymbolUpdate, 31) => "test indicator",
        (Kind::SymbolUpdate, _) => "market",
        (Kind::Add, 27) => "side",
        (Kind::Modify, 27) | (Kind::Execution, 35) => "price",
        (Kind::Modify | Kind::Execution, _) => "size",
        (_, 28) => "price",
        _ => "size",
    }
}

// Each record's number, the type byte, and the fields in the order of their places.
fn show_records(rt: &impl Print, e: Edition, p: &[u8]) -> io::Result<()> {
    for t in Records(p) {
        let b = packet::body_at(t, 0);
        print!(rt; "{} {}", packet::head_at(t, 0).number, u8::at(b, 0))?;
        show_fields(rt, e, b)?;
        rt.println("")?;
    }
    Ok(())
}

fn show_fields(rt: &impl Print, e: Edition, b: &[u8]) -> io::Result<()> {
    match body::read_body(e, b) {
        Body::SystemTime(seconds) => print!(rt; " {seconds}"),
        Body::SymbolUpdate(m) => show_symbol(rt, m.symbol, body::security_in(e, b)),
        Body::SystemState(m) => print!(rt;
            " {}{} {} {}",
            m.nanos,
            Spaced(&m.version),
            m.session,
            m.status
        ),
        Body::TradingStatus(m) => print!(rt;
            " {} {} {} {} {}",
            m.nanos, m.symbol, m.trading, m.market, m.short
        ),
        Body::SymbolClear(m) => print!(rt; " {} {}", m.nanos, m.symbol),
        Body::Add(m) => print!(rt;
            " {} {} {} {} {} {} {}",
            m.nanos, m.symbol, m.order, m.side, m.price, m.size, m.attributable
        ),
        Body::Modify(m) => print!(rt;
            " {} {} {} {} {} {}",
            m.nanos, m.symbol, m.order, m.price, m.size, m.flags
        ),
        Body::Delete(m) => print!(rt; " {} {} {}", m.nanos, m.symbol, m.order),
        Body::Execution(m) => print!(rt;
            " {} {} {} {} {} {} {}",
            m.nanos, m.symbol, m.order, m.trade, m.price, m.size, m.flags
        ),
        Body::Trade(m) => print!(rt;
            " {} {} {} {} {} {} {}",
            m.nanos, m.symbol, m.trade, m.correction, m.price, m.size, m.flags
        ),
        Body::TradeCancel(m) => print!(rt;
            " {} {} {} {} {} {}",
            m.nanos, m.symbol, m.trade, m.correction, m.price, m.size
        ),
        Body::Bad(f) => print!(rt; " {}", f.number),
    }
}

// The Security Type, where there is one, stands behind the ticker.
fn show_symbol(rt: &impl Print, s: Symbol, security: Option<u8>) -> io::Result<()> {
    print!(rt; " {}{}", s.id, Spaced(&s.ticker))?;
    if let Some(y) = security {
        print!(rt; " {y}")?;
    }
    print!(rt;
        " {}{}{} {}",
        s.lot,
        Spaced(&s.opening),
        Spaced(&s.closing),
        s.market
    )
}
