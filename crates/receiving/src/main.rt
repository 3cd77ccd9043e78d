// Plays a recording from standard input packet by packet, prints each answer, and then the tables and the views: what the second
// program prints of the same recording (second/src/bin/answers.rs). A failed read or write ends it.
#![tactic(auto)]

use editions::Edition;
use packet::Why;
use receiver::Account;
use std::env::Env;
use std::io;
use streams::{Spaced, Word};
use views::Side;

// The capacities of the program `sheet`: five numbers a row.
const ORDERS: usize = rows::ROW_SIZE * facts::SHEET_ROWS;

const SYMBOLS: usize = facts::ENTRY_SIZE * facts::MOST_ENTRIES;

// Every row may make a level, of three numbers.
const LEVELS: usize = 3 * facts::SHEET_ROWS;

fn main(rt: HostRuntime) -> io::Result<()> {
    answer(&rt)
}

fn answer(rt: &(impl Env + Input + Print + Eprint)) -> io::Result<()> {
    let asked = words::edition_asked(
        streams::word_count(rt, usize::MAX),
        Word::<16>::at(rt, 1).as_slice(),
        Word::<16>::at(rt, 2).as_slice(),
    );
    let Some(e) = asked else {
        return rt.eprintln(
            "rimeheath: answers takes no word but --edition with 1.3, 1.3.a or 1.3.b; the recording comes on standard input",
        );
    };
    play(rt, e)
}

// A proved loop has to end, so it counts its packets up to a number that no recording reaches.
fn play(rt: &(impl Input + Print), e: Edition) -> io::Result<()> {
    let mut orders = [0; ORDERS];
    let mut symbols = [0; SYMBOLS];
    let mut shelf = [0; facts::SHELF_SIZE];
    let mut index = [0; index::INDEX_SIZE];
    let mut held = [0; streams::LONGEST];
    let mut from = rt.reader();
    let Ok(mut state) = receiver::start(e, &mut orders, &mut symbols, &mut shelf, &mut index) else {
        return rt.println("refused");
    };
    for _ in 0..u64::MAX {
        let Some(n) = streams::read_packet(&mut from, &mut held)? else {
            break;
        };
        let reply = receiver::receive(
            &mut orders,
            &mut symbols,
            &mut shelf,
            &mut index,
            state,
            &held[..n],
        );
        show_answer(rt, reply.answer)?;
        state = reply.state;
    }
    println!(rt; "second {}", state.clock.second)?;
    show_rows(rt, &orders)?;
    show_entries(rt, &symbols)?;
    show_views(rt, &orders, &symbols)
}

fn show_answer(rt: &impl Print, a: Result<Account, Why>) -> io::Result<()> {
    match a {
        Err(Why::Alone(r)) => println!(rt; "refused {}", r.number),
        Err(Why::Placed(f)) => println!(rt; "refused {} at {}", f.number, f.at),
        Ok(a) => {
            let c = a.counts;
            print!(rt;
                "{} {} {} {} {}",
                c.taken, c.old, c.far, c.repeated, c.differing
            )?;
            println!(rt; " {} {} {} {}", a.next, a.applied, a.highest, a.stop)
        }
    }
}

fn show_rows(rt: &impl Print, orders: &[u64]) -> io::Result<()> {
    for i in 0..rows::row_count(orders) {
        let r = rows::row_at(orders, i);
        if !rows::is_free(r) {
            println!(rt;
                "row {i} {} {} {} {} {}",
                r.order, r.key, r.price, r.size, r.rank
            )?;
        }
    }
    Ok(())
}

fn show_entries(rt: &impl Print, symbols: &[u8]) -> io::Result<()> {
    for i in 0..symbols::entry_count(symbols) {
        if symbols::is_used_at(symbols, i) {
            println!(rt; "entry {i}{}", Spaced(symbols::entry_bytes(symbols, i)))?;
        }
    }
    Ok(())
}

fn show_views(rt: &impl Print, orders: &[u64], symbols: &[u8]) -> io::Result<()> {
    for i in 0..symbols::entry_count(symbols) {
        if symbols::is_used_at(symbols, i) {
            show_symbol(rt, orders, symbols, symbols::entry_at(symbols, i).id)?;
        }
    }
    Ok(())
}

// How many levels each side has, the spread, and then the levels. One array serves both sides in turn, so that the stack has room for it;
// the sell side's ladder is made twice for that, the first time for its count alone.
fn show_symbol(rt: &impl Print, orders: &[u64], symbols: &[u8], id: u32) -> io::Result<()> {
    let mut levels = [0; LEVELS];
    let sold = views::ladder(orders, symbols, id, Side::Sell, &mut []).unwrap_or(0);
    let bought = views::ladder(orders, symbols, id, Side::Buy, &mut levels).unwrap_or(0);
    print!(rt; "symbol {id} {bought} {sold} ")?;
    match views::spread(orders, symbols, id) {
        Ok(Some(z)) => rt.println(z)?,
        Ok(None) => rt.println("none")?,
        Err(_) => rt.println("refused")?,
    }
    show_levels(rt, "bid", &levels, bought)?;
    let sold = views::ladder(orders, symbols, id, Side::Sell, &mut levels).unwrap_or(0);
    show_levels(rt, "ask", &levels, sold)
}

fn show_levels(rt: &impl Print, key: &str, levels: &[u64], n: usize) -> io::Result<()> {
    for level in levels.chunks_exact(3).take(n) {
        if let [price, size, orders] = level {
            println!(rt; "{key} {price} {size} {orders}")?;
        }
    }
    Ok(())
}
