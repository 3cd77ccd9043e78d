// The shortest program that writes a recording: document 01's example, numbers 1 to 5 in one packet behind its length, on standard output.
#![tactic(auto)]

use editions::Edition;
use fields::{AddOrder, Symbol, SymbolUpdate};
use packet::Why;
use std::io;

// Where something is refused, nothing is printed.
fn main(rt: HostRuntime) -> io::Result<()> {
    let mut recording = [0; 256];
    let n = compose(&mut recording).unwrap_or(0);
    rt.write_all(recording.get(..n).unwrap_or(&[]))
}

// The recording's length.
fn compose(recording: &mut [u8]) -> Result<usize, Why> {
    let mut packet = [0; 256];
    let n = append(&mut packet, 0, 1, &encode::time_body(34200))?;
    let n = append(&mut packet, n, 2, &encode::update_body(listing()))?;
    let n = append(&mut packet, n, 3, &order(500, b'B', 10_000_000, 100))?;
    let n = append(&mut packet, n, 4, &order(501, b'S', 10_020_000, 200))?;
    let n = append(&mut packet, n, 5, &order(502, b'B', 10_000_000, 50))?;
    writer::append_packet(Edition::V13b, recording, 0, packet.get(..n).unwrap_or(&[]))
}

// A record behind the packet so far: its new length.
fn append(packet: &mut [u8], used: usize, number: u64, body: &[u8]) -> Result<usize, Why> {
    writer::append(Edition::V13b, packet, used, number, body)
}

// A limit order of symbol 7, without an attribution: four spaces.
fn order(id: u64, side: u8, price: u64, size: u32) -> [u8; 34] {
    encode::add_body(AddOrder {
        nanos: 0,
        symbol: 7,
        order: id,
        side,
        price,
        size,
        attributable: u32::from_le_bytes(*b"    "),
    })
}

fn listing() -> SymbolUpdate {
    SymbolUpdate {
        nanos: 0,
        symbol: Symbol {
            id: 7,
            ticker: *b"ABC        ",
            opening: *b"09:30:00",
            closing: *b"16:00:00",
            lot: 100,
            market: b'H',
        },
        security: 0,
        test: b'N',
        reserved: 0,
    }
}
