// The shortest way from a recording to its sheet, to start from: lend tables, start a receiver, feed it, print.
// It reads no more than 4,096 bytes, and a failed read or write ends it; the program `sheet` reads all and tells of a failure in its own words.
#![tactic(auto)]

use answer_sheet::Recording;
use editions::Edition;
use fields::Refusal;
use std::io;

fn main(rt: HostRuntime) -> io::Result<()> {
    let mut block = [0; 4096];
    let mut text = [0; 4096];
    let n = streams::read_full(&mut rt.reader(), &mut block)?;
    match sheet(&block[..n], &mut text) {
        Ok(n) => rt.write_all(text::front(&text, n)),
        Err(_) => rt.println("refused"),
    }
}

// Three rows and one entry: what document 01's example needs. So few are searched sooner than looked up, and no index is lent.
fn sheet(chunk: &[u8], text: &mut [u8]) -> Result<usize, Refusal> {
    let mut orders = [0; 3 * rows::ROW_SIZE];
    let mut symbols = [0; facts::ENTRY_SIZE];
    let mut shelf = [0; facts::SHELF_SIZE];
    let mut index = [];
    let mut hold = [0; facts::HOLD_LEAST];
    let s = receiver::start(
        Edition::V13b,
        &mut orders,
        &mut symbols,
        &mut shelf,
        &mut index,
    )?;
    let s = recording::feed(
        &mut orders,
        &mut symbols,
        &mut shelf,
        &mut index,
        &mut hold,
        recording::open(s),
        chunk,
    )?;
    let word = if recording::is_cut(s) {
        Recording::Cut
    } else {
        Recording::Whole
    };
    answer_sheet::sheet(text, &orders, &symbols, s.receiver, s.bad, word)
}
