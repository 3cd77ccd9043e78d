// The exports for other languages (include/rimeheath.h): each is the call of `api` that has its name, under the same clauses, with the symbol
// that C and Rust link. A crate is a library or a static library; this one is the archive, and `api` the library.
#![tactic(auto)]

ghost use Rattle.std.specs.Prelude.{◌≡◌};
ghost use Rattle.editions.specs.Editions.{edition_of};
ghost use Rattle.receiver.specs.Lent.{lent, received, started};
ghost use Rattle.views.specs.Views.{ladder_view, spread_view, counts_view};
ghost use Rattle.packet.specs.Record.{read_record};
ghost use Rattle.packet.specs.Packet.{read_packet};
ghost use Rattle.body.specs.Read.{judge_body, read_body};
ghost use Rattle.answer_sheet.specs.Sheet.{sheet_view};
ghost use Rattle.recording.specs.Stream.{opened, fed, cut as is_cut};
ghost use Rattle.retype.specs.Retyped.{asked};
ghost use Rattle.conversion.specs.Packet.{converted};
ghost use Rattle.conversion.specs.Piece.{turned_to};
ghost use Rattle.writer.specs.Append.{numbers_appended, packet_appended};
ghost use Rattle.api.specs.Writing.{write_answer};
ghost use Rattle.api.specs.Conversions.{convert_call, convert_answer, piece_answer};
ghost use Rattle.api.specs.Calls.{state_in, side_asked, start_call, start_answer, receive_call, receive_answer, fill_call, ladder_answer, call, spread_answer, counts_answer, packet_answer, record_answer, word_of, sheet_answer};
ghost use Rattle.api.specs.Streams.{stream_from, open_answer, feed_call, feed_answer};
ghost use Rattle.api.specs.Messages.{body_answer};

// Starts a receiver of an edition: the tables are zeroed, the index is made if one is lent, and state becomes next 1, second 0, stop 0 and the edition's number.
#[unsafe(no_mangle)]
pub extern "C" fn rimeheath_start(
    edition: u64,
    orders: &mut [u64],
    symbols: &mut [u8],
    shelf: &mut [u8],
    index: &mut [u64],
    state: &mut [u64; 4],
) -> u8
    ensures { start_call result state.new orders.new symbols.new shelf.new index.new ≡ start_answer (started (edition_of edition) orders.old symbols.old shelf.old index.old) state.old }
{
    api::rimeheath_start(edition, orders, symbols, shelf, index, state)
}

// Gives a packet to a receiver: state and account become what they are after it.
#[unsafe(no_mangle)]
pub extern "C" fn rimeheath_receive(
    orders: &mut [u64],
    symbols: &mut [u8],
    shelf: &mut [u8],
    index: &mut [u64],
    state: &mut [u64; 4],
    p: &[u8],
    account: &mut [u64; 9],
) -> u32
    ensures { receive_call result state.new account.new orders.new symbols.new shelf.new index.new ≡ receive_answer (received (lent orders.old symbols.old shelf.old index.old (state_in state.old)) p.now) state.old account.old }
{
    api::rimeheath_receive(orders, symbols, shelf, index, state, p, account)
}

// Opens a stream over a receiver, before the first chunk of a recording.
#[unsafe(no_mangle)]
pub extern "C" fn rimeheath_open(state: &[u64; 4], stream: &mut [u64; 14]) -> u8
    ensures { call result stream.new ≡ open_answer (opened (state_in state.now)) }
{
    api::rimeheath_open(state, stream)
}

// Gives the next chunk of a recording: the stream, the tables and the buffer become what they are after it.
#[unsafe(no_mangle)]
pub extern "C" fn rimeheath_feed(
    orders: &mut [u64],
    symbols: &mut [u8],
    shelf: &mut [u8],
    index: &mut [u64],
    hold: &mut [u8],
    stream: &mut [u64; 14],
    chunk: &[u8],
) -> u8
    ensures { feed_call result stream.new orders.new symbols.new shelf.new index.new hold.new ≡ feed_answer (fed (stream_from stream.old) orders.old symbols.old shelf.old index.old hold.old chunk.now) stream.old }
{
    api::rimeheath_feed(orders, symbols, shelf, index, hold, stream, chunk)
}

// Whether a recording that ends here ends inside a length or packet.
#[unsafe(no_mangle)]
pub extern "C" fn rimeheath_cut(stream: &[u64; 14]) -> bool
    ensures { result ≡ is_cut (stream_from stream.now) }
{
    api::rimeheath_cut(stream)
}

// The ladder of a symbol and side: the levels that fit into the run, and the number of all.
#[unsafe(no_mangle)]
pub extern "C" fn rimeheath_ladder(
    orders: &[u64],
    symbols: &[u8],
    symbol: u32,
    sell: bool,
    run: &mut [u64],
    levels: &mut [u64; 1],
) -> u8
    ensures { fill_call result levels.new run.new ≡ ladder_answer (ladder_view (side_asked sell) symbol orders.now symbols.now run.old) levels.old }
{
    api::rimeheath_ladder(orders, symbols, symbol, sell, run, levels)
}

// The spread of a symbol: 1 and the signed number as 64 bits, or two zeros where a side is empty.
#[unsafe(no_mangle)]
pub extern "C" fn rimeheath_spread(
    orders: &[u64],
    symbols: &[u8],
    symbol: u32,
    answer: &mut [u64; 2],
) -> u8
    ensures { call result answer.new ≡ spread_answer (spread_view symbol orders.now symbols.now) answer.old }
{
    api::rimeheath_spread(orders, symbols, symbol, answer)
}

// Live orders and used entries.
#[unsafe(no_mangle)]
pub extern "C" fn rimeheath_counts(orders: &[u64], symbols: &[u8], counts: &mut [u64; 2]) -> u8
    ensures { call result counts.new ≡ counts_answer (counts_view orders.now symbols.now) counts.old }
{
    api::rimeheath_counts(orders, symbols, counts)
}

// Judges a packet of an edition: the number of its records.
#[unsafe(no_mangle)]
pub extern "C" fn rimeheath_packet(edition: u64, p: &[u8], records: &mut [u64; 1]) -> u32
    ensures { call result records.new ≡ packet_answer (read_packet (edition_of edition) p.now) records.old }
{
    api::rimeheath_packet(edition, p, records)
}

// Judges the first record of what is left of a packet of an edition: its number, and the length of its body.
#[unsafe(no_mangle)]
pub extern "C" fn rimeheath_record(edition: u64, rest: &[u8], head: &mut [u64; 2]) -> u32
    ensures { call result head.new ≡ record_answer (read_record (edition_of edition) rest.now) head.old }
{
    api::rimeheath_record(edition, rest, head)
}

// Judges a body of an edition, and reads all fields of a good one: its numbers, of which the first is its type, and its text.
#[unsafe(no_mangle)]
pub extern "C" fn rimeheath_body(
    edition: u64,
    b: &[u8],
    fields: &mut [u64; 8],
    text: &mut [u8; 28],
) -> u32
    ensures { fill_call result fields.new text.new ≡ body_answer (edition_of edition) (judge_body (edition_of edition) b.now) (read_body (edition_of edition) b.now) b.now fields.old text.old }
{
    api::rimeheath_body(edition, b, fields, text)
}

// The answer sheet, as far as the buffer reaches, and how long the whole of it is.
#[unsafe(no_mangle)]
pub extern "C" fn rimeheath_sheet(
    buf: &mut [u8],
    orders: &[u64],
    symbols: &[u8],
    state: &[u64; 4],
    bad: u64,
    cut: bool,
    length: &mut [u64; 1],
) -> u8
    ensures { fill_call result length.new buf.new ≡ sheet_answer (sheet_view (word_of cut) bad (state_in state.now) orders.now symbols.now buf.old) length.old }
{
    api::rimeheath_sheet(buf, orders, symbols, state, bad, cut, length)
}

// Makes a packet of one edition one of another, in place: how many Symbol Updates it has.
#[unsafe(no_mangle)]
pub extern "C" fn rimeheath_convert(
    from: u64,
    to: u64,
    kind: u8,
    others: &[u8],
    p: &mut [u8],
    updates: &mut [u64; 1],
) -> u32
    ensures { convert_call result p.new updates.new ≡ convert_answer (converted (edition_of from) (asked (edition_of to) kind others.now) p.old) updates.old }
{
    api::rimeheath_convert(from, to, kind, others, p, updates)
}

// The same of the whole packets at the front of a piece of a recording: their bytes, and what was counted of them.
#[unsafe(no_mangle)]
pub extern "C" fn rimeheath_convert_piece(
    from: u64,
    to: u64,
    kind: u8,
    others: &[u8],
    b: &mut [u8],
    counts: &mut [u64; 4],
) -> u8
    ensures { convert_call result b.new counts.new ≡ piece_answer (turned_to (edition_of from) (asked (edition_of to) kind others.now) b.old) counts.old }
{
    api::rimeheath_convert_piece(from, to, kind, others, b, counts)
}

// Writes a record behind the packet so far, from the numbers and the text in which rimeheath_body gives a message: the packet's new length.
#[unsafe(no_mangle)]
pub extern "C" fn rimeheath_append(
    edition: u64,
    memory: &mut [u8],
    used: usize,
    number: u64,
    fields: &[u64; 8],
    text: &[u8; 28],
    length: &mut [u64; 1],
) -> u32
    ensures { fill_call result length.new memory.new ≡ write_answer (numbers_appended (edition_of edition) memory.old used number fields.now text.now) length.old }
{
    api::rimeheath_append(edition, memory, used, number, fields, text, length)
}

// Writes a packet, behind its length, behind the recording so far: the recording's new length.
#[unsafe(no_mangle)]
pub extern "C" fn rimeheath_append_packet(
    edition: u64,
    memory: &mut [u8],
    used: usize,
    p: &[u8],
    length: &mut [u64; 1],
) -> u32
    ensures { fill_call result length.new memory.new ≡ write_answer (packet_appended (edition_of edition) memory.old used p.now) length.old }
{
    api::rimeheath_append_packet(edition, memory, used, p, length)
}
