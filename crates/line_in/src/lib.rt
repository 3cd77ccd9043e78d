// Reads a line of a morning's text: a record, or at which column it is wrong and what was expected there (docs/TEXT.md).
#![tactic(auto)]

ghost use Rattle.std.specs.Prelude.{◌≡◌, ◌+◌, ◌<◌, ◌≤◌, length, Ok, option_map};
ghost use Rattle.keys.specs.Keys.{entries_of, form_at};
ghost use Rattle.spans.specs.Spans.{line_most, uncommented};
ghost use Rattle.spans.specs.Left.{told, words_left};
ghost use Rattle.line_in.specs.Slips.{slip_at};
ghost use Rattle.line_in.specs.Lines.{blank_draft, take_field, take_word, take_all, missing, field_at, range_slip, finished, number_of, kind_of, read_record, read_line};

use editions::Edition;
use keys::Form;
use kinds::Kind;
use spans::{Word, Words};

// The longest line.
pub const LINE_MOST: usize = spans::LINE_MOST;

// What was expected where a line is wrong; of a message and of its field, where there is one.
#[derive(Clone, Copy, PartialEq, Eq, Debug)]
pub enum Expected {
    Shorter,
    Number,
    Name,
    Key(Kind),
    Once(Kind, usize),
    Value(Kind, usize),
    Needed(Kind, usize),
    Range(Kind, usize),
}

// Where a line is wrong, from 1, and what was expected there.
#[derive(Clone, Copy, PartialEq, Eq, Debug)]
pub struct Slip {
    pub column: usize,
    pub expected: Expected,
}

// What a line is; of a record its number, and its body, which has so many bytes and zeros behind them.
#[derive(Clone, Copy, PartialEq, Eq, Debug)]
pub enum Line {
    Blank,
    Comment,
    Record {
        number: u64,
        body: [u8; 42],
        length: usize,
    },
}

// At the byte at a place of the line, whose columns count from 1.
fn slip_at(place: usize, expected: Expected) -> Slip
    requires { place ≤ line_most }
    ensures { result ≡ slip_at place expected }
{
    Slip {
        column: place + 1,
        expected,
    }
}

// A record so far: its message, its body of so many bytes, and of each field the column of its value, where that is written.
#[derive(Clone, Copy, PartialEq, Eq, Debug)]
pub struct Draft {
    pub edition: Edition,
    pub kind: Kind,
    pub length: usize,
    pub body: [u8; 42],
    pub columns: [Option<usize>; 10],
}

// A record whose fields are all left out.
#[tactic(auto, using(keys::proofs::Laws::blank_type), unfolding(kinds::specs::Table::kind_length))]
fn blank_draft(edition: Edition, kind: Kind) -> Draft
    ensures { result ≡ blank_draft edition kind }
{
    let body = keys::blank_body(edition, kind);
    Draft {
        edition,
        kind,
        length: kinds::length_of(body[0]),
        body,
        columns: [None; 10],
    }
}

// The form of a message's field i.
#[tactic(auto, using(keys::proofs::Laws::fields_inside))]
fn form_at(e: Edition, k: Kind, i: usize) -> Form
    requires { i < length (entries_of e k) }
    ensures form { result ≡ form_at e k i }
    ensures inside { result.at + result.width ≤ 42 }
{
    keys::rows(e, k)[i].form
}

// The value of field i, which is written once; its word stands at one place of the line, and itself at another.
#[tactic(auto, unfolding(crate::specs::Lines::take_field, crate::specs::Lines::take_value, facts::specs::Pick::pick))]
fn take_field(
    mut draft: Draft,
    i: usize,
    at: usize,
    place: usize,
    value: &[u8],
) -> Result<Draft, Slip>
    requires known { i < length (entries_of draft.edition draft.kind) }
    requires word { at ≤ line_most }
    requires behind { place ≤ line_most }
    ensures { result ≡ take_field draft i at place value.now }
{
    if draft.columns[i].is_some() {
        return Err(slip_at(at, Expected::Once(draft.kind, i)));
    }
    let f = form_at(draft.edition, draft.kind, i);
    let field = &mut draft.body[f.at..f.at + f.width];
    if values::value_in(f.style, value, field).is_err() {
        return Err(slip_at(place, Expected::Value(draft.kind, i)));
    }
    draft.columns[i] = Some(place + 1);
    Ok(draft)
}

// A word that is a key and its value.
#[tactic(auto, using(keys::proofs::Laws::named_inside), unfolding(crate::specs::Lines::take_word, crate::specs::Lines::take_parted, crate::specs::Lines::take_keyed))]
fn take_word(draft: Draft, w: Word<'_>) -> Result<Draft, Slip>
    ensures { result ≡ take_word (told w.entry) draft }
{
    let unknown = slip_at(w.at, Expected::Key(draft.kind));
    let p = spans::place_of(w.bytes, b'=').ok_or(unknown)?;
    let i = keys::key_named(draft.edition, draft.kind, &w.bytes[..p]).ok_or(unknown)?;
    take_field(draft, i, w.at, w.at + p + 1, &w.bytes[p + 1..])
}

// All words up to a comment, of which no more than its first byte is read.
#[tactic(auto, using(crate::proofs::Laws::taken_err), unfolding(crate::specs::Lines::take_all, spans::specs::Spans::uncommented, spans::specs::Spans::noted, facts::specs::Pick::pick))]
fn take_all(start: Draft, words: Words<'_>) -> Result<Draft, Slip>
    ensures { result ≡ take_all (uncommented (words_left words.entry)) (Ok start) }
{
    let mut draft = start;
    let mut left = words;
    while !left.at_note() {
        let Some(w) = left.next() else {
            break;
        };
        draft = take_word(draft, w)?;
    }
    Ok(draft)
}

// The first field that has to be written and was not.
#[tactic(auto, unfolding(crate::specs::Lines::missing))]
fn missing(draft: &Draft) -> Option<usize>
    ensures { result ≡ missing draft.now }
{
    keys::rows(draft.edition, draft.kind)
        .iter()
        .zip(&draft.columns)
        .position(|(row, column)| row.form.needed && column.is_none())
}

// The field whose first byte is at a place of the body.
fn field_at(e: Edition, k: Kind, place: usize) -> Option<usize>
    ensures { result ≡ field_at e k place }
{
    keys::rows(e, k).iter().position(|row| row.form.at == place)
}

// A field out of range, whose first byte is at a place of the body.
#[tactic(auto, using(crate::proofs::Laws::field_inside), unfolding(crate::specs::Lines::range_slip, crate::specs::Lines::range_at))]
fn range_slip(draft: &Draft, place: usize, end: usize) -> Slip
    requires { end ≤ line_most }
    ensures { result ≡ range_slip draft.now place end }
{
    let k = draft.kind;
    match field_at(draft.edition, k, place) {
        Some(i) => Slip {
            column: draft.columns[i].unwrap_or(end + 1),
            expected: Expected::Range(k, i),
        },
        None => slip_at(end, Expected::Range(k, 0)),
    }
}

// The record whose words are all taken, if the reader takes it.
#[tactic(auto, unfolding(crate::specs::Lines::finished, crate::specs::Lines::whole, crate::specs::Lines::judged, crate::specs::Lines::judged_as))]
fn finish(draft: Draft, number: u64, end: usize) -> Result<Line, Slip>
    requires { end ≤ line_most }
    ensures { result ≡ finished number end draft }
{
    if let Some(i) = missing(&draft) {
        return Err(slip_at(end, Expected::Needed(draft.kind, i)));
    }
    match body::judge_body(draft.edition, text::front(&draft.body, draft.length)) {
        Ok(_) => Ok(Line::Record {
            number,
            body: draft.body,
            length: draft.length,
        }),
        Err(f) => Err(range_slip(&draft, f.at, end)),
    }
}

// The sequence number that the first word is.
#[tactic(auto, unfolding(crate::specs::Lines::number_of, crate::specs::Lines::numbered, facts::specs::Pick::pick))]
fn number_of(w: Word<'_>) -> Result<u64, Slip>
    ensures { result ≡ number_of (told w.entry) }
{
    match figures::number_in(w.bytes, facts::LAST_NUMBER) {
        Some(n) if n != 0 => Ok(n),
        _ => Err(slip_at(w.at, Expected::Number)),
    }
}

// The message that the second word names, if there is one before a comment.
#[tactic(auto, unfolding(crate::specs::Lines::kind_of, crate::specs::Lines::named, facts::specs::Pick::pick))]
fn kind_of(second: Option<Word<'_>>, end: usize) -> Result<Kind, Slip>
    requires { end ≤ line_most }
    ensures { result ≡ kind_of (option_map told second.entry) end }
{
    match second {
        Some(w) if !w.is_note() => keys::kind_named(w.bytes).ok_or(slip_at(w.at, Expected::Name)),
        _ => Err(slip_at(end, Expected::Name)),
    }
}

// A line that begins with a word, and no comment.
#[tactic(auto, using(crate::proofs::Laws::next_is), unfolding(crate::specs::Lines::read_record, crate::specs::Lines::of_number, crate::specs::Lines::of_kind, crate::specs::Lines::ended))]
fn read_record(e: Edition, first: Word<'_>, rest: Words<'_>, end: usize) -> Result<Line, Slip>
    requires { end ≤ line_most }
    ensures { result ≡ read_record e (told first.entry) (words_left rest.entry) end }
{
    let mut words = rest;
    let number = number_of(first)?;
    if words.at_note() {
        return Err(slip_at(end, Expected::Name));
    }
    let kind = kind_of(words.next(), end)?;
    let draft = take_all(blank_draft(e, kind), words)?;
    finish(draft, number, end)
}

// What a line says.
#[tactic(auto, unfolding(crate::specs::Lines::read_line, crate::specs::Lines::of_line, crate::specs::Lines::of_words, spans::specs::Spans::noted, facts::specs::Pick::pick))]
pub fn read_line(e: Edition, s: &[u8]) -> Result<Line, Slip>
    ensures { result ≡ read_line e s.now }
{
    let mut words = Words::new(s).ok_or(slip_at(LINE_MOST, Expected::Shorter))?;
    if words.at_note() {
        return Ok(Line::Comment);
    }
    match words.next() {
        None => Ok(Line::Blank),
        Some(w) => read_record(e, w, words, s.len()),
    }
}
