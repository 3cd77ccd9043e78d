// Writes the line of a record (docs/TEXT.md).
#![tactic(auto)]

ghost use Rattle.std.specs.Prelude.{◌≡◌, ◌+◌, ◌≤◌, length};
ghost use Rattle.text.specs.Text.{Wrote, first_texts};
ghost use Rattle.keys.specs.Keys.{entries_of};
ghost use Rattle.keys.specs.Rows.{entry_of};
ghost use Rattle.line_out.specs.Lines.{part, is_shown, field_by, field_text, record_line};

use editions::Edition;
use keys::{Form, Row};
use kinds::Kind;
use wire::Number;

// The bytes of a field in a body.
fn part(f: Form, b: &[u8; 42]) -> &[u8]
    requires { f.at + f.width ≤ 42 }
    ensures { result.now ≡ part f b.now }
{
    &b[f.at..f.at + f.width]
}

// Whether a field is written: it has to be, or it is not that of the blank body.
#[tactic(auto, unfolding(crate::specs::Lines::is_shown))]
fn is_shown(f: Form, b: &[u8; 42], blank: &[u8; 42]) -> bool
    requires { f.at + f.width ≤ 42 }
    ensures { result ≡ is_shown f b.now blank.now }
{
    f.needed || part(f, b) != part(f, blank)
}

// A space, the key, `=` and the value of a field that is written.
fn put_field(buf: &mut [u8], at: usize, row: &Row, b: &[u8; 42], blank: &[u8; 42]) -> usize
    requires { row.now.form.at + row.now.form.width ≤ 42 }
    ensures { Wrote buf.old at (field_by (entry_of row.now) b.now blank.now) buf.new result }
{
    if !is_shown(row.form, b, blank) {
        return at;
    }
    let o = text::byte(buf, at, b' ');
    let p = text::bytes(buf, o, row.key.as_bytes());
    let q = text::byte(buf, p, b'=');
    values::put_value(buf, q, row.form.style, part(row.form, b))
}

// The fields of a body, in the order of the table.
fn put_fields(buf: &mut [u8], at: usize, e: Edition, k: Kind, b: &[u8; 42]) -> usize
    ensures { Wrote buf.old at (first_texts (field_text e k b.now) (length (entries_of e k))) buf.new result }
{
    let blank = keys::blank_body(e, k);
    let mut o = at;
    for row in keys::rows(e, k) {
        o = put_field(buf, o, row, b, &blank);
    }
    o
}

// The line of a record, without its line feed, of any bytes for a body.
pub fn write_line(e: Edition, buf: &mut [u8], at: usize, number: u64, body: &[u8]) -> usize
    ensures { Wrote buf.old at (record_line e number body.now) buf.new result }
{
    let k = Kind::from(u8::at(body, 0));
    let o = text::decimal(buf, at, number);
    let p = text::byte(buf, o, b' ');
    let q = text::bytes(buf, p, keys::name_of(k).as_bytes());
    put_fields(buf, q, e, k, &wire::bytes_at(body, 0))
}
