// The value of a field by its form: read into the field's bytes, and written from them (docs/TEXT.md).
#![tactic(auto)]

ghost use Rattle.std.specs.Prelude.{◌≡◌, length, unwrap_or};
ghost use Rattle.text.specs.Text.{Wrote};
ghost use Rattle.letters.specs.Answer.{answer};
ghost use Rattle.values.specs.Values.{most_of, in_bytes, value_in, value_text};

use letters::Malformed;
use styles::Style;
use wire::Number;

// The largest number of a field of w bytes.
#[tactic(auto, unfolding(crate::specs::Values::most_of, facts::specs::Pick::pick))]
pub fn most_of(w: usize) -> u64
    ensures { result ≡ most_of w }
{
    match w {
        1 => u64::from(u8::MAX),
        2 => u64::from(u16::MAX),
        4 => u64::from(u32::MAX),
        _ => u64::MAX,
    }
}

// A number, in all bytes of its field.
#[tactic(auto, using(crate::proofs::Laws::over_whole))]
fn put_figure(figure: Option<u64>, field: &mut [u8]) -> Result<(), Malformed>
    ensures told { result ≡ answer (in_bytes (length field.old) figure) }
    ensures kept { field.new ≡ unwrap_or (in_bytes (length field.old) figure) field.old }
{
    wire::put_le(field, 0, field.len(), figure.ok_or(Malformed)?);
    Ok(())
}

// What a value says, stored in the whole of its field; a value that has not the field's form leaves every byte.
#[tactic(auto, unfolding(crate::specs::Values::value_in))]
pub fn value_in(style: Style, s: &[u8], field: &mut [u8]) -> Result<(), Malformed>
    ensures told { result ≡ answer (value_in style (length field.old) s.now) }
    ensures kept { field.new ≡ unwrap_or (value_in style (length field.old) s.now) field.old }
{
    match style {
        Style::Number => put_figure(figures::number_in(s, most_of(field.len())), field),
        Style::Price => put_figure(figures::price_in(s), field),
        Style::Clock => put_figure(figures::clock_in(s), field),
        Style::Text => letters::text_in(s, field),
    }
}

// The value of the bytes v, which are a whole field of at most eight bytes where it is no text.
#[tactic(auto, unfolding(crate::specs::Values::value_text))]
pub fn put_value(buf: &mut [u8], at: usize, style: Style, v: &[u8]) -> usize
    ensures { Wrote buf.old at (value_text style v.now) buf.new result }
{
    match style {
        Style::Number => text::decimal(buf, at, u64::at(v, 0)),
        Style::Price => figures::put_price(buf, at, u64::at(v, 0)),
        Style::Clock => figures::put_clock(buf, at, u64::at(v, 0)),
        Style::Text => letters::put_text(buf, at, v),
    }
}
