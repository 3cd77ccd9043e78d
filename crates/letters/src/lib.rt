// Text of a line, and bytes that are no text in hex, read and written (docs/TEXT.md).
#![tactic(auto)]

ghost use Rattle.std.specs.Prelude.{◌≡◌, [], ◌∷◌, ◌+◌, ◌*◌, ◌/◌, ◌%◌, ◌<◌, ◌≤◌, length, option_copied, unwrap_or, true};
ghost use Rattle.std.specs.Char.{digit_value, digit_char};
ghost use Rattle.text.specs.Text.{Wrote};
ghost use Rattle.letters.specs.Letters.{hex_of, is_plain, text_in, text_of, all_hex, plain_in, hex_in, digits_in, unhex};
ghost use Rattle.letters.specs.Answer.{answer};

// A value that has not the form that it should have.
#[derive(Clone, Copy, PartialEq, Eq, Debug)]
pub struct Malformed;

// Bytes that a line can have as they are.
#[tactic(auto, unfolding(crate::specs::Letters::is_plain, facts::specs::Pick::both))]
fn is_plain(s: &[u8]) -> bool
    ensures { result ≡ is_plain s.now }
{
    !s.is_empty() && words::all_from(b'!', b'~', s)
}

// Text in the front of a field, with spaces behind it.
#[tactic(auto, unfolding(crate::specs::Letters::plain_in, facts::specs::Pick::pick))]
fn plain_in(s: &[u8], out: &mut [u8]) -> Result<(), Malformed>
    requires { length s.now ≤ length out.old }
    ensures told { result ≡ answer (plain_in (length out.old) s.now) }
    ensures kept { out.new ≡ unwrap_or (plain_in (length out.old) s.now) out.old }
{
    if !is_plain(s) {
        return Err(Malformed);
    }
    out.fill(b' ');
    out[..s.len()].copy_from_slice(s);
    Ok(())
}

// What a hexadecimal digit says.
fn digit(x: u8) -> u8
    requires { digit_value x < 16 }
    ensures { result ≡ digit_value x }
{
    char::from(x).to_digit(16).unwrap() as u8
}

// The byte of two digits, the high one first.
fn two_digits(x: u8, y: u8) -> u8
    requires high { digit_value x < 16 }
    requires low { digit_value y < 16 }
    ensures { result ≡ 16 * digit_value x + digit_value y }
{
    16 * digit(x) + digit(y)
}

fn all_hex(s: &[u8]) -> bool
    ensures { result ≡ all_hex s.now }
{
    s.iter().all(|x| char::from(*x).is_digit(16))
}

// The digits behind the mark of hex, where they are those of w bytes.
#[tactic(auto, unfolding(crate::specs::Letters::digits_in, crate::specs::Letters::is_hex, facts::specs::Pick::pick, facts::specs::Pick::both))]
fn digits_in(s: &[u8], w: usize) -> Option<&[u8]>
    ensures { option_copied result ≡ digits_in w s.now }
{
    let [b'0', b'x', digits @ ..] = s else {
        return None;
    };
    if w.checked_mul(2)? != digits.len() || !all_hex(digits) {
        return None;
    }
    Some(digits)
}

// The bytes of digits, two of them a byte.
fn put_unhex(digits: &[u8], out: &mut [u8])
    requires many { length digits.now ≡ 2 * length out.old }
    requires good { all_hex digits.now ≡ true }
    ensures { out.new ≡ unhex digits.now }
{
    for (i, x) in out.iter_mut().enumerate() {
        *x = two_digits(digits[2 * i], digits[2 * i + 1]);
    }
}

#[tactic(auto, using(crate::proofs::HexLaws::marked_digits), unfolding(crate::specs::Letters::hex_in, crate::specs::Letters::digits_in, facts::specs::Pick::pick))]
fn hex_in(s: &[u8], out: &mut [u8]) -> Result<(), Malformed>
    ensures told { result ≡ answer (hex_in (length out.old) s.now) }
    ensures kept { out.new ≡ unwrap_or (hex_in (length out.old) s.now) out.old }
{
    put_unhex(digits_in(s, out.len()).ok_or(Malformed)?, out);
    Ok(())
}

// The bytes that a value says, into the whole of a field; a value that says none leaves it as it is.
#[tactic(auto, unfolding(crate::specs::Letters::text_in, facts::specs::Pick::pick))]
pub fn text_in(s: &[u8], out: &mut [u8]) -> Result<(), Malformed>
    ensures told { result ≡ answer (text_in (length out.old) s.now) }
    ensures kept { out.new ≡ unwrap_or (text_in (length out.old) s.now) out.old }
{
    if s.len() <= out.len() {
        plain_in(s, out)
    } else {
        hex_in(s, out)
    }
}

fn hex_char(d: u8) -> u8
    requires { d < 16 }
    ensures { result ≡ digit_char d }
{
    char::from_digit(u32::from(d), 16).unwrap() as u8
}

// The two digits of a byte, the high one first.
pub fn put_digits(buf: &mut [u8], at: usize, x: u8) -> usize
    ensures { Wrote buf.old at (digit_char (x / 16) ∷ digit_char (x % 16) ∷ []) buf.new result }
{
    text::bytes(buf, at, &[hex_char(x / 16), hex_char(x % 16)])
}

fn put_hex(buf: &mut [u8], at: usize, v: &[u8]) -> usize
    ensures { Wrote buf.old at (hex_of v.now) buf.new result }
{
    let mut o = at;
    for x in v {
        o = put_digits(buf, o, *x);
    }
    o
}

// The bytes of a field as a line has them.
pub fn put_text(buf: &mut [u8], at: usize, v: &[u8]) -> usize
    ensures { Wrote buf.old at (text_of v.now) buf.new result }
{
    let n = text::trimmed(v);
    if is_plain(&v[..n]) {
        return text::bytes(buf, at, &v[..n]);
    }
    let o = text::bytes(buf, at, b"0x");
    put_hex(buf, o, v)
}
