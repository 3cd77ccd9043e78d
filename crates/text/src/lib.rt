// Appends to a lent buffer. Each writes from `at` on as far as the buffer reaches and answers the place behind all of its text, written or not, so that the next
// append goes there and the last one tells how long the whole is.
#![tactic(auto)]

ghost use Rattle.std.specs.Prelude.{◌≡◌, [], ◌∷◌, map, ◌+◌, ◌%◌, ◌≤◌, length, take, nat_abs};
ghost use Rattle.text.specs.Text.{Wrote, decimal_of, signed_of, trim_of, shown_of, ticker_of, line_of};

pub fn byte(buf: &mut [u8], at: usize, b: u8) -> usize
    ensures { Wrote buf.old at (b ∷ []) buf.new result }
{
    if at < buf.len() {
        buf[at] = b;
    }
    at.saturating_add(1)
}

pub fn bytes(buf: &mut [u8], at: usize, s: &[u8]) -> usize
    ensures { Wrote buf.old at s.now buf.new result }
{
    if at < buf.len() {
        let n = s.len().min(buf.len() - at);
        buf[at..at + n].copy_from_slice(&s[..n]);
    }
    at.saturating_add(s.len())
}

// The first n bytes, or all where there are fewer: what has been written of a buffer.
pub fn front(s: &[u8], n: usize) -> &[u8]
    ensures { result.now ≡ take n s.now }
{
    &s[..n.min(s.len())]
}

// The byte that shows the lowest digit of n.
fn digit(n: u64) -> u8
    ensures { result ≡ 48 + n % 10 }
{
    48 + (n % 10) as u8
}

// The digits are put into an array from its end on, the lowest first.
pub fn decimal(buf: &mut [u8], at: usize, n: u64) -> usize
    ensures { Wrote buf.old at (decimal_of n) buf.new result }
{
    let mut d = [0u8; 20];
    let mut rest = n;
    for i in (0..d.len()).rev() {
        d[i] = digit(rest);
        rest /= 10;
        if rest == 0 {
            return bytes(buf, at, &d[i..]);
        }
    }
    unreachable!()
}

pub fn signed(buf: &mut [u8], at: usize, n: i64) -> usize
    ensures { Wrote buf.old at (signed_of n) buf.new result }
{
    let o = if n < 0 { byte(buf, at, b'-') } else { at };
    decimal(buf, o, n.unsigned_abs())
}

// How many bytes there are before the spaces at the end.
pub fn trimmed(s: &[u8]) -> usize
    ensures { (result ≤ length s.now) × (take result s.now ≡ trim_of s.now) }
{
    match s.iter().rposition(|x| *x != b' ') {
        Some(i) => i + 1,
        None => 0,
    }
}

// A byte as a sheet shows it.
pub fn shown(x: u8) -> u8
    ensures { result ≡ shown_of x }
{
    match x {
        b' '..=b'~' => x,
        _ => b'.',
    }
}

pub fn ticker(buf: &mut [u8], at: usize, t: [u8; 11]) -> usize
    ensures { Wrote buf.old at (ticker_of t) buf.new result }
{
    let n = trimmed(&t);
    bytes(buf, at, &t.map(shown)[..n])
}

// The key with its equals sign, a number, a line feed.
pub fn line(buf: &mut [u8], at: usize, key: &[u8], n: u64) -> usize
    ensures { Wrote buf.old at (line_of key.now (decimal_of n)) buf.new result }
{
    let o = bytes(buf, at, key);
    let p = decimal(buf, o, n);
    byte(buf, p, b'\n')
}
