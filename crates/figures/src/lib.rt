// Numbers, prices and times of a line, read and written (docs/TEXT.md).
#![tactic(auto)]

ghost use Rattle.std.specs.Prelude.{◌≡◌, length};
ghost use Rattle.text.specs.Text.{Wrote};
ghost use Rattle.figures.specs.Figures.{number_in, places_of, millionths_in, price_in, price_text, hours_in, clock_in, hours_text, clock_text};

// The most dollars of a price.
const MOST_DOLLARS: u64 = 1_000_000_000;

// A dollar in millionths.
const DOLLAR: u64 = 1_000_000;

// The seconds of a day.
const DAY: u64 = 86_400;

// Digits alone, of a number up to `most`. A number that would pass it is none, before it could pass 64 bits.
pub fn number_in(s: &[u8], most: u64) -> Option<u64>
    ensures { result ≡ number_in most s.now }
{
    if s.is_empty() {
        return None;
    }
    let mut n: u64 = 0;
    for x in s {
        let d = char::from(*x).to_digit(10)?;
        n = n.checked_mul(10)?.checked_add(u64::from(d))?;
        if most < n {
            return None;
        }
    }
    Some(n)
}

// The digits behind a full stop, as millionths.
#[tactic(auto, unfolding(crate::specs::Figures::millionths_in, facts::specs::Pick::pick, facts::specs::Pick::both))]
fn millionths_in(s: &[u8]) -> Option<u64>
    ensures { result ≡ millionths_in s.now }
{
    if s.is_empty() || 6 < s.len() {
        return None;
    }
    let mut d = *b"000000";
    d[..s.len()].copy_from_slice(s);
    number_in(&d, DOLLAR - 1)
}

// Dollars, and the millionths behind a full stop where one stands.
#[tactic(auto, using(crate::proofs::NumberLaws::number_most, crate::proofs::FormLaws::millionths_most), unfolding(crate::specs::Figures::price_in, crate::specs::Figures::price_at, crate::specs::Figures::priced))]
pub fn price_in(s: &[u8]) -> Option<u64>
    ensures { result ≡ price_in s.now }
{
    match spans::place_of(s, b'.') {
        Some(p) => {
            let dollars = number_in(&s[..p], MOST_DOLLARS)?;
            Some(DOLLAR * dollars + millionths_in(&s[p + 1..])?)
        }
        None => Some(DOLLAR * number_in(s, MOST_DOLLARS)?),
    }
}

// Hours, minutes and seconds as one number, whatever stands between them.
#[tactic(auto, using(crate::proofs::NumberLaws::number_most), unfolding(crate::specs::Figures::hours_in, crate::specs::Figures::timed))]
fn hours_in(s: &[u8]) -> Option<u64>
    requires { length s.now ≡ 8 }
    ensures { result ≡ hours_in s.now }
{
    let h = number_in(&s[..2], 23)?;
    let m = number_in(&s[3..5], 59)?;
    let z = number_in(&s[6..], 59)?;
    Some(3600 * h + 60 * m + z)
}

#[tactic(auto, unfolding(crate::specs::Figures::clock_in, crate::specs::Figures::coloned, facts::specs::Pick::pick, facts::specs::Pick::both))]
pub fn clock_in(s: &[u8]) -> Option<u64>
    ensures { result ≡ clock_in s.now }
{
    match s {
        [_, _, b':', _, _, b':', _, _] => hours_in(s),
        _ => number_in(s, u64::from(u32::MAX)),
    }
}

// The last k digits of a number.
fn put_places(buf: &mut [u8], at: usize, k: usize, n: u64) -> usize
    ensures { Wrote buf.old at (places_of k n) buf.new result }
{
    if k == 0 {
        return at;
    }
    let o = put_places(buf, at, k - 1, n / 10);
    text::byte(buf, o, b'0' + (n % 10) as u8)
}

pub fn put_price(buf: &mut [u8], at: usize, n: u64) -> usize
    ensures { Wrote buf.old at (price_text n) buf.new result }
{
    let o = text::decimal(buf, at, n / DOLLAR);
    let p = text::byte(buf, o, b'.');
    put_places(buf, p, 6, n)
}

fn put_hours(buf: &mut [u8], at: usize, n: u64) -> usize
    ensures { Wrote buf.old at (hours_text n) buf.new result }
{
    let h = put_places(buf, at, 2, n / 3600);
    let a = text::byte(buf, h, b':');
    let m = put_places(buf, a, 2, n / 60 % 60);
    let b = text::byte(buf, m, b':');
    put_places(buf, b, 2, n % 60)
}

pub fn put_clock(buf: &mut [u8], at: usize, n: u64) -> usize
    ensures { Wrote buf.old at (clock_text n) buf.new result }
{
    if n < DAY {
        put_hours(buf, at, n)
    } else {
        text::decimal(buf, at, n)
    }
}
