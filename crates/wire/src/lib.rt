// Little-endian numbers at fixed places of a run of bytes, read and written, and copies of its bytes by value.
// A byte past the end counts as 0 and is not stored, so that every function here answers for any slice and any place.
#![tactic(auto)]

ghost use Rattle.std.specs.Prelude.{ℕ, List, [], ◌∷◌, ◌≡◌, length, get_or, replicate};
ghost use Rattle.std.proofs.lemmas.List.Edits.{sets};
ghost use Rattle.wire.specs.Le.{to_le, field, padded};

// A number of the feed, by its width: read from a place of a run of bytes, whether all of it is there or not, and stored from a place
// on, as far as the slice reaches; the low byte first.
pub trait Number: Sized {
    ghost read: { List ℕ → ℕ → Self };

    ghost laid_out: { Self → List ℕ };

    fn at(b: &[u8], at: usize) -> Self
        ensures { result ≡ read b.now at };

    fn put(self, out: &mut [u8], at: usize)
        ensures { out.new ≡ sets out.old at (laid_out self) };
}

impl Number for u8 {
    ghost read = { λ b at. get_or b at 0 };

    ghost laid_out = { λ n. n ∷ [] };

    fn at(b: &[u8], at: usize) -> u8 {
        if at < b.len() { b[at] } else { 0 }
    }

    fn put(self, out: &mut [u8], at: usize) {
        put_at(out, at, &[self]);
    }
}

impl Number for u16 {
    ghost read = { λ b at. field b at 2 };

    ghost laid_out = { λ n. to_le 2 n };

    #[tactic(auto, using(crate::proofs::Laws::two_copied))]
    fn at(b: &[u8], at: usize) -> u16 {
        u16::from_le_bytes(bytes_at(b, at))
    }

    fn put(self, out: &mut [u8], at: usize) {
        put_at(out, at, &self.to_le_bytes());
    }
}

impl Number for u32 {
    ghost read = { λ b at. field b at 4 };

    ghost laid_out = { λ n. to_le 4 n };

    #[tactic(auto, using(crate::proofs::Laws::four_copied))]
    fn at(b: &[u8], at: usize) -> u32 {
        u32::from_le_bytes(bytes_at(b, at))
    }

    fn put(self, out: &mut [u8], at: usize) {
        put_at(out, at, &self.to_le_bytes());
    }
}

impl Number for u64 {
    ghost read = { λ b at. field b at 8 };

    ghost laid_out = { λ n. to_le 8 n };

    #[tactic(auto, using(crate::proofs::Laws::eight_copied))]
    fn at(b: &[u8], at: usize) -> u64 {
        u64::from_le_bytes(bytes_at(b, at))
    }

    fn put(self, out: &mut [u8], at: usize) {
        put_at(out, at, &self.to_le_bytes());
    }
}

// All bytes of one run into another of the same length, whatever that is. The library's copy of a run whose length the compiler doesn't know
// would have an archive for C need `memmove` from outside.
fn copy(s: &[u8], out: &mut [u8])
    requires { length s.now ≡ length out.old }
    ensures { out.new ≡ s.now }
{
    for i in 0..out.len() {
        out[i] = s[i];
    }
}

// The bytes from at on, into the whole of out, with zeros for those past the end. Where all are there, as nearly always, they are one copy.
pub fn copy_at(b: &[u8], at: usize, out: &mut [u8])
    ensures { out.new ≡ padded b.now at (length out.old) }
{
    let n = out.len();
    if b.len() <= at {
        wipe(out);
        return;
    }
    let k = b.len() - at;
    if n <= k {
        out.copy_from_slice(&b[at..at + n]);
        return;
    }
    wipe(out);
    copy(&b[at..], &mut out[..k]);
}

// N bytes that are not all there. Hardly anybody asks for them, so this is kept out of the way of whoever asks for bytes that are.
#[cold]
#[inline(never)]
fn part_at<const N: usize>(b: &[u8], at: usize) -> [u8; N]
    ensures { result ≡ padded b.now at N }
{
    let mut out = [0u8; N];
    copy_at(b, at, &mut out);
    out
}

// The N bytes from at on, with zeros for those past the end.
pub fn bytes_at<const N: usize>(b: &[u8], at: usize) -> [u8; N]
    ensures { result ≡ padded b.now at N }
{
    if at <= b.len()
        && let Some((x, _)) = b[at..].split_first_chunk()
    {
        return *x;
    }
    part_at(b, at)
}

// Every byte of a slice of any length, zeroed.
pub fn wipe(t: &mut [u8])
    ensures { t.new ≡ replicate (length t.old) 0 }
{
    t.fill(0);
}

// The low w bytes of a number, the low byte first, stored from at on as far as the slice reaches.
pub fn put_le(out: &mut [u8], at: usize, w: usize, n: u64)
    ensures { out.new ≡ sets out.old at (to_le w n) }
{
    if out.len() <= at {
        return;
    }
    let reached = w.min(out.len() - at);
    let mut v = n;
    for x in out[at..at + reached].iter_mut() {
        *x = (v % 256) as u8;
        v /= 256;
    }
}

// Bytes as they are, stored from at on as far as the slice reaches.
pub fn put_at(out: &mut [u8], at: usize, s: &[u8])
    ensures { out.new ≡ sets out.old at s.now }
{
    if out.len() <= at {
        return;
    }
    let n = s.len().min(out.len() - at);
    copy(&s[..n], &mut out[at..at + n]);
}
