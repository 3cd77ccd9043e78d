// The words of a line, each with the place of its first byte (docs/TEXT.md).
#![tactic(auto)]

ghost use Rattle.std.specs.Prelude.{◌≡◌, ◌+◌, ◌≤◌, ◌==◌, length, drop, option_map, position};
ghost use Rattle.spans.specs.Spans.{blank, blanks, filled, line_most};

// The longest line.
pub const LINE_MOST: usize = 4096;

// Spaces, tabs and carriage returns are blanks.
#[tactic(auto, unfolding(crate::specs::Spans::blank))]
pub fn is_blank(x: u8) -> bool
    ensures { result ≡ blank x }
{
    matches!(x, b' ' | b'\t' | b'\r')
}

// What is left of a line from a place on, none past its end.
fn behind(line: &[u8], from: usize) -> &[u8]
    ensures { result.now ≡ drop from line.now }
{
    line.get(from..).unwrap_or(&[])
}

// The place of the first byte from `from` on that is no blank, or the line's end.
pub fn word_start(line: &[u8], from: usize) -> usize
    ensures { result ≡ from + blanks (drop from line.now) }
{
    let rest = behind(line, from);
    from + rest
        .iter()
        .position(|x| !is_blank(*x))
        .unwrap_or(rest.len())
}

// The place of the first blank from `from` on, or the line's end.
pub fn word_end(line: &[u8], from: usize) -> usize
    ensures { result ≡ from + filled (drop from line.now) }
{
    let rest = behind(line, from);
    from + rest.iter().position(|x| is_blank(*x)).unwrap_or(rest.len())
}

// The place of the first x.
pub fn place_of(s: &[u8], x: u8) -> Option<usize>
    ensures { result ≡ position (λ y. y == x) s.now }
{
    s.iter().position(|y| *y == x)
}

// A word, and the place of its first byte in the line.
#[derive(Clone, Copy, PartialEq, Eq, Debug)]
pub struct Word<'a> {
    pub at: usize,
    pub bytes: &'a [u8],
    pub ghost inside: { at + length bytes.now ≤ line_most },
}

impl Word<'_> {
    ghost use Rattle.spans.specs.Spans.{is_note};
    ghost use Rattle.spans.specs.Left.{told};

    // Whether a comment begins with it.
    #[tactic(auto, unfolding(crate::specs::Spans::is_note))]
    pub fn is_note(self) -> bool
        ensures { result ≡ is_note (told self.entry) }
    {
        matches!(self.bytes, [b'#', ..])
    }
}

// The words of what is left of a line, from a place on.
#[derive(Clone, Copy, Debug)]
pub struct Words<'a> {
    at: usize,
    rest: &'a [u8],
    ghost inside: { at + length rest.now ≤ line_most },
}

impl<'a> Words<'a> {
    ghost use Rattle.spans.specs.Spans.{opened, noted};
    ghost use Rattle.spans.specs.Left.{words_left};

    // All words of a line, unless it is too long.
    pub fn new(line: &'a [u8]) -> Option<Self>
        ensures { option_map words_left result ≡ opened line.now }
    {
        if line.len() <= LINE_MOST {
            Some(Words { at: 0, rest: line })
        } else {
            None
        }
    }

    // Steps to the next word, and tells whether a comment begins with it: its first byte tells, so that no more of a comment is read.
    #[tactic(auto, using(crate::proofs::Laws::noted_word, crate::proofs::Laws::noted_none, crate::proofs::Laws::blanks_le, crate::proofs::Laws::stepped))]
    pub fn at_note(&mut self) -> bool
        ensures note { result ≡ noted (words_left self.old) }
        ensures left { words_left self.new ≡ words_left self.old }
    {
        let rest = self.rest;
        let start = word_start(rest, 0);
        let note = start < rest.len() && rest[start] == b'#';
        *self = Words {
            at: self.at + start,
            rest: &rest[start..],
        };
        note
    }
}

impl<'a> Iterator for Words<'a> {
    ghost use Rattle.std.specs.Iterator.{YieldsFirstBy, item_count};
    ghost use Rattle.spans.specs.Left.{told, words_left};

    type Item = Word<'a>;

    ghost next_gives = { YieldsFirstBy told words_left };

    ghost remaining = { item_count words_left };

    fn next(&mut self) -> Option<Word<'a>> {
        let start = self.rest.iter().position(|x| !is_blank(*x))?;
        let front = &self.rest[start..];
        let end = front
            .iter()
            .position(|x| is_blank(*x))
            .unwrap_or(front.len());
        let (bytes, rest) = front.split_at(end);
        let at = self.at + start;
        *self = Words { at: at + end, rest };
        Some(Word { at, bytes })
    }
}
