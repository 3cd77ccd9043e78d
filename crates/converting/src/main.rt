// Makes of a recording on standard input one of the other edition on standard output, in constant memory. Nothing that matters lives here: packets are
// rewritten by `conversion`, and what a type's word means stands in `words`.
#![tactic(auto)]

use conversion::Tally;
use editions::Edition;
use retype::{Asked, EXCEPTION_SIZE};
use std::env::Env;
use streams::{Failure, Word};
use words::TypeWord;

// What is held at a time: a packet has at most 65,537 bytes with its length, so a full piece has a whole one.
const PIECE: usize = 131072;

// "More than 1,000 exceptions" are wrong words.
const OTHERS: usize = 1000 * EXCEPTION_SIZE;

const WRONG_WORDS: &str =
    "convert takes --to with 1.3, 1.3.a or 1.3.b, --edition with one of these, and for 1.3 --type with E or F, once, and with NAME=E or NAME=F, 1,000 times at most; the recording comes on standard input";

// Never reached with this program's piece and types.
const REFUSED: &str = "the recording was not converted";

// What went wrong goes to standard error, which is the last place where anything could be told; and so does what was counted.
fn main(rt: HostRuntime) {
    let _ = match answer(&rt) {
        Ok(t) => eprintln!(rt;
            "rimeheath: {} Symbol Updates rewritten, {} packets passed on unread, {} packets barred",
            t.updates, t.unread, t.barred
        ),
        Err(e) => eprintln!(rt; "rimeheath: {e}"),
    };
}

// Types are judged before anything is read, so that a wrong one is told of any recording.
fn answer(rt: &(impl Env + Input + Print)) -> Result<Tally, Failure> {
    let mut others = [0; OTHERS];
    let words = take_words(rt, &mut others).ok_or(Failure::Told(WRONG_WORDS))?;
    let (from, asked) = words.task(&others).ok_or(Failure::Told(WRONG_WORDS))?;
    if !asked.types_ok() {
        return Err(Failure::Told(WRONG_WORDS));
    }
    convert(rt, from, &asked)
}

// ---- the words

// What the words ask for, as far as they were taken; the exceptions stand in the memory beside it, and are counted by their bytes.
#[derive(Clone, Copy, Default)]
struct Words {
    to: Option<Edition>,
    from: Option<Edition>,
    all: Option<u8>,
    others: usize,
}

// Words come in twos; one that is left alone is none of ours. A word that is too long for its memory is an empty one, and wrong like that.
fn take_words(rt: &impl Env, others: &mut [u8]) -> Option<Words> {
    let count = streams::word_count(rt, usize::MAX);
    if count % 2 == 0 {
        return None;
    }
    let mut words = Words::default();
    for i in 0..count / 2 {
        let word = Word::<16>::at(rt, 2 * i + 1);
        let value = Word::<16>::at(rt, 2 * i + 2);
        words = words.with(word.as_slice(), value.as_slice(), others)?;
    }
    Some(words)
}

impl Words {
    // None where the word is unknown, its value wrong, or what it asks for asked for before.
    fn with(self, word: &[u8], value: &[u8], others: &mut [u8]) -> Option<Words> {
        match word {
            b"--to" if self.to.is_none() => Some(Words {
                to: Some(words::edition_named(value)?),
                ..self
            }),
            b"--edition" if self.from.is_none() => Some(Words {
                from: Some(words::edition_named(value)?),
                ..self
            }),
            b"--type" => self.with_type(words::type_asked(value)?, others),
            _ => None,
        }
    }

    fn with_type(self, t: TypeWord, others: &mut [u8]) -> Option<Words> {
        match t {
            TypeWord::All(b) if self.all.is_none() => Some(Words {
                all: Some(b),
                ..self
            }),
            TypeWord::All(_) => None,
            TypeWord::Exception(x) => {
                let end = self.others.checked_add(EXCEPTION_SIZE)?;
                others.get_mut(self.others..end)?.copy_from_slice(&x);
                Some(Words {
                    others: end,
                    ..self
                })
            }
        }
    }

    // The recording's edition, the other one where it is not named, and what is asked for: 1.3 has to have a type for all symbols, and the other
    // edition has no types.
    fn task(self, others: &[u8]) -> Option<(Edition, Asked<'_>)> {
        let to = self.to?;
        let (other, all) = match (to, self.all) {
            (Edition::V13, Some(b)) => (Edition::V13b, b),
            (Edition::V13b, None) if self.others == 0 => (Edition::V13, 0),
            _ => return None,
        };
        let asked = Asked {
            to,
            all,
            others: text::front(others, self.others),
        };
        Some((self.from.unwrap_or(other), asked))
    }
}

// ---- the recording

// A proved loop has to end, so it counts its pieces up to a number that no recording reaches. What follows the last whole packet goes on as it is.
fn convert(rt: &(impl Input + Print), from: Edition, asked: &Asked<'_>) -> Result<Tally, Failure> {
    let mut piece = [0; PIECE];
    let mut held = 0;
    let mut counts = Tally::default();
    let mut reader = rt.reader();
    for _ in 0..u64::MAX {
        if PIECE <= held {
            break;
        }
        let n = streams::read_once(&mut reader, &mut piece[held..]).map_err(Failure::Input)?;
        if n == 0 {
            rt.write_all(&piece[..held]).map_err(Failure::Output)?;
            return Ok(counts);
        }
        let (left, t) = hand_on(rt, from, asked, &mut piece[..held + n])?;
        held = left;
        counts = sum(counts, t);
    }
    Err(Failure::Told(REFUSED))
}

// Converts the whole packets of a piece, hands them on, and moves what follows them to the front; how many bytes that is, and what was counted.
fn hand_on(
    rt: &impl Print,
    from: Edition,
    asked: &Asked<'_>,
    piece: &mut [u8],
) -> Result<(usize, Tally), Failure> {
    let (done, t) = conversion::convert_piece(from, asked, piece)
        .ok()
        .ok_or(Failure::Told(REFUSED))?;
    let done = done.min(piece.len());
    rt.write_all(&piece[..done]).map_err(Failure::Output)?;
    piece.copy_within(done.., 0);
    Ok((piece.len() - done, t))
}

// Each stays at the largest number where it would pass it.
fn sum(a: Tally, b: Tally) -> Tally {
    Tally {
        updates: a.updates.saturating_add(b.updates),
        unread: a.unread.saturating_add(b.unread),
        barred: a.barred.saturating_add(b.barred),
    }
}
