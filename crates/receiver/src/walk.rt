// The records that lie in a packet, from the front.
ghost use Rattle.std.specs.Iterator.{YieldsFirstBy, item_count};
ghost use Rattle.receiver.specs.Lying.{seen, lying};

use wire::Number;

// A record where it lies: its number, and the part of the packet with its body.
#[derive(Clone, Copy)]
pub(crate) struct Record<'a> {
    pub(crate) number: u64,
    pub(crate) body: &'a [u8],
}

// What is left of a packet.
#[derive(Drop)]
pub(crate) struct Records<'a> {
    pub(crate) rest: &'a [u8],
}

impl<'a> Iterator for Records<'a> {
    type Item = Record<'a>;

    ghost next_gives = { YieldsFirstBy seen (λ s. lying s.rest.now) };

    ghost remaining = { item_count (λ s. lying s.rest.now) };

    fn next(&mut self) -> Option<Record<'a>> {
        let rest = self.rest;
        if rest.is_empty() {
            return None;
        }
        let len = u16::at(rest, 8) as usize;
        self.rest = rest.get(10 + len..).unwrap_or(&[]);
        Some(Record {
            number: u64::at(rest, 0),
            body: packet::body_at(rest, 0),
        })
    }
}
