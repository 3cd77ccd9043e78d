// Reads a packet: records back to back, each judged by 2, 5, 3, 4 from the front, before anything is done with any of them.
#![tactic(auto)]

ghost use Rattle.std.specs.Prelude.{◌≡◌, ◌<◌, ◌+◌, drop};
ghost use Rattle.packet.specs.Record.{number_ok, head_of, body_of, shifted, read_record};
ghost use Rattle.packet.specs.Packet.{read_packet};
ghost use Rattle.packet.specs.declared.Why.{Why};

use editions::Edition;
use fields::{Fault, Refusal};
use wire::Number;

// What the ten header bytes of a record say.
#[derive(Clone, Copy, Debug, PartialEq, Eq)]
pub struct Head {
    pub number: u64,
    pub len: usize,
}

// Why a packet, or what is read as one, is refused: by a number alone, or by number and offset.
#[derive(Clone, Copy, Debug, PartialEq, Eq)]
pub enum Why {
    Alone(Refusal),
    Placed(Fault),
}

impl From<Refusal> for Why {
    ghost from_gives = { λ r w. w ≡ Why.Alone r };

    fn from(r: Refusal) -> Why {
        Why::Alone(r)
    }
}

impl From<Fault> for Why {
    ghost from_gives = { λ f w. w ≡ Why.Placed f };

    fn from(f: Fault) -> Why {
        Why::Placed(f)
    }
}

// Whether a sequence number is in range.
#[tactic(auto, unfolding(crate::specs::Record::number_ok, facts::specs::Pick::both))]
pub fn number_ok(n: u64) -> bool
    ensures { result ≡ number_ok n }
{
    1 <= n && n <= facts::LAST_NUMBER
}

// What is left of bytes from a place on, none past the end.
fn behind(p: &[u8], at: usize) -> &[u8]
    ensures { result.now ≡ drop at p.now }
{
    p.get(at..).unwrap_or(&[])
}

// Number and length at a place of a packet, whatever stands there.
pub fn head_at(p: &[u8], at: usize) -> Head
    ensures { result ≡ head_of (drop at p.now) }
{
    let t = behind(p, at);
    Head {
        number: u64::at(t, 0),
        len: u16::at(t, 8) as usize,
    }
}

// The body of the record at a place of a packet: the part behind its ten header bytes, as long as the header says or to the end.
pub fn body_at(p: &[u8], at: usize) -> &[u8]
    ensures { result.now ≡ body_of (drop at p.now) }
{
    let body = behind(behind(p, at), 10);
    body.get(..head_at(p, at).len).unwrap_or(body)
}

// What is bad at a place of a part that starts n bytes further on.
fn shifted(n: usize, f: Fault) -> Fault
    requires { n + f.at < 18446744073709551616 }
    ensures { result ≡ shifted n f }
{
    Fault {
        number: f.number,
        at: n + f.at,
    }
}

// Judges the first record of what is left: 2, 5, then what the body's judge says of its part.
#[inline(always)]
pub fn read_record(e: Edition, t: &[u8]) -> Result<Head, Fault>
    ensures { result ≡ read_record e t.now }
{
    let h = head_at(t, 0);
    let Some(body) = t.get(10..10 + h.len) else {
        return Err(Fault { number: 2, at: 0 });
    };
    if !number_ok(h.number) {
        return Err(Fault { number: 5, at: 0 });
    }
    body::judge(e, body).map_err(|f| shifted(10, f))?;
    Ok(h)
}

// Judges a whole packet of an edition: 1, then its records from the front.
pub fn read_packet(e: Edition, p: &[u8]) -> Result<usize, Why>
    ensures { result ≡ read_packet e p.now }
{
    if p.is_empty() || facts::PACKET_MOST < p.len() {
        return Err(Why::Alone(Refusal { number: 1 }));
    }
    let mut at: usize = 0;
    let mut records: usize = 0;
    while at < p.len() {
        let h = read_record(e, &p[at..]).map_err(|f| shifted(at, f))?;
        at += 10 + h.len;
        records += 1;
    }
    Ok(records)
}
