// Document 02, No. 7: one recorded request, 37 bytes, bit-packed, most significant bit first.
#![tactic(auto)]

ghost use Rattle.std.specs.Prelude.{◌≡◌, not, ◌&&◌, ◌≤◌, eqb, length};
ghost use Rattle.refusal.specs.Chain.{first_of};
ghost use Rattle.wire.specs.Parts.{be_at};
ghost use Rattle.trace.specs.Layout.{twos_complement};
ghost use Rattle.trace.specs.Reading.{record_length, record_checks, rights_of, shown, record_of};

use getkey::Rights;
use gkid::FileTime;
use refusal::Refusal;
use request::Request;
use rootid::RootId;
use wire::{be32_at, be64_at};

// How many bytes a record has.
pub const LEN: usize = 37;

// A recorded request: when it was made, with which rights and verdict, and what it asked.
#[derive(Clone, Copy, Debug, PartialEq, Eq)]
pub struct Recorded {
    pub clock: FileTime,
    pub rights: Rights,
    pub verdict: bool,
    pub request: Request,
}

// The record at the start of s: 26 where s has fewer than 37 bytes, a spare bit is set, rights are 3, or bits of the identifier are
// set while no root is given.
pub fn read(s: &[u8]) -> Result<Recorded, Refusal>
    ensures { result ≡ record_of s.now }
{
    judge(s)?;
    Ok(shown(s))
}

// The checks, all of them 26. Byte 8 has root given 1 bit, rights 2, verdict 1, spare 4; the identifier has the 16 bytes from 21 on.
fn judge(s: &[u8]) -> Result<(), Refusal>
    ensures { result ≡ first_of (record_checks s.now) }
{
    if s.len() < LEN {
        return Err(Refusal::MalformedRecord);
    }
    let flags = s[8];
    if flags % 16 != 0 {
        return Err(Refusal::MalformedRecord);
    }
    if flags / 32 % 4 == 3 {
        return Err(Refusal::MalformedRecord);
    }
    if is_stray(flags / 128, RootId::at(s, 21)) {
        return Err(Refusal::MalformedRecord);
    }
    Ok(())
}

// Bits of the identifier are set while no root is given: asked as the record's bits, since without a root there is no identifier to compare.
fn is_stray(given: u8, id: RootId) -> bool
    ensures { result ≡ (eqb given 0 && not (eqb id.low 0 && eqb id.high 0)) }
{
    (given == 0) & !((id.low == 0) & (id.high == 0))
}

// What an accepted record shows.
fn shown(s: &[u8]) -> Recorded
    requires { record_length ≤ length s.now }
    ensures { result ≡ shown s.now }
{
    let flags = s[8];
    Recorded {
        clock: FileTime(be64_at(s, 0)),
        rights: rights_of(flags / 32 % 4),
        verdict: flags / 16 % 2 == 1,
        request: Request {
            root: (flags / 128 != 0).then(|| RootId::at(s, 21)),
            l0: index_at(s, 9),
            l1: index_at(s, 13),
            l2: index_at(s, 17),
        },
    }
}

// The index at `at`, in two's complement.
#[tactic(auto, using(crate::proofs::Signed::signed))]
fn index_at(s: &[u8], at: usize) -> i32
    ensures { result ≡ twos_complement 32 (be_at 4 s.now at) }
{
    be32_at(s, at).cast_signed()
}

// 0 none, 1 public, 2 seed: two bits of a record. C's codes are the same numbers by a rule of their own (`rights_from` of face_decisions), so
// that each can move alone.
fn rights_of(bits: u8) -> Rights
    ensures { result ≡ rights_of bits }
{
    match bits {
        1 => Rights::Public,
        2 => Rights::Seed,
        _ => Rights::None,
    }
}
