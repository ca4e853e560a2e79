// Document 02, No. 5: whether bytes are a sound self-relative security descriptor (MS-DTYP 2.4.6), for the GetKey decision. Nothing else is
// judged: other control bits, reserved fields, types, sizes that are no multiple of 4, and bytes that no item covers may be anything.
#![tactic(auto)]

ghost use Rattle.std.specs.Prelude.{◌≡◌};
ghost use Rattle.sid.specs.Rule.{starts_sid};
ghost use Rattle.descriptor.specs.Checking.{entries_fit, starts_acl, names, head_sound, finding_of, finding_number, is_sound};

use records::LIMIT;
use sid::starts_sid;
use wire::{Span, byte_at, le16_at, le32_at, part, rest};

// The parts of a descriptor, in the order in which they are judged. Each has a number.
#[derive(Clone, Copy, Debug, PartialEq, Eq)]
pub enum Part {
    Head = 1,
    Owner = 2,
    Group = 3,
    Sacl = 4,
    Dacl = 5,
}

// The number of what the check finds: 0 for sound, else the part's, which C is told. A Result is not of this crate, so that this is no `From`.
#[tactic(auto, unfolding(crate::specs::Checking::finding_number))]
pub fn number(finding: Result<(), Part>) -> u32
    ensures { result ≡ finding_number finding }
{
    match finding {
        Ok(()) => 0,
        Err(part) => part as u32,
    }
}

// What the decision asks: no part fails.
#[tactic(auto, unfolding(crate::specs::Checking::finding_number, crate::specs::Checking::is_sound))]
pub fn is_sound(s: &[u8]) -> bool
    ensures { result ≡ is_sound s.now }
{
    finding(s).is_ok()
}

// The check as a call. In the decision, were it inlined there, an entry of an ACL would take 13 instructions for 11.
#[inline(never)]
fn finding(s: &[u8]) -> Result<(), Part>
    ensures { result ≡ finding_of s.now }
{
    check(s)
}

// Sound, or the part that fails first: head, owner, group, SACL, DACL, in the standard's order. Each ACL is passed over once.
// Inlined, so that who asks for its number has it without a call: as one, the least descriptor takes 1.3 times as long, and one whose head is
// refused up to 1.7 times.
#[inline(always)]
#[tactic(auto, unfolding(crate::specs::Checking::finding_of))]
pub fn check(s: &[u8]) -> Result<(), Part>
    ensures { result ≡ finding_of s.now }
{
    if !has_sound_head(s) {
        return Err(Part::Head);
    }
    if !names_sid(s, le32_at(s, 4)) {
        return Err(Part::Owner);
    }
    if !names_sid(s, le32_at(s, 8)) {
        return Err(Part::Group);
    }
    if !names_acl(s, le32_at(s, 12)) {
        return Err(Part::Sacl);
    }
    if !names_acl(s, le32_at(s, 16)) {
        return Err(Part::Dacl);
    }
    Ok(())
}

// At most 65,535 bytes, a head of 20, revision 1, and the control bit 0x8000.
#[tactic(auto, unfolding(crate::specs::Checking::head_sound))]
fn has_sound_head(s: &[u8]) -> bool
    ensures { result ≡ head_sound s.now }
{
    if s.len() > LIMIT {
        return false;
    }
    if s.len() < 20 {
        return false;
    }
    if byte_at(s, 0) != 1 {
        return false;
    }
    le16_at(s, 2) / 32768 % 2 == 1
}

// Owner and group: an offset is 0, or at least 20 with a SID inside the descriptor.
#[tactic(auto, unfolding(crate::specs::Checking::names))]
fn names_sid(s: &[u8], at: u32) -> bool
    ensures { result ≡ names starts_sid s.now at }
{
    if at == 0 {
        return true;
    }
    if at < 20 {
        return false;
    }
    starts_sid(rest(s, at as usize))
}

// SACL and DACL: likewise, with an ACL. One function over the kind of item (an `impl FnOnce`) was tried and proves: with it an entry takes 12
// instructions where it takes 11 so, and a descriptor of many entries 1.09 of the reference's count, which it equals so.
#[tactic(auto, unfolding(crate::specs::Checking::names))]
fn names_acl(s: &[u8], at: u32) -> bool
    ensures { result ≡ names starts_acl s.now at }
{
    if at == 0 {
        return true;
    }
    if at < 20 {
        return false;
    }
    starts_acl(rest(s, at as usize))
}

// An ACL: at least its head's 8 bytes and inside; its entries are those behind the head, inside its own size.
#[tactic(auto, using(wire::proofs::Parts::part_in), unfolding(crate::specs::Checking::starts_acl, crate::specs::Checking::starts_sized))]
fn starts_acl(t: &[u8]) -> bool
    ensures { result ≡ starts_acl t.now }
{
    let len = le16_at(t, 2) as usize;
    if len < 8 {
        return false;
    }
    if len > t.len() {
        return false;
    }
    entries_fit(le16_at(t, 4), rest(part(t, Span { at: 0, len }), 8))
}

// As many entries as counted, end to end: each is passed, and those behind it are left. Counted down: `for _ in 0..count` was tried and proves,
// and an entry takes 12 instructions by it for 11, where the reference's takes 11.
#[tactic(auto, using(wire::proofs::Parts::rest_whole, crate::proofs::Items::stops, crate::proofs::Items::goes_on_lem), unfolding(crate::specs::Checking::starts_sized, crate::specs::Checking::entries_fit))]
fn entries_fit(count: u16, t: &[u8]) -> bool
    ensures { result ≡ entries_fit count t.now }
{
    let mut entries = t;
    let mut left = count;
    while left > 0 {
        let size = le16_at(entries, 2) as usize;
        if size < 4 {
            return false;
        }
        if size > entries.len() {
            return false;
        }
        entries = &entries[size..];
        left -= 1;
    }
    true
}
