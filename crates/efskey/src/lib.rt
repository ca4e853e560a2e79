// Document 01, "EfsKey" (MS-GPEF 2.2.1.2.2), with No. 2 of document 02: read and written.
#![tactic(auto)]

ghost use Rattle.std.specs.Prelude.{◌≡◌, ◌||◌, ◌+◌, ◌-◌, ◌≤◌, length};
ghost use Rattle.refusal.specs.Chain.{first_of};
ghost use Rattle.wire.specs.Parts.{onto, LiesAt};
ghost use Rattle.records.specs.Writing.{output_of};
ghost use Rattle.efskey.specs.Layout.{lengths_disagree, certificate_misplaced, sid_misplaced, gap_without_sid, sid_area, all_zeros, is_no_hint, area_of};
ghost use Rattle.efskey.specs.Reading.{head_checks, shown_with, efs_key_of, hint_kind, hint_span, span_of, efs_key_span, efs_key_part};
ghost use Rattle.efskey.specs.Writing.{efs_key_length, offset_for, efs_key_bytes, write_checks, efs_key_written};

use records::{LIMIT, grown};
use refusal::Refusal;
use sid::is_sid;
use wire::{Span, copy_into, le32_at, put_le32s};

// An accepted EfsKey: what it has of a SID, and where the certificate stands, counted from byte 0 of the record.
#[derive(Clone, Copy, Debug, PartialEq, Eq)]
pub struct EfsKey {
    pub sid: SidHint,
    pub certificate: Span,
}

// What an EfsKey has of a SID, a hint on who made the key: none, one, or zero bytes in its place, which give no hint. It is no Option, as
// `hint_kind` and `sid_kind`, which C is told, have three kinds.
#[derive(Clone, Copy, Debug, PartialEq, Eq)]
pub enum SidHint {
    None,
    Sid(Span),
    NoHint(Span),
}

// The parts of an EfsKey.
#[derive(Clone, Copy, Debug, PartialEq, Eq)]
pub enum EfsKeyPart {
    Sid,
    Certificate,
}

impl SidHint {
    // The kind as a number, which the C interface needs, under the name that docs/ASSURANCE.md cites.
    #[tactic(auto, unfolding(crate::specs::Reading::hint_kind))]
    pub fn kind(self) -> u32
        ensures { result ≡ hint_kind self }
    {
        match self {
            SidHint::None => 0,
            SidHint::Sid(_) => 1,
            SidHint::NoHint(_) => 2,
        }
    }

    // An absent SID is empty at 0.
    #[tactic(auto, unfolding(crate::specs::Reading::hint_span))]
    pub fn span(self) -> Span
        ensures { result ≡ hint_span self }
    {
        match self {
            SidHint::None => Span { at: 0, len: 0 },
            SidHint::Sid(span) | SidHint::NoHint(span) => span,
        }
    }

    // What the bytes of the area are, with that SID offset: 12 if none of these. Zeros are the EfsKey's own: the SID rule stays document
    // 01's, for whoever else asks it. No bytes are both, as a SID's first is 1; told first, it is spared the pass.
    #[tactic(auto, using(crate::proofs::Hints::sid_hint, sid::proofs::ExactlyWhen::sid_well_formed), unfolding(crate::specs::Layout::area_of, crate::specs::Layout::hint_of, crate::specs::Layout::sid_malformed))]
    fn of(offset: u32, area: &[u8]) -> Result<SidHint, Refusal>
        ensures { result ≡ area_of offset area.now }
    {
        if offset == 0 {
            return Ok(SidHint::None);
        }
        let span = Span {
            at: 32,
            len: area.len(),
        };
        if is_sid(area) {
            return Ok(SidHint::Sid(span));
        }
        if is_no_hint(area) {
            return Ok(SidHint::NoHint(span));
        }
        Err(Refusal::MalformedSid)
    }
}

impl EfsKey {
    // Where a part stands; an absent SID is empty at 0.
    #[tactic(auto, unfolding(crate::specs::Reading::span_of))]
    pub fn span(self, which: EfsKeyPart) -> Span
        ensures { result ≡ span_of (Ok self) which }
    {
        match which {
            EfsKeyPart::Sid => self.sid.span(),
            EfsKeyPart::Certificate => self.certificate,
        }
    }
}

// Where a part of what was read stands: each part of a refused record, and an absent SID, is empty at 0.
#[tactic(auto, unfolding(crate::specs::Reading::span_of))]
pub fn span_of(read: Result<EfsKey, Refusal>, which: EfsKeyPart) -> Span
    ensures { result ≡ span_of read which }
{
    read.map_or(Span { at: 0, len: 0 }, |key| key.span(which))
}

// What an EfsKey shows, or its refusal. The SID area comes last, and what it holds is both judged and shown.
#[tactic(auto, using(crate::proofs::Reading::head_refused, crate::proofs::Reading::head_accepted))]
pub fn read(s: &[u8]) -> Result<EfsKey, Refusal>
    ensures { result ≡ efs_key_of s.now }
{
    judge_head(s)?;
    let sid = SidHint::of(le32_at(s, 8), area_in(s))?;
    Ok(shown(s, sid))
}

// The checks before the SID area's, in document 01's order; a number is read just before its check.
#[tactic(auto, unfolding(crate::specs::Reading::head_checks, refusal::specs::Chain::first_of))]
fn judge_head(s: &[u8]) -> Result<(), Refusal>
    ensures { result ≡ first_of (head_checks s.now) }
{
    let len = s.len();
    if LIMIT < len {
        return Err(Refusal::TooLong);
    }
    if len < 32 {
        return Err(Refusal::Short);
    }
    let total = le32_at(s, 0);
    if do_disagree(total, le32_at(s, 4), len) {
        return Err(Refusal::LengthsDisagree);
    }
    if le32_at(s, 12) != 2 {
        return Err(Refusal::WrongMark);
    }
    let certificate = le32_at(s, 16);
    if certificate == 0 {
        return Err(Refusal::EmptyItem);
    }
    if is_misplaced(le32_at(s, 8), le32_at(s, 20), certificate, total) {
        return Err(Refusal::Misplaced);
    }
    Ok(())
}

// 3 unless Length1 is the record's length and Length2 = Length1 - 4.
fn do_disagree(length1: u32, length2: u32, len: usize) -> bool
    ensures { result ≡ lengths_disagree len length1 length2 }
{
    (length1 as usize != len) | (length2 as usize + 4 != length1 as usize)
}

// The three checks that give 6: true unless the certificate ends the record, and the SID offset is 28 with the certificate not
// before its area, or 0 with the certificate straight behind the head.
fn is_misplaced(sid: u32, offset: u32, certificate: u32, total: u32) -> bool
    ensures { result ≡ certificate_misplaced offset certificate total || sid_misplaced sid || gap_without_sid sid offset }
{
    if 4 + offset as usize + certificate as usize != total as usize {
        return true;
    }
    if sid == 28 {
        return offset < 28;
    }
    (sid != 0) | (offset != 28)
}

// The SID area, from 32 to the certificate.
#[tactic(auto, unfolding(crate::specs::Layout::sid_area))]
fn area_in(s: &[u8]) -> &[u8]
    ensures { result.now ≡ sid_area s.now }
{
    let span = Span {
        at: 32,
        len: (le32_at(s, 20) as usize).saturating_sub(28),
    };
    wire::part(s, span)
}

// At least one byte, and all of them zero.
#[tactic(auto, unfolding(crate::specs::Layout::is_no_hint))]
fn is_no_hint(area: &[u8]) -> bool
    ensures { result ≡ is_no_hint area.now }
{
    !area.is_empty() && are_zeros(area)
}

// All bytes in one pass: their bits are gathered, and none is set. By `all` the most zeros took some 27 times as many instructions.
#[tactic(auto, using(crate::proofs::Hints::or_zero), unfolding(crate::specs::Layout::all_zeros, lemmas::specs::Counting::every))]
fn are_zeros(area: &[u8]) -> bool
    ensures { result ≡ all_zeros area.now }
{
    let mut any = 0;
    for byte in area {
        any |= *byte;
    }
    any == 0
}

// What an accepted record shows, with what it has of a SID.
fn shown(s: &[u8], sid: SidHint) -> EfsKey
    ensures { result ≡ shown_with s.now sid }
{
    EfsKey {
        sid,
        certificate: Span {
            at: 4 + le32_at(s, 20) as usize,
            len: le32_at(s, 16) as usize,
        },
    }
}

// The bytes of a part: those very bytes of s, or the empty part on a refusal and for an absent SID.
// As `span_of`, one line in each record's crate: a trait that has both would ask each for the kind of part, the reader, the places and the law
// that they lie inside, which is more than these lines.
#[tactic(auto, using(wire::proofs::Parts::start_in, crate::proofs::Reading::part_inside))]
pub fn part(s: &[u8], which: EfsKeyPart) -> &[u8]
    ensures bytes { result.now ≡ efs_key_part s.now which }
    ensures place { LiesAt result s.entry (efs_key_span s.now which).at }
{
    wire::part(s, span_of(read(s), which))
}

// Writes an EfsKey of a SID, which is empty for none or zeros for no hint, and a certificate: what is given is judged, then 13. A
// refusal keeps the output's bytes; success keeps those behind the record.
// The shape is that of each record's writer, over its own judge, length and `put`: a trait for it would ask for these three, and a type of
// what is given. As one value it would be put together by each caller, and taken apart in `put`.
#[tactic(auto, using(crate::proofs::Writing::within_limit), unfolding(records::specs::Writing::written_of, records::specs::Writing::output_of, refusal::specs::Chain::unless_refused, refusal::specs::Chain::refuse_if))]
pub fn write(out: &mut [u8], sid: &[u8], certificate: &[u8]) -> Result<usize, Refusal>
    ensures answer { result ≡ efs_key_written sid.now certificate.now (length out.old) }
    ensures output { out.new ≡ output_of result (efs_key_bytes sid.now certificate.now) out.old }
{
    judge_given(sid, certificate)?;
    let len = 32 + sid.len() + certificate.len();
    if out.len() < len {
        return Err(Refusal::NoRoom);
    }
    put(out, sid, certificate);
    Ok(len)
}

// What the reader would say of the bytes: of its refusals only 1, 7 and 12 can occur.
#[tactic(auto, using(crate::proofs::Writing::write_checks_lem, crate::proofs::Writing::area_decides), unfolding(refusal::specs::Chain::first_of))]
fn judge_given(sid: &[u8], certificate: &[u8]) -> Result<(), Refusal>
    ensures { result ≡ first_of (write_checks sid.now certificate.now) }
{
    if LIMIT < grown(grown(32, sid.len()), certificate.len()) {
        return Err(Refusal::TooLong);
    }
    if certificate.is_empty() {
        return Err(Refusal::EmptyItem);
    }
    SidHint::of(offset_for(sid.len()), sid)?;
    Ok(())
}

// An empty SID means none: SID offset 0.
fn offset_for(len: usize) -> u32
    ensures { result ≡ offset_for len }
{
    if len == 0 { 0 } else { 28 }
}

// The head, and each body into its own part of the output.
fn put(out: &mut [u8], sid: &[u8], certificate: &[u8])
    requires { (efs_key_length sid.now certificate.now ≤ 65535) × (efs_key_length sid.now certificate.now ≤ length out.old) }
    ensures { out.new ≡ onto (efs_key_bytes sid.now certificate.now) out.old }
{
    let at = 32 + sid.len();
    let len = at + certificate.len();
    let head = [
        len as u32,
        (len - 4) as u32,
        offset_for(sid.len()),
        2,
        certificate.len() as u32,
        (28 + sid.len()) as u32,
        0,
        0,
    ];
    put_le32s(&mut out[0..32], &head);
    copy_into(&mut out[32..at], sid);
    copy_into(&mut out[at..len], certificate);
}
