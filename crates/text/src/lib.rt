// Document 01, "Group Key Envelope", and document 02, No. 6: the rule that the four texts of an envelope follow, and a text written.
#![tactic(auto)]

ghost use Rattle.std.specs.Prelude.{◌≡◌};
ghost use Rattle.refusal.specs.Chain.{first_of};
ghost use Rattle.wire.specs.Parts.{onto};
ghost use Rattle.text.specs.Units.{is_high, is_low};
ghost use Rattle.text.specs.Text.{text_checks};

use refusal::{Refusal, refuse_if};
use wire::le16_at;

// Whether a text is accepted, or its refusal: 10 unless it is whole 16-bit units, the last one zero and no earlier one; then 24 for an
// unpaired surrogate. One pass, in which no unit decides where it goes on: each is compared with zero and with the unit behind it.
pub fn judge(s: &[u8]) -> Result<(), Refusal>
    ensures { result ≡ first_of (text_checks s.now) }
{
    if s.len() < 2 {
        return Err(Refusal::MalformedText);
    }
    if (s.len() % 2 != 0) | (le16_at(s, s.len() - 2) != 0) {
        return Err(Refusal::MalformedText);
    }
    let last = s.len() / 2 - 1;
    let mut zero = false;
    // Before the first unit there is none, so that a low one there is unpaired.
    let mut unpaired = is_low(le16_at(s, 0));
    for k in 0..last {
        let at = 2 * k;
        let two = &s[at..at + 4];
        let unit = le16_at(two, 0);
        let next = le16_at(two, 2);
        zero = zero | (unit == 0);
        unpaired = unpaired | (is_high(unit) != is_low(next));
    }
    refuse_if(zero, Refusal::MalformedText)?;
    refuse_if(unpaired, Refusal::UnpairedSurrogate)
}

// A high surrogate, which a low one has to follow. It and `is_low` are each one line under the name of a rule, as they would be over one
// function of two bounds.
#[tactic(auto, unfolding(crate::specs::Units::is_high))]
fn is_high(unit: u16) -> bool
    ensures { result ≡ is_high unit }
{
    (0xD800 <= unit) & (unit <= 0xDBFF)
}

// A low surrogate, which stands behind a high one.
#[tactic(auto, unfolding(crate::specs::Units::is_low))]
fn is_low(unit: u16) -> bool
    ensures { result ≡ is_low unit }
{
    (0xDC00 <= unit) & (unit <= 0xDFFF)
}

// A text written into the part of the output where it stands (`keys::put` says why this is no twin of it).
pub fn put(dst: &mut [u8], text: &[u8])
    ensures { dst.new ≡ onto text.now dst.old }
{
    wire::copy_into(dst, text);
}
