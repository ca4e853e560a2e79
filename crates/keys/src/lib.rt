// Document 01, "Group Key Envelope", 11, with the house rule of document 02, No. 4, and "The GetKey decision", Form: the rule on the
// lengths of an envelope's two keys, a key written, and the forms, which say what keys there are.
#![tactic(auto)]

ghost use Rattle.std.specs.Prelude.{◌≡◌, false, not};
ghost use Rattle.refusal.specs.Chain.{first_of};
ghost use Rattle.wire.specs.Parts.{onto};
ghost use Rattle.keys.specs.KeyRule.{l1_key_allowed, l2_key_allowed, keys_allowed, key_checks};
ghost use Rattle.keys.specs.Forms.{keys_of, seed_form, seed_key_length, seed_checks};

use gkid::Gkid;
use refusal::{Refusal, refuse_if};

// Which keys an envelope carries: NOKEY, L1ONLY, L2ONLY, BOTH or PUBLIC.
#[derive(Clone, Copy, Debug, PartialEq, Eq)]
pub enum Form {
    Keyless,
    L1Only,
    L2Only,
    Both,
    Public,
}

// The seed keys that are present.
#[derive(Clone, Copy, Debug, PartialEq, Eq)]
pub struct SeedKeys {
    pub l1: bool,
    pub l2: bool,
}

// L1 key: length 0 or 64, and 0 if public or if L1 = 0 and L2 is not 31.
#[tactic(auto, unfolding(crate::specs::KeyRule::l1_key_allowed))]
fn l1_key_allowed(public: bool, at: Gkid, len: usize) -> bool
    ensures { result ≡ l1_key_allowed public at len }
{
    if public {
        return len == 0;
    }
    if at.l1.0 == 0 && at.l2.0 != 31 {
        return len == 0;
    }
    len == 0 || len == 64
}

// L2 key: 0 for a seed if L2 = 31; else 0, or 64 for a seed, or the public key length for a public envelope.
#[tactic(auto, unfolding(crate::specs::KeyRule::l2_key_allowed))]
fn l2_key_allowed(public: bool, at: Gkid, public_length: usize, len: usize) -> bool
    ensures { result ≡ l2_key_allowed public at public_length len }
{
    if public {
        return len == 0 || len == public_length;
    }
    if at.l2.0 == 31 {
        return len == 0;
    }
    len == 0 || len == 64
}

#[tactic(auto, unfolding(crate::specs::KeyRule::keys_allowed))]
fn keys_allowed(
    public: bool,
    at: Gkid,
    public_length: usize,
    l1_length: usize,
    l2_length: usize,
) -> bool
    ensures { result ≡ keys_allowed public at public_length l1_length l2_length }
{
    l1_key_allowed(public, at, l1_length) && l2_key_allowed(public, at, public_length, l2_length)
}

// Whether the rule accepts keys of these lengths at an identifier, or its refusal, 11; that an index is above 31 is not the rule's to say. The five
// stay apart here and in `keys_allowed`: as a struct they would be put together at the one call, and taken apart in the next line.
#[tactic(auto, unfolding(crate::specs::KeyRule::key_checks))]
pub fn judge(
    public: bool,
    at: Gkid,
    public_length: usize,
    l1_length: usize,
    l2_length: usize,
) -> Result<(), Refusal>
    ensures { result ≡ first_of (key_checks public at public_length l1_length l2_length) }
{
    let allowed = keys_allowed(public, at, public_length, l1_length, l2_length);
    refuse_if(!allowed, Refusal::KeyLength)
}

// A key written into the part of the output where it stands. That a text is written so too is no twin: each rule has its writer beside
// it, so that a rule that moves moves one crate (docs/ARCHITECTURE.md, "One room for each rule").
pub fn put(dst: &mut [u8], key: &[u8])
    ensures { dst.new ≡ onto key.now dst.old }
{
    wire::copy_into(dst, key);
}

impl Form {
    // The seed keys of a form. A public key is none.
    #[tactic(auto, unfolding(crate::specs::Forms::keys_of))]
    pub fn keys(self) -> SeedKeys
        ensures { result ≡ keys_of self }
    {
        match self {
            Form::Keyless => SeedKeys {
                l1: false,
                l2: false,
            },
            Form::L1Only => SeedKeys {
                l1: true,
                l2: false,
            },
            Form::L2Only => SeedKeys {
                l1: false,
                l2: true,
            },
            Form::Both => SeedKeys { l1: true, l2: true },
            Form::Public => SeedKeys {
                l1: false,
                l2: false,
            },
        }
    }
}

// The form that seed rights give at an identifier, told by L2 and then L1 whatever they are; where one is above 31, a seed envelope with
// that form's keys is refused 5.
#[tactic(auto, unfolding(crate::specs::Forms::seed_form))]
pub fn seed_form(at: Gkid) -> Form
    ensures { result ≡ seed_form at }
{
    if at.l2.0 == 31 {
        return Form::L1Only;
    }
    if at.l1.0 == 0 {
        return Form::L2Only;
    }
    Form::Both
}

impl SeedKeys {
    // What the key rule comes to for a seed's 64-byte keys: no L1 key at L1 = 0 and L2 not 31, no L2 key at L2 = 31.
    #[tactic(auto, using(crate::proofs::FormLaws::seed_keys_lem))]
    fn are_barred(self, at: Gkid) -> bool
        ensures { result ≡ not (keys_allowed false at 0 (seed_key_length self.l1) (seed_key_length self.l2)) }
    {
        let last = at.l2.0 == 31;
        (self.l1 & (at.l1.0 == 0) & !last) | (self.l2 & last)
    }

    // What a seed envelope at an identifier with just those keys is answered: 5, then the key rule.
    #[tactic(auto, unfolding(crate::specs::Forms::seed_checks, refusal::specs::Chain::first_of, crate::specs::KeyRule::key_checks))]
    pub fn judge(self, at: Gkid) -> Result<(), Refusal>
        ensures { result ≡ first_of (seed_checks self at) }
    {
        if at.index_above_31() {
            return Err(Refusal::IndexAbove31);
        }
        if self.are_barred(at) {
            return Err(Refusal::KeyLength);
        }
        Ok(())
    }
}
