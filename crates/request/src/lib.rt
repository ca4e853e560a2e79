// Document 01, "The GetKey decision" (MS-GKDI 3.1.4.1): a request for a group key, with three signed indices, and what it asks for.
#![tactic(auto)]

ghost use Rattle.std.specs.Prelude.{◌≡◌};
ghost use Rattle.std.specs.Int.Signed.{non_neg};
ghost use Rattle.refusal.specs.Chain.{first_of};
ghost use Rattle.refusal.specs.Number.{outcome_number};
ghost use Rattle.request.specs.Indices.{below, outside, unset, out_of_range, mixed, index_checks, names, later_than_now};
ghost use Rattle.request.specs.Narrowed.{narrowed_of, narrowed_number, narrowed_names, narrowed_shown, named_or_zeros};

use gkid::{Gkid, L0, L1, L2};
use refusal::Refusal;
use rootid::RootId;

// A request: the root key or none, and three signed indices, -1 for the latest.
#[derive(Clone, Copy, Debug, PartialEq, Eq)]
pub struct Request {
    pub root: Option<RootId>,
    pub l0: i32,
    pub l1: i32,
    pub l2: i32,
}

// Tests are joined by `|` and `&`, so that they compile without branches.
impl Request {
    // 14: L0 below -1, or L1 or L2 outside -1..31.
    #[tactic(auto, unfolding(crate::specs::Indices::out_of_range))]
    pub fn out_of_range(self) -> bool
        ensures { result ≡ out_of_range self }
    {
        is_below(self.l0) | (is_outside(self.l1) | is_outside(self.l2))
    }

    // 15: some index is -1, and not all are.
    #[tactic(auto, unfolding(crate::specs::Indices::mixed))]
    pub fn is_mixed(self) -> bool
        ensures { result ≡ mixed self }
    {
        let latest = is_unset(self.l1);
        (is_unset(self.l0) != latest) | (latest != is_unset(self.l2))
    }

    // 17: the triple against now, signed and lexical.
    pub fn is_later_than(self, present: Gkid) -> bool
        ensures { result ≡ later_than_now self present }
    {
        let now = (
            i64::from(present.l0.0),
            i64::from(present.l1.0),
            i64::from(present.l2.0),
        );
        (i64::from(self.l0), i64::from(self.l1), i64::from(self.l2)) > now
    }

    // Whether the three indices are 0 or above.
    #[tactic(auto, unfolding(crate::specs::Indices::names))]
    pub fn names_one(self) -> bool
        ensures { result ≡ names self }
    {
        is_natural(self.l0) & (is_natural(self.l1) & is_natural(self.l2))
    }

    // The indices narrowed: 14, then 15; else the identifier named, or none where they ask for the latest.
    pub fn narrowed(self) -> Result<Option<Gkid>, Refusal>
        ensures answer { result ≡ narrowed_of self }
        ensures number { narrowed_number result ≡ outcome_number (first_of (index_checks self)) }
        ensures shown { narrowed_number result ≡ 0 → (narrowed_names result ≡ names self) × (narrowed_shown result ≡ named_or_zeros self) }
    {
        if self.out_of_range() {
            return Err(Refusal::IndexOutOfRange);
        }
        if self.is_mixed() {
            return Err(Refusal::MixedIndices);
        }
        if self.names_one() {
            return Ok(Some(Gkid {
                l0: L0(self.l0 as u32),
                l1: L1(self.l1 as u32),
                l2: L2(self.l2 as u32),
            }));
        }
        Ok(None)
    }
}

// Below -1.
#[tactic(auto, unfolding(crate::specs::Indices::below))]
fn is_below(index: i32) -> bool
    ensures { result ≡ below index }
{
    index < -1
}

// Outside -1..31.
#[tactic(auto, unfolding(crate::specs::Indices::outside))]
fn is_outside(index: i32) -> bool
    ensures { result ≡ outside index }
{
    is_below(index) | (index > 31)
}

// 0 or above.
fn is_natural(index: i32) -> bool
    ensures { result ≡ non_neg index }
{
    index >= 0
}

// -1 asks for the latest.
#[tactic(auto, using(crate::proofs::Signs::unset_bits))]
fn is_unset(index: i32) -> bool
    ensures { result ≡ unset index }
{
    index == -1
}
