// Document 01, "The GetKey decision" (MS-GKDI 3.1.4.1): from a security descriptor or the verdict on it, rights, a request, a clock reading
// and the root table to the identifier granted, the form and the root row, or the refusal.
#![tactic(auto)]

ghost use Rattle.std.specs.Prelude.{◌≡◌, ℕ, Ok, take};
ghost use Rattle.refusal.specs.Chain.{first_of};
ghost use Rattle.getkey.specs.Deciding.{rights_too_low, checks, granted_at, form_for, wanted_of, granting, decision_by_verdict, decision, Starts};

use descriptor::is_sound;
use gkid::{FileTime, Gkid, L1, L2};
use keys::{Form, seed_form};
use refusal::Refusal;
use request::Request;
use rootid::RootId;
use roottable::{Wanted, choose};

// What the caller may be given: nothing, public keys, or seed keys.
#[derive(Clone, Copy, Debug, PartialEq, Eq)]
pub enum Rights {
    None,
    Public,
    Seed,
}

// What is granted: the identifier, the form, and the root row, or none where a root key is to be created.
#[derive(Clone, Copy, Debug, PartialEq, Eq)]
pub struct Granted {
    pub at: Gkid,
    pub form: Form,
    pub row: Option<usize>,
}

// What is asked for: a root or any, and an identifier, which has a start, or the latest.
#[derive(Clone, Copy, Debug, PartialEq, Eq)]
struct Target {
    root: Option<RootId>,
    named: Option<Gkid>,
    ghost starts: { Starts named },
}

// The decision. 16 where the descriptor is not sound. Its parameters and those of `decide_by_verdict` stay apart: as a struct they would
// be put together by each caller, and taken apart for `judge` and `grant`, neither of which asks all.
#[tactic(auto, unfolding(crate::specs::Deciding::decision))]
pub fn decide(
    descriptor: &[u8],
    rights: Rights,
    request: Request,
    clock: FileTime,
    table: &[u8],
) -> Result<Granted, Refusal>
    ensures { result ≡ decision descriptor.now rights request clock table.now }
{
    decide_by_verdict(is_sound(descriptor), rights, request, clock, table)
}

// The decision where a verdict stands for the descriptor. The clock is converted once, and the table is passed over at most once.
pub fn decide_by_verdict(
    verdict: bool,
    rights: Rights,
    request: Request,
    clock: FileTime,
    table: &[u8],
) -> Result<Granted, Refusal>
    ensures { result ≡ decision_by_verdict verdict rights request clock table.now }
{
    let present = Gkid::at(clock);
    judge(verdict, rights, request, present)?;
    let target = Target {
        root: request.root,
        named: request.narrowed()?,
    };
    target.grant(rights, present, table)
}

// 16, 14, 15, 17, 18: the checks but for the last, 20, which `choose` answers.
#[tactic(auto, unfolding(crate::specs::Deciding::checks, refusal::specs::Chain::first_of))]
fn judge(verdict: bool, rights: Rights, request: Request, present: Gkid) -> Result<(), Refusal>
    ensures { (len : ℕ) → result ≡ first_of (take 5 (checks verdict rights request present len)) }
{
    if !verdict {
        return Err(Refusal::VerdictNo);
    }
    if request.out_of_range() {
        return Err(Refusal::IndexOutOfRange);
    }
    if request.is_mixed() {
        return Err(Refusal::MixedIndices);
    }
    if request.is_later_than(present) {
        return Err(Refusal::LaterThanNow);
    }
    if rights.are_too_low(request.names_one()) {
        return Err(Refusal::RightsTooLow);
    }
    Ok(())
}

impl Target {
    // What is asked for, if a row is found: 20, 19. Without one, a root key is created if none is given and the latest is asked for.
    #[tactic(auto, using(lemmas::proofs::Results::passed_on), unfolding(crate::specs::Deciding::granting, crate::specs::Deciding::with_row, crate::specs::Deciding::without_row))]
    fn grant(self, rights: Rights, present: Gkid, table: &[u8]) -> Result<Granted, Refusal>
        ensures { result ≡ granting rights self.root (Ok self.named) present table.now }
    {
        let at = self.granted_at(present);
        let form = rights.form(at);
        let row = choose(self.row_wanted(), table)?;
        if row.is_none() && (self.root.is_some() || self.named.is_some()) {
            return Err(Refusal::NoRootKey);
        }
        Ok(Granted { at, form, row })
    }

    // The identifier granted.
    #[tactic(auto, unfolding(crate::specs::Deciding::granted_at))]
    fn granted_at(self, present: Gkid) -> Gkid
        ensures { result ≡ granted_at self.named self.root present }
    {
        let Some(named) = self.named else {
            return present;
        };
        if self.root.is_none() {
            return named;
        }
        if named.l0 < present.l0 {
            return Gkid {
                l0: named.l0,
                l1: L1(31),
                l2: L2(31),
            };
        }
        present
    }

    // The row wanted: that of the root given, or the newest, or one in use at the start of the named identifier.
    #[tactic(auto, using(gkid::proofs::Times::start_is), unfolding(crate::specs::Deciding::wanted_of))]
    fn row_wanted(self) -> Wanted
        ensures { result ≡ wanted_of self.root self.named }
    {
        match (self.root, self.named) {
            (Some(id), _) => Wanted::Root(id),
            (None, None) => Wanted::Newest,
            (None, Some(named)) => Wanted::InUse(named.start().unwrap()),
        }
    }
}

impl Rights {
    // 18: none, or public while an identifier is named.
    #[tactic(auto, unfolding(crate::specs::Deciding::rights_too_low))]
    fn are_too_low(self, named: bool) -> bool
        ensures { result ≡ rights_too_low self named }
    {
        match self {
            Rights::None => true,
            Rights::Public => named,
            Rights::Seed => false,
        }
    }

    // The form that rights give at an identifier.
    #[tactic(auto, unfolding(crate::specs::Deciding::form_for))]
    fn form(self, at: Gkid) -> Form
        ensures { result ≡ form_for self at }
    {
        match self {
            Rights::None => Form::Keyless,
            Rights::Public => Form::Public,
            Rights::Seed => seed_form(at),
        }
    }
}
