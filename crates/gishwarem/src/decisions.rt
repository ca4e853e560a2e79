// Document 01, "The GetKey decision", for C: by a security descriptor (document 02, No. 5), and by the verdict on one.
ghost use Rattle.std.specs.Prelude.{◌≡◌, eqb};
ghost use Rattle.descriptor.specs.Checking.{finding_of, finding_number};
ghost use Rattle.getkey.specs.Deciding.{decision, decision_by_verdict};
ghost use Rattle.face_decisions.specs.Decisions.{rights_from, request_from, decision_answer};

use face_decisions::{DecisionAnswer, RequestIndices, rights_from};
use gkid::FileTime;

// Sound, or the part that fails first: no refusal, but an answer of its own.
#[unsafe(no_mangle)]
pub extern "C" fn gw_descriptor_check(s: &[u8]) -> u32
    ensures { result ≡ finding_number (finding_of s.now) }
{
    descriptor::number(descriptor::check(s))
}

#[unsafe(no_mangle)]
#[tactic(auto, unfolding(getkey::specs::Deciding::decision))]
pub extern "C" fn gw_decide(
    descriptor: &[u8],
    rights: u32,
    asked: RequestIndices,
    clock: u64,
    table: &[u8],
) -> DecisionAnswer
    ensures { result ≡ decision_answer (decision descriptor.now (rights_from rights) (request_from asked) (record { 0 = clock }) table.now) }
{
    decided(
        descriptor::is_sound(descriptor),
        rights,
        asked,
        clock,
        table,
    )
}

// A verdict that is not 1 is no.
#[unsafe(no_mangle)]
pub extern "C" fn gw_decide_by_verdict(
    verdict: u32,
    rights: u32,
    asked: RequestIndices,
    clock: u64,
    table: &[u8],
) -> DecisionAnswer
    ensures { result ≡ decision_answer (decision_by_verdict (eqb verdict 1) (rights_from rights) (request_from asked) (record { 0 = clock }) table.now) }
{
    decided(verdict == 1, rights, asked, clock, table)
}

// Both come here, so that the decision and its layout are one function, and the answer is written once.
fn decided(
    verdict: bool,
    rights: u32,
    asked: RequestIndices,
    clock: u64,
    table: &[u8],
) -> DecisionAnswer
    ensures { result ≡ decision_answer (decision_by_verdict verdict (rights_from rights) (request_from asked) (record { 0 = clock }) table.now) }
{
    getkey::decide_by_verdict(
        verdict,
        rights_from(rights),
        asked.into(),
        FileTime(clock),
        table,
    )
    .into()
}
