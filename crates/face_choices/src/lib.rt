// Document 01, "Reach, and the two envelopes", as C has its answers.
#![tactic(auto)]

ghost use Rattle.std.specs.Prelude.{◌≡◌};
ghost use Rattle.face.specs.Shapes.{part_shown};
ghost use Rattle.face_choices.specs.Choices.{key_code, reach_answer, choice_answer};

use face::Part;
use reach::Reach;
use refusal::Refusal;
use serving::{Choice, SeedKey, Serving};

// A reach: the map, index 0 the most significant bit of a row, and the number of set bits.
#[repr(C)]
#[derive(Clone, Copy, Debug, PartialEq, Eq)]
pub struct ReachAnswer {
    pub refusal: u32,
    pub total: u32,
    pub rows: [u32; 32],
}

// Which envelope serves, 1 for the cached one, 2 for the fetched one; by which key, 1 for the L1 key, 2 for the L2 key; and where
// that key stands in that envelope.
#[repr(C)]
#[derive(Clone, Copy, Debug, PartialEq, Eq)]
pub struct ChoiceAnswer {
    pub refusal: u32,
    pub which: u32,
    pub key: u32,
    pub reserved: u32,
    pub place: Part,
}

// A refusal shows zeros.
impl From<Result<Reach, Refusal>> for ReachAnswer {
    ghost from_gives = { λ reach answer. answer ≡ reach_answer reach };

    // Inlined, as `Reach::of`: as calls, each copies the rows once more, and a form's reach takes up to 1.9 times as long.
    #[inline(always)]
    fn from(reach: Result<Reach, Refusal>) -> ReachAnswer {
        match reach {
            Ok(reach) => ReachAnswer {
                refusal: 0,
                total: reach.total(),
                rows: reach.rows(),
            },
            Err(refusal) => ReachAnswer {
                refusal: refusal.number(),
                total: 0,
                rows: [0; 32],
            },
        }
    }
}

impl From<Result<Choice, Refusal>> for ChoiceAnswer {
    ghost from_gives = { λ choice answer. answer ≡ choice_answer choice };

    #[tactic(auto, unfolding(crate::specs::Choices::choice_answer, serving::specs::Choice::choice_number, crate::specs::Choices::which_code, crate::specs::Choices::chosen_key_code, serving::specs::Choice::choice_span))]
    fn from(choice: Result<Choice, Refusal>) -> ChoiceAnswer {
        match choice {
            Ok(Choice::Cached(serving)) => chosen(1, serving),
            Ok(Choice::Fetched(serving)) => chosen(2, serving),
            Err(refusal) => ChoiceAnswer {
                refusal: refusal.number(),
                which: 0,
                key: 0,
                reserved: 0,
                place: Part { at: 0, len: 0 },
            },
        }
    }
}

// The envelope that serves, the key by which it does, and where that stands.
fn chosen(which: u32, serving: Serving) -> ChoiceAnswer
    ensures { result ≡ record { refusal = 0; which = which; key = key_code serving.key; reserved = 0; place = part_shown serving.place } }
{
    ChoiceAnswer {
        refusal: 0,
        which,
        key: key_code(serving.key),
        reserved: 0,
        place: serving.place.into(),
    }
}

// The C interface needs a number, and neither type is of this crate, so that this is no `From`; nor is it the
// variant's own number, as C's codes are the face's alone.
#[tactic(auto, unfolding(crate::specs::Choices::key_code))]
fn key_code(key: SeedKey) -> u32
    ensures { result ≡ key_code key }
{
    match key {
        SeedKey::L1 => 1,
        SeedKey::L2 => 2,
    }
}
