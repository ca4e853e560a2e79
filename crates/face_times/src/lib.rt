// Document 01, "Time and identifiers", as C has its answers.
#![tactic(auto)]

ghost use Rattle.std.specs.Prelude.{◌≡◌};
ghost use Rattle.face.specs.Shapes.{no_identifier};
ghost use Rattle.face_times.specs.Times.{present_answer, start_answer, older_answer};

use face::Identifier;
use gkid::{FileTime, Gkid};
use refusal::Refusal;

// An identifier: found is 1 where there is one.
#[repr(C)]
#[derive(Clone, Copy, Debug, PartialEq, Eq)]
pub struct IdentifierAnswer {
    pub refusal: u32,
    pub found: u32,
    pub at: Identifier,
}

// The reading at which an identifier starts.
#[repr(C)]
#[derive(Clone, Copy, Debug, PartialEq, Eq)]
pub struct StartAnswer {
    pub refusal: u32,
    pub reserved: u32,
    pub time: u64,
}

// A reading always has its identifier; an identifier's next older one is shown the same way.
impl From<Gkid> for IdentifierAnswer {
    ghost from_gives = { λ present answer. answer ≡ present_answer present };

    fn from(present: Gkid) -> IdentifierAnswer {
        IdentifierAnswer {
            refusal: 0,
            found: 1,
            at: present.into(),
        }
    }
}

impl From<Result<FileTime, Refusal>> for StartAnswer {
    ghost from_gives = { λ start answer. answer ≡ start_answer start };

    #[tactic(auto, unfolding(crate::specs::Times::start_answer, gkid::specs::Start::start_number, gkid::specs::Start::start_shown))]
    fn from(start: Result<FileTime, Refusal>) -> StartAnswer {
        match start {
            Ok(time) => StartAnswer {
                refusal: 0,
                reserved: 0,
                time: time.0,
            },
            Err(refusal) => StartAnswer {
                refusal: refusal.number(),
                reserved: 0,
                time: 0,
            },
        }
    }
}

// (L0, 0, 0) has none, which is no refusal.
impl From<Result<Option<Gkid>, Refusal>> for IdentifierAnswer {
    ghost from_gives = { λ older answer. answer ≡ older_answer older };

    #[tactic(auto, unfolding(crate::specs::Times::older_answer, gkid::specs::Older::older_number, gkid::specs::Older::older_found, gkid::specs::Older::older_shown))]
    fn from(older: Result<Option<Gkid>, Refusal>) -> IdentifierAnswer {
        match older {
            Ok(Some(at)) => at.into(),
            Ok(None) => nothing(0),
            Err(refusal) => nothing(refusal.number()),
        }
    }
}

// No identifier.
fn nothing(refusal: u32) -> IdentifierAnswer
    ensures { result ≡ record { refusal = refusal; found = 0; at = no_identifier } }
{
    IdentifierAnswer {
        refusal,
        found: 0,
        at: Identifier {
            l0: 0,
            l1: 0,
            l2: 0,
        },
    }
}
