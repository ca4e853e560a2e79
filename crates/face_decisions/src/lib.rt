// Document 01, "The GetKey decision", as C has its answer, and the request and the rights as C hands them in, and as C is shown them.
#![tactic(auto)]

ghost use Rattle.std.specs.Prelude.{◌≡◌};
ghost use Rattle.face_decisions.specs.Decisions.{rights_from, rights_code, request_from, request_shown, decision_answer};

use face::{Identifier, RootBytes, form_code};
use getkey::{Granted, Rights};
use refusal::Refusal;
use request::Request;
use rootid::RootId;

// A request: root_given is 0 where no root key is named; -1 in the three indices asks for the latest.
#[repr(C)]
#[derive(Clone, Copy, Debug, PartialEq, Eq)]
pub struct RequestIndices {
    pub root_given: u32,
    pub l0: i32,
    pub l1: i32,
    pub l2: i32,
    pub root: RootBytes,
}

// A decision: granted is 1 with a root row, 2 for a root key to create.
#[repr(C)]
#[derive(Clone, Copy, Debug, PartialEq, Eq)]
pub struct DecisionAnswer {
    pub refusal: u32,
    pub granted: u32,
    pub form: u32,
    pub at: Identifier,
    pub row: usize,
}

// The rights that a code names. The C interface needs numbers, and neither type is of this crate, so that this is no `From`.
pub fn rights_from(code: u32) -> Rights
    ensures { result ≡ rights_from code }
{
    match code {
        1 => Rights::Public,
        2 => Rights::Seed,
        _ => Rights::None,
    }
}

// The code of rights, which is no `From` for the same reason; nor is it the variant's own number, as C's codes are the face's alone.
#[tactic(auto, unfolding(crate::specs::Decisions::rights_code))]
pub fn rights_code(rights: Rights) -> u32
    ensures { result ≡ rights_code rights }
{
    match rights {
        Rights::None => 0,
        Rights::Public => 1,
        Rights::Seed => 2,
    }
}

// 0 names no root key; every other value names one, as C has it.
impl From<RequestIndices> for Request {
    ghost from_gives = { λ asked request. request ≡ request_from asked };

    fn from(asked: RequestIndices) -> Request {
        Request {
            root: (asked.root_given != 0).then(|| RootId::from(asked.root)),
            l0: asked.l0,
            l1: asked.l1,
            l2: asked.l2,
        }
    }
}

// Zeros where no root key is named.
impl From<Request> for RequestIndices {
    ghost from_gives = { λ request shown. shown ≡ request_shown request };

    #[tactic(auto, unfolding(crate::specs::Decisions::given_code, crate::specs::Decisions::root_bytes_shown))]
    fn from(request: Request) -> RequestIndices {
        RequestIndices {
            root_given: u32::from(request.root.is_some()),
            l0: request.l0,
            l1: request.l1,
            l2: request.l2,
            root: request
                .root
                .map_or(RootBytes { bytes: [0; 16] }, RootBytes::from),
        }
    }
}

impl From<Result<Granted, Refusal>> for DecisionAnswer {
    ghost from_gives = { λ decision answer. answer ≡ decision_answer decision };

    fn from(decision: Result<Granted, Refusal>) -> DecisionAnswer {
        match decision {
            Ok(Granted { at, form, row }) => DecisionAnswer {
                refusal: 0,
                granted: if row.is_some() { 1 } else { 2 },
                form: form_code(form),
                at: at.into(),
                row: row.unwrap_or(0),
            },
            Err(refusal) => DecisionAnswer {
                refusal: refusal.number(),
                granted: 0,
                form: 0,
                at: Identifier {
                    l0: 0,
                    l1: 0,
                    l2: 0,
                },
                row: 0,
            },
        }
    }
}
