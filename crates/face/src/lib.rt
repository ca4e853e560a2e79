// What the answers and the arguments of the C face share: shapes, and the codes by which a host names a case. 0 is none, refused
// or the weakest; real cases count from 1; a code that is not listed is the weakest one.
#![tactic(auto)]

ghost use Rattle.std.specs.Prelude.{◌≡◌};
ghost use Rattle.face.specs.Codes.{form_code, form_from, bool_code};
ghost use Rattle.face.specs.Shapes.{part_shown, identifier_shown, gkid_from, root_id_from, root_shown, written_answer};

use gkid::{Gkid, L0, L1, L2};
use keys::Form;
use refusal::Refusal;
use rootid::RootId;
use wire::Span;

// The version of the C face, raised where an answer or a signature of it changes. The header has the same number.
pub const VERSION: u32 = 5;

// A place in the caller's own bytes.
#[repr(C)]
#[derive(Clone, Copy, Debug, PartialEq, Eq)]
pub struct Part {
    pub at: usize,
    pub len: usize,
}

// A group key identifier.
#[repr(C)]
#[derive(Clone, Copy, Debug, PartialEq, Eq)]
pub struct Identifier {
    pub l0: u32,
    pub l1: u32,
    pub l2: u32,
}

// A root key identifier, its 16 bytes as they stand in a record and in a table row.
#[repr(C)]
#[derive(Clone, Copy, Debug, PartialEq, Eq)]
pub struct RootBytes {
    pub bytes: [u8; 16],
}

// What a writer answers: the record's length.
#[repr(C)]
#[derive(Clone, Copy, Debug, PartialEq, Eq)]
pub struct WrittenAnswer {
    pub refusal: u32,
    pub reserved: u32,
    pub len: usize,
}

impl From<Span> for Part {
    ghost from_gives = { λ span part. part ≡ part_shown span };

    fn from(span: Span) -> Part {
        Part {
            at: span.at,
            len: span.len,
        }
    }
}

impl From<Gkid> for Identifier {
    ghost from_gives = { λ at shown. shown ≡ identifier_shown at };

    fn from(at: Gkid) -> Identifier {
        Identifier {
            l0: at.l0.0,
            l1: at.l1.0,
            l2: at.l2.0,
        }
    }
}

impl From<Identifier> for Gkid {
    ghost from_gives = { λ shown at. at ≡ gkid_from shown };

    fn from(at: Identifier) -> Gkid {
        Gkid {
            l0: L0(at.l0),
            l1: L1(at.l1),
            l2: L2(at.l2),
        }
    }
}

impl From<RootBytes> for RootId {
    ghost from_gives = { λ shown root. root ≡ root_id_from shown };

    fn from(root: RootBytes) -> RootId {
        RootId::at(&root.bytes, 0)
    }
}

impl From<RootId> for RootBytes {
    ghost from_gives = { λ root shown. shown ≡ root_shown root };

    fn from(root: RootId) -> RootBytes {
        let mut bytes = [0; 16];
        root.put(&mut bytes);
        RootBytes { bytes }
    }
}

impl From<Result<usize, Refusal>> for WrittenAnswer {
    ghost from_gives = { λ written answer. answer ≡ written_answer written };

    #[tactic(auto, unfolding(crate::specs::Shapes::written_answer, records::specs::Writing::written_number, records::specs::Writing::written_length))]
    fn from(written: Result<usize, Refusal>) -> WrittenAnswer {
        match written {
            Ok(len) => WrittenAnswer {
                refusal: 0,
                reserved: 0,
                len,
            },
            Err(refusal) => WrittenAnswer {
                refusal: refusal.number(),
                reserved: 0,
                len: 0,
            },
        }
    }
}

// A form's code. The C interface needs numbers, and neither type is of this crate, so that this is no `From`; nor is it the variant's own
// number, which would let C's codes move with the variants of `keys`.
#[tactic(auto, unfolding(crate::specs::Codes::form_code))]
pub fn form_code(form: Form) -> u32
    ensures { result ≡ form_code form }
{
    match form {
        Form::Keyless => 0,
        Form::L1Only => 1,
        Form::L2Only => 2,
        Form::Both => 3,
        Form::Public => 4,
    }
}

// The form that a code names, which is no `From` for the same reason.
pub fn form_from(code: u32) -> Form
    ensures { result ≡ form_from code }
{
    match code {
        1 => Form::L1Only,
        2 => Form::L2Only,
        3 => Form::Both,
        4 => Form::Public,
        _ => Form::Keyless,
    }
}

// Yes is 1: the C interface has no bool. It is std's `From` under the name of the definition by which the layouts tell it.
pub fn bool_code(yes: bool) -> u32
    ensures { result ≡ bool_code yes }
{
    u32::from(yes)
}
