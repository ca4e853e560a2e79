// Document 01, "EfsKey", with No. 2 of document 02, as C has its answer.
#![tactic(auto)]

ghost use Rattle.std.specs.Prelude.{◌≡◌, Ok, Err};
ghost use Rattle.face_efskeys.specs.EfsKeys.{efs_key_answer};

use efskey::EfsKey;
use face::Part;
use refusal::Refusal;

// An EfsKey. The kind of its SID is a number, as C needs it: 0 for none, 1 for a SID, 2 where zeros in its place give no hint.
#[repr(C)]
#[derive(Clone, Copy, Debug, PartialEq, Eq)]
pub struct EfsKeyAnswer {
    pub refusal: u32,
    pub kind: u32,
    pub sid: Part,
    pub certificate: Part,
}

// Accepted, with what it has of a SID.
impl From<EfsKey> for EfsKeyAnswer {
    ghost from_gives = { λ key answer. answer ≡ efs_key_answer (Ok key) };

    #[tactic(auto, unfolding(crate::specs::EfsKeys::efs_key_answer, efskey::specs::Reading::efs_key_number, efskey::specs::Reading::sid_kind, efskey::specs::Reading::span_of))]
    fn from(key: EfsKey) -> EfsKeyAnswer {
        EfsKeyAnswer {
            refusal: 0,
            kind: key.sid.kind(),
            sid: Part::from(key.sid.span()),
            certificate: Part::from(key.certificate),
        }
    }
}

// Refused: the number, and zeros.
impl From<Refusal> for EfsKeyAnswer {
    ghost from_gives = { λ refusal answer. answer ≡ efs_key_answer (Err refusal) };

    #[tactic(auto, unfolding(crate::specs::EfsKeys::efs_key_answer, efskey::specs::Reading::efs_key_number, efskey::specs::Reading::sid_kind, efskey::specs::Reading::span_of))]
    fn from(refusal: Refusal) -> EfsKeyAnswer {
        EfsKeyAnswer {
            refusal: refusal.number(),
            kind: 0,
            sid: Part { at: 0, len: 0 },
            certificate: Part { at: 0, len: 0 },
        }
    }
}
