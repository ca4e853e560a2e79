// Document 01, "Group Key Envelope", as C has its answer, and the head as C hands it in.
#![tactic(auto)]

ghost use Rattle.std.specs.Prelude.{◌≡◌, Ok, Err};
ghost use Rattle.face_envelopes.specs.Envelopes.{head_shown, head_from, bodies_shown, envelope_answer};

use envelope::{Bodies, Envelope, Head};
use face::{Identifier, Part, RootBytes, bool_code, form_code};
use gkid::Gkid;
use refusal::Refusal;
use rootid::RootId;
use wire::Span;

// The head's values, as a reader shows them and a writer takes them.
#[repr(C)]
#[derive(Clone, Copy, Debug, PartialEq, Eq)]
pub struct EnvelopeHead {
    pub version: u32,
    pub flags: u32,
    pub at: Identifier,
    pub root: RootBytes,
    pub private_length: u32,
    pub public_length: u32,
}

// Where the eight bodies stand.
#[repr(C)]
#[derive(Clone, Copy, Debug, PartialEq, Eq)]
pub struct EnvelopeBodies {
    pub kdf: Part,
    pub kdf_parameters: Part,
    pub agreement: Part,
    pub agreement_parameters: Part,
    pub domain: Part,
    pub forest: Part,
    pub l1_key: Part,
    pub l2_key: Part,
}

// An envelope. Its form, by the keys present, is 0 for NOKEY, 1 for L1ONLY, 2 for L2ONLY, 3 for BOTH, 4 for PUBLIC.
#[repr(C)]
#[derive(Clone, Copy, Debug, PartialEq, Eq)]
pub struct EnvelopeAnswer {
    pub refusal: u32,
    pub form: u32,
    pub is_public: u32,
    pub head: EnvelopeHead,
    pub bodies: EnvelopeBodies,
}

impl From<EnvelopeHead> for Head {
    ghost from_gives = { λ given head. head ≡ head_from given };

    fn from(given: EnvelopeHead) -> Head {
        Head {
            version: given.version,
            flags: given.flags,
            at: Gkid::from(given.at),
            root: RootId::from(given.root),
            private_length: given.private_length,
            public_length: given.public_length,
        }
    }
}

impl From<Head> for EnvelopeHead {
    ghost from_gives = { λ head answer. answer ≡ head_shown head };

    fn from(head: Head) -> EnvelopeHead {
        EnvelopeHead {
            version: head.version,
            flags: head.flags,
            at: Identifier::from(head.at),
            root: RootBytes::from(head.root),
            private_length: head.private_length,
            public_length: head.public_length,
        }
    }
}

impl From<Bodies<Span>> for EnvelopeBodies {
    ghost from_gives = { λ bodies answer. answer ≡ bodies_shown bodies };

    fn from(bodies: Bodies<Span>) -> EnvelopeBodies {
        EnvelopeBodies {
            kdf: Part::from(bodies.kdf),
            kdf_parameters: Part::from(bodies.kdf_parameters),
            agreement: Part::from(bodies.agreement),
            agreement_parameters: Part::from(bodies.agreement_parameters),
            domain: Part::from(bodies.domain),
            forest: Part::from(bodies.forest),
            l1_key: Part::from(bodies.l1_key),
            l2_key: Part::from(bodies.l2_key),
        }
    }
}

// Accepted: what the envelope shows, and its form.
impl From<Envelope> for EnvelopeAnswer {
    ghost from_gives = { λ envelope answer. answer ≡ envelope_answer (Ok envelope) };

    #[tactic(auto, unfolding(crate::specs::Envelopes::envelope_answer, envelope::specs::Reading::envelope_number, envelope::specs::Reading::envelope_values))]
    fn from(envelope: Envelope) -> EnvelopeAnswer {
        let head = envelope.head;
        EnvelopeAnswer {
            refusal: 0,
            form: form_code(envelope::form_of(envelope)),
            is_public: bool_code(envelope::is_public(head.flags)),
            head: EnvelopeHead::from(head),
            bodies: EnvelopeBodies::from(envelope.bodies),
        }
    }
}

// Refused: the number, and zeros.
impl From<Refusal> for EnvelopeAnswer {
    ghost from_gives = { λ refusal answer. answer ≡ envelope_answer (Err refusal) };

    #[tactic(auto, unfolding(crate::specs::Envelopes::envelope_answer, envelope::specs::Reading::envelope_number, envelope::specs::Reading::envelope_values, envelope::specs::Reading::form_of, envelope::specs::Layout::is_public, face::specs::Codes::form_code, rootid::specs::Root::root_bytes, wire::specs::Numbers::le_bytes))]
    fn from(refusal: Refusal) -> EnvelopeAnswer {
        let none = Part { at: 0, len: 0 };
        EnvelopeAnswer {
            refusal: refusal.number(),
            form: 0,
            is_public: 0,
            head: EnvelopeHead {
                version: 0,
                flags: 0,
                at: Identifier {
                    l0: 0,
                    l1: 0,
                    l2: 0,
                },
                root: RootBytes { bytes: [0; 16] },
                private_length: 0,
                public_length: 0,
            },
            bodies: EnvelopeBodies {
                kdf: none,
                kdf_parameters: none,
                agreement: none,
                agreement_parameters: none,
                domain: none,
                forest: none,
                l1_key: none,
                l2_key: none,
            },
        }
    }
}
