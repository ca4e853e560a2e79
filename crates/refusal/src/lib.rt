// The refusals of document 01 as one enum, each with its number, and a check of a chain: the first that fails is the answer.
#![tactic(auto)]

ghost use Rattle.std.specs.Prelude.{◌≡◌, [], ◌∷◌};
ghost use Rattle.refusal.specs.Number.{number_of};
ghost use Rattle.refusal.specs.Chain.{◌⇒◌, first_of};

// Document 01, "Refusal numbers": a variant for each row of the table, in its order. Document 02 adds rows: No. 1 the row 25, No. 6 the
// row 24, No. 7 the row 26.
#[derive(Clone, Copy, Debug, PartialEq, Eq)]
pub enum Refusal {
    // 1: record or list longer than 65,535 bytes
    TooLong = 1,
    // 2: shorter than its fixed head
    Short = 2,
    // 3: a length field or the sum of lengths disagrees with the bytes
    LengthsDisagree = 3,
    // 4: fixed mark wrong
    WrongMark = 4,
    // 5: L1 or L2 index above 31
    IndexAbove31 = 5,
    // 6: an item not at a permitted place
    Misplaced = 6,
    // 7: an item empty, or a public key item's length below 4
    EmptyItem = 7,
    // 8: items overlap
    Overlap = 8,
    // 9: unused run over 8 bytes
    UnusedRun = 9,
    // 10: text malformed
    MalformedText = 10,
    // 11: key length breaks the key rules
    KeyLength = 11,
    // 12: SID malformed
    MalformedSid = 12,
    // 13: output buffer shorter than the record
    NoRoom = 13,
    // 14: requested index out of range
    IndexOutOfRange = 14,
    // 15: requested indices mix -1 with others
    MixedIndices = 15,
    // 16: descriptor verdict is no
    VerdictNo = 16,
    // 17: request later than now
    LaterThanNow = 17,
    // 18: rights too low
    RightsTooLow = 18,
    // 19: no suitable root key
    NoRootKey = 19,
    // 20: root table length no multiple of 32, or over 64 rows
    TableLength = 20,
    // 21: identifier's start time exceeds 64 bits
    StartPastTime = 21,
    // 22: bytes left after the last list entry
    BytesLeft = 22,
    // 23: neither envelope serves
    NeitherServes = 23,
    // 24: text with an unpaired surrogate
    UnpairedSurrogate = 24,
    // 25: chunk and data unit shift differ, or a shift is over 31
    WrongShifts = 25,
    // 26: trace record cut, a spare bit set, rights 3, or identifier bits while no root is given
    MalformedRecord = 26,
}

impl Refusal {
    #[tactic(auto, unfolding(crate::specs::Number::number_of))]
    pub fn number(self) -> u32
        ensures { result ≡ number_of self }
    {
        self as u32
    }
}

// One check of a chain: its refusal where it fails.
#[tactic(auto, unfolding(crate::specs::Chain::first_of))]
pub fn refuse_if(fails: bool, refusal: Refusal) -> Result<(), Refusal>
    ensures { result ≡ first_of ((fails ⇒ refusal) ∷ []) }
{
    if fails { Err(refusal) } else { Ok(()) }
}
