// The SID rule of document 01 (MS-DTYP 2.4.2): whether a SID stands at the start of bytes, and whether bytes are exactly one.
#![tactic(auto)]

ghost use Rattle.std.specs.Prelude.{◌≡◌};
ghost use Rattle.sid.specs.Rule.{starts_sid, is_sid};

// Revision 1, count c at most 15, and 8+4c bytes.
#[tactic(auto, unfolding(crate::specs::Rule::starts_sid))]
pub fn starts_sid(s: &[u8]) -> bool
    ensures { result ≡ starts_sid s.now }
{
    match s {
        [1, count @ ..=15, ..] => 8 + 4 * usize::from(*count) <= s.len(),
        _ => false,
    }
}

// A SID, and nothing behind it.
#[tactic(auto, using(crate::proofs::ExactlyWhen::starts), unfolding(crate::specs::Rule::is_sid))]
pub fn is_sid(s: &[u8]) -> bool
    ensures { result ≡ is_sid s.now }
{
    starts_sid(s) && s.len() == 8 + 4 * usize::from(s[1])
}
