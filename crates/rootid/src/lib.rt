// Root key identifiers: 16 bytes, as they stand in an envelope, a table row and a request, held as two little-endian numbers.
// They are only compared, so that the order of the bytes means nothing; no GUID byte order is applied anywhere.
#![tactic(auto)]

ghost use Rattle.std.specs.Prelude.{◌≡◌};
ghost use Rattle.wire.specs.Parts.{onto};
ghost use Rattle.rootid.specs.Root.{root_at, root_bytes, same_root};

// `low` is bytes 0 to 8, `high` is bytes 8 to 16.
#[derive(Debug, Clone, Copy, PartialEq, Eq)]
pub struct RootId {
    pub low: u64,
    pub high: u64,
}

impl RootId {
    // The identifier in the 16 bytes from `at` on.
    #[tactic(auto, unfolding(crate::specs::Root::root_at))]
    pub fn at(s: &[u8], at: usize) -> RootId
        ensures { result ≡ root_at s.now at }
    {
        let b = wire::part(s, wire::Span { at, len: 16 });
        RootId {
            low: wire::le64_at(b, 0),
            high: wire::le64_at(b, 8),
        }
    }

    // `==`, under the name that is cited (docs/ASSURANCE.md).
    #[tactic(auto, using(crate::proofs::Roots::same_halves))]
    pub fn is(self, other: RootId) -> bool
        ensures { result ≡ same_root self other }
    {
        self == other
    }

    // The 16 bytes, put at the start of a lent part.
    pub fn put(self, dst: &mut [u8])
        ensures { dst.new ≡ onto (root_bytes self) dst.old }
    {
        if 16 <= dst.len() {
            wire::put_le64(&mut dst[0..8], self.low);
            wire::put_le64(&mut dst[8..16], self.high);
        }
    }
}
