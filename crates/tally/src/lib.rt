// Document 02, No. 7: the total of a trace: accepted, refused, and times the clock was earlier than in the last record before. Totals
// of traces that follow each other are merged.
#![tactic(auto)]

ghost use Rattle.std.specs.Prelude.{◌≡◌, [], ◌∷◌};
ghost use Rattle.tally.specs.Totals.{tally_of};
ghost use Rattle.tally.specs.Merging.{seam, joined_ends, merged_of};

use gkid::FileTime;

// What is counted of one record: a malformed one has no clock that counts.
#[derive(Clone, Copy, Debug, PartialEq, Eq)]
pub struct Counted {
    pub accepted: bool,
    pub clock: Option<FileTime>,
}

// The first and the last clock that count.
#[derive(Clone, Copy, Debug, PartialEq, Eq)]
pub struct Ends {
    pub first: FileTime,
    pub last: FileTime,
}

// A total; the one of no record has no clocks.
#[derive(Clone, Copy, Debug, PartialEq, Eq, Default)]
pub struct Tally {
    pub accepted: u64,
    pub refused: u64,
    pub earlier: u64,
    pub clocks: Option<Ends>,
}

impl Tally {
    // The total of no record.
    #[tactic(auto, unfolding(crate::specs::Totals::tally_of, crate::specs::Totals::accepted_in, crate::specs::Totals::refused_in, crate::specs::Totals::clocks_in, crate::specs::Totals::earlier_in, crate::specs::Totals::ends_of))]
    pub fn new() -> Tally
        ensures { result ≡ tally_of [] }
    {
        Tally::default()
    }

    // The total of one record.
    pub fn of(counted: Counted) -> Tally
        ensures { result ≡ tally_of (counted ∷ []) }
    {
        Tally {
            accepted: u64::from(counted.accepted),
            refused: u64::from(!counted.accepted),
            earlier: 0,
            clocks: counted.clock.map(|time| Ends {
                first: time,
                last: time,
            }),
        }
    }

    // The total of a trace and of the one that follows it, as that of both; none if a count of it does not fit in 64 bits.
    #[tactic(auto, using(crate::proofs::Laws::full, crate::proofs::Laws::fits_all), unfolding(crate::specs::Merging::merge))]
    pub fn merged(self, next: Tally) -> Option<Tally>
        ensures { result ≡ merged_of self next }
    {
        let more = seam_of(self.clocks, next.clocks);
        Some(Tally {
            accepted: self.accepted.checked_add(next.accepted)?,
            refused: self.refused.checked_add(next.refused)?,
            earlier: self.earlier.checked_add(next.earlier)?.checked_add(more)?,
            clocks: join(self.clocks, next.clocks),
        })
    }
}

// 1 where the second begins earlier than the first ends.
fn seam_of(before: Option<Ends>, after: Option<Ends>) -> u64
    ensures { result ≡ seam before after }
{
    match (before, after) {
        (Some(before), Some(after)) => u64::from(after.first < before.last),
        _ => 0,
    }
}

// From the first's first clock to the second's last, where they have clocks.
#[tactic(auto, unfolding(crate::specs::Merging::joined_ends))]
fn join(before: Option<Ends>, after: Option<Ends>) -> Option<Ends>
    ensures { result ≡ joined_ends before after }
{
    match (before, after) {
        (Some(before), Some(after)) => Some(Ends {
            first: before.first,
            last: after.last,
        }),
        _ => before.or(after),
    }
}
