// Document 01, "Reach, and the two envelopes": what keys reach, the reach as a map of 32 rows of 32 bits, its total, and the reach of
// a form. The map's rows are this crate's own: others build and read a `Reach` by its functions.
#![tactic(auto)]

ghost use Rattle.std.specs.Prelude.{◌≡◌, leb};
ghost use Rattle.reach.specs.Reached.{of_group, l1_reaches, l2_reaches};
ghost use Rattle.reach.specs.Bits.{row_where};
ghost use Rattle.reach.specs.Maps.{row_of, map_of, total_of};
ghost use Rattle.reach.specs.Reaches.{keys_reach, form_reach};

use gkid::{Gkid, L1, L2};
use keys::{Form, SeedKeys};
use refusal::Refusal;

// What is reached: the map.
#[derive(Clone, Copy, Debug, PartialEq, Eq)]
pub struct Reach {
    rows: [u32; 32],
}

// Whether `wanted` is of the L0 group of `at`. Here and in the two below indices are compared as numbers: by what their types derive, which was
// tried, a form's reach took 385 instructions for 331, where the reference takes 279 (331 as calls; inlined it takes 272).
#[tactic(auto, unfolding(crate::specs::Reached::of_group))]
fn of_group(at: Gkid, wanted: Gkid) -> bool
    ensures { result ≡ of_group at wanted }
{
    wanted.l0.0 == at.l0.0 && !wanted.index_above_31()
}

// The L1 key reaches all of rows 0 to L1 if L2 = 31, else rows 0 to L1-1: of the 32 rows, also where L1 is above 31.
#[tactic(auto, unfolding(crate::specs::Reached::l1_reaches))]
pub fn l1_reaches(at: Gkid, wanted: Gkid) -> bool
    ensures { result ≡ l1_reaches at wanted }
{
    if !of_group(at, wanted) {
        return false;
    }
    if at.l2.0 == 31 {
        return wanted.l1.0 <= at.l1.0;
    }
    wanted.l1.0 < at.l1.0
}

// The L2 key reaches its own L1 row from L2 index 0 to its own: of the 32 bits, also where L2 is above 31.
#[tactic(auto, unfolding(crate::specs::Reached::l2_reaches))]
pub fn l2_reaches(at: Gkid, wanted: Gkid) -> bool
    ensures { result ≡ l2_reaches at wanted }
{
    if !of_group(at, wanted) {
        return false;
    }
    wanted.l1.0 == at.l1.0 && wanted.l2.0 <= at.l2.0
}

// A row with the bits from index 0 to `index` set, index 0 the most significant.
fn row_to(index: u32) -> u32
    ensures { result ≡ row_where 32 (λ k. leb k index) }
{
    if index < 32 {
        0xffff_ffff << (31 - index)
    } else {
        0xffff_ffff
    }
}

// Keys and identifier stay apart, here and where the whole is asked, and so do two identifiers above: as one value each would be put together
// by every caller, and taken apart here.
// Row `l1` of the map. Its first identifier tells whether the L1 key reaches the row whole, and the L2 key the row in part.
fn row(keys: SeedKeys, at: Gkid, l1: u32) -> u32
    ensures { result ≡ row_of keys at l1 }
{
    let l0 = at.l0;
    let first = Gkid {
        l0,
        l1: L1(l1),
        l2: L2(0),
    };
    if keys.l1 && l1_reaches(at, first) {
        return row_to(31);
    }
    if keys.l2 && l2_reaches(at, first) {
        return row_to(at.l2.0);
    }
    0
}

// The map of what keys reach from an identifier, whatever its indices, row by row: bits stand for the identifiers of its L0 group alone.
#[tactic(auto, unfolding(crate::specs::Bits::table, crate::specs::Maps::map_of))]
fn map(keys: SeedKeys, at: Gkid) -> [u32; 32]
    ensures { result ≡ map_of keys at }
{
    let mut rows = [0; 32];
    for l1 in 0..32 {
        rows[l1] = row(keys, at, l1 as u32);
    }
    rows
}

impl Reach {
    // What a seed envelope at an identifier with just these keys reaches: 5, then 11, where such an envelope would be refused. Inlined: as a call
    // its rows are stored by fours and read back across them, and a form's reach takes 1.3 to 1.4 times as long.
    #[inline(always)]
    #[tactic(auto, unfolding(crate::specs::Reaches::keys_reach, refusal::specs::Chain::unless_refused))]
    pub fn of(keys: SeedKeys, at: Gkid) -> Result<Reach, Refusal>
        ensures { result ≡ keys_reach keys at }
    {
        keys.judge(at)?;
        let rows = map(keys, at);
        Ok(Reach { rows })
    }

    // The map: row L1, index L2 0 the most significant bit.
    pub fn rows(self) -> [u32; 32]
        ensures { result ≡ self.rows }
    {
        self.rows
    }

    // The number of set bits.
    pub fn total(self) -> u32
        ensures { result ≡ total_of self.rows }
    {
        let mut total = 0;
        for row in &self.rows {
            total += row.count_ones();
        }
        total
    }
}

// The reach of a form at an identifier: that of a seed envelope with just those keys.
#[tactic(auto, unfolding(crate::specs::Reaches::form_reach))]
pub fn form_reach(form: Form, at: Gkid) -> Result<Reach, Refusal>
    ensures { result ≡ form_reach form at }
{
    Reach::of(form.keys(), at)
}
