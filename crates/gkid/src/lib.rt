// Document 01, "Time and identifiers": clock readings, group key identifiers, their start times, their order and the next older
// one. A reading and an index are types of their own, so that neither stands in for the other.
#![tactic(auto)]

ghost use Rattle.std.specs.Prelude.{◌≡◌, not, ◌+◌, ◌*◌};
ghost use Rattle.gkid.specs.Identifier.{index_above_31, InGroup};
ghost use Rattle.gkid.specs.Conversion.{gkid_at};
ghost use Rattle.gkid.specs.Start.{start_of};
ghost use Rattle.gkid.specs.Older.{older_of};

use refusal::Refusal;

// A clock reading in ticks, 64-bit.
#[derive(Clone, Copy, Debug, PartialEq, Eq, PartialOrd, Ord)]
pub struct FileTime(pub u64);

// The three indices of an identifier.
#[derive(Clone, Copy, Debug, PartialEq, Eq, PartialOrd, Ord)]
pub struct L0(pub u32);

#[derive(Clone, Copy, Debug, PartialEq, Eq, PartialOrd, Ord)]
pub struct L1(pub u32);

#[derive(Clone, Copy, Debug, PartialEq, Eq, PartialOrd, Ord)]
pub struct L2(pub u32);

// A group key identifier, (L0, L1, L2).
#[derive(Clone, Copy, Debug, PartialEq, Eq, PartialOrd, Ord)]
pub struct Gkid {
    pub l0: L0,
    pub l1: L1,
    pub l2: L2,
}

impl Gkid {
    // The three steps: an L2 step in ticks, an L1 step and an L0 step in L2 steps.
    pub const L2_STEP: u64 = 360_000_000_000;

    pub const L1_STEPS: u64 = 32;

    pub const L0_STEPS: u64 = 1_024;

    // The identifier of the last reading.
    pub const HIGHEST: Gkid = Gkid {
        l0: L0(50_039),
        l1: L1(31),
        l2: L2(27),
    };

    // The identifier of a reading (MS-GKDI 3.1.4.1, step 2): one division down to L2 steps, and that number split.
    #[tactic(auto, using(crate::proofs::Times::one_division))]
    pub fn at(time: FileTime) -> Gkid
        ensures { result ≡ gkid_at time }
    {
        let steps = time.0 / Gkid::L2_STEP;
        Gkid {
            l0: L0((steps / Gkid::L0_STEPS) as u32),
            l1: L1((steps % Gkid::L0_STEPS / Gkid::L1_STEPS) as u32),
            l2: L2((steps % Gkid::L1_STEPS) as u32),
        }
    }

    // What refusal 5 is given for.
    #[tactic(auto, unfolding(crate::specs::Identifier::index_above_31))]
    pub fn index_above_31(self) -> bool
        ensures { result ≡ index_above_31 self }
    {
        (self.l1.0 > 31) | (self.l2.0 > 31)
    }

    // An L0 group has L1 and L2 from 0 to 31. Asked this way round, a refusal is compiled out of the way of an answer.
    fn in_group(self) -> bool
        ensures { index_above_31 self ≡ not result }
    {
        !self.index_above_31()
    }

    // The reading at which an identifier starts: 5, then 21. What is not past the highest identifier starts within 64 bits, so that no product wraps here.
    #[tactic(auto, using(crate::proofs::Order::in_group, crate::proofs::Order::ordinal, crate::proofs::Times::start_by_steps), unfolding(crate::specs::Conversion::highest, crate::specs::Conversion::gkid_at))]
    pub fn start(self) -> Result<FileTime, Refusal>
        ensures { result ≡ start_of self }
    {
        if !self.in_group() {
            return Err(Refusal::IndexAbove31);
        }
        let steps = self.steps();
        if steps > Gkid::HIGHEST.steps() {
            return Err(Refusal::StartPastTime);
        }
        Ok(FileTime(steps * Gkid::L2_STEP))
    }

    // The L2 steps from (0, 0, 0) on. In a group no two identifiers have as many.
    fn steps(self) -> u64
        requires { InGroup self }
        ensures { result ≡ 1024 * self.l0.0 + 32 * self.l1.0 + self.l2.0 }
    {
        self.l0.0 as u64 * Gkid::L0_STEPS + self.l1.0 as u64 * Gkid::L1_STEPS + self.l2.0 as u64
    }

    // The next older identifier of its L0 group: 5 if an index is above 31; (L0, 0, 0) has none.
    #[tactic(auto, unfolding(crate::specs::Older::older_of))]
    pub fn older(self) -> Result<Option<Gkid>, Refusal>
        ensures { result ≡ older_of self }
    {
        let l0 = self.l0;
        let l1 = self.l1;
        if !self.in_group() {
            return Err(Refusal::IndexAbove31);
        }
        if self.l2.0 > 0 {
            return Ok(Some(Gkid {
                l0,
                l1,
                l2: L2(self.l2.0 - 1),
            }));
        }
        if l1.0 > 0 {
            return Ok(Some(Gkid {
                l0,
                l1: L1(l1.0 - 1),
                l2: L2(31),
            }));
        }
        Ok(None)
    }
}
