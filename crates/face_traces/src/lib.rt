// Document 02, No. 7, as C has its answers: a recorded request, or its refusal; and a replay with its totals, as C hands them in and is
// shown them.
#![tactic(auto)]

ghost use Rattle.std.specs.Prelude.{◌≡◌, Ok, Err};
ghost use Rattle.face_traces.specs.Records.{trace_answer};
ghost use Rattle.face_traces.specs.Totals.{clocks_from, tally_from, tally_shown, merge_answer};
ghost use Rattle.face_traces.specs.Replays.{state_from, state_shown, line_answer, stopped_code, replay_answer};

use face::{Identifier, RootBytes, bool_code};
use face_decisions::{DecisionAnswer, RequestIndices, rights_code};
use gkid::FileTime;
use refusal::Refusal;
use report::{Progress, State, Stepped, Stopped};
use tally::{Ends, Tally};
use trace::Recorded;

// A recorded request: verdict is 1 for a sound descriptor, rights are 0 none, 1 public, 2 seed.
#[repr(C)]
#[derive(Clone, Copy, Debug, PartialEq, Eq)]
pub struct TraceAnswer {
    pub refusal: u32,
    pub verdict: u32,
    pub rights: u32,
    pub reserved: u32,
    pub clock: u64,
    pub request: RequestIndices,
}

// A total: clocks is 1 where first and last are clocks, else there are none.
#[repr(C)]
#[derive(Clone, Copy, Debug, PartialEq, Eq)]
pub struct TallyNumbers {
    pub accepted: u64,
    pub refused: u64,
    pub earlier: u64,
    pub first: u64,
    pub last: u64,
    pub clocks: u32,
    pub reserved: u32,
}

// Where a replay stands: the number of the next line, and the total so far.
#[repr(C)]
#[derive(Clone, Copy, Debug, PartialEq, Eq)]
pub struct ReplayState {
    pub next: u64,
    pub tally: TallyNumbers,
}

// One record replayed: its answer, its number and the next state; number 0 where a count would not fit in 64 bits.
#[repr(C)]
#[derive(Clone, Copy, Debug, PartialEq, Eq)]
pub struct ReplayLine {
    pub answer: DecisionAnswer,
    pub number: u64,
    pub state: ReplayState,
}

// What was replayed of a chunk: stopped is 1 for no further record, 2 for no room, 3 for a count that would not fit in 64 bits.
#[repr(C)]
#[derive(Clone, Copy, Debug, PartialEq, Eq)]
pub struct ReplayAnswer {
    pub stopped: u32,
    pub reserved: u32,
    pub used: usize,
    pub written: usize,
    pub state: ReplayState,
}

// Two totals merged: full is 1 where a count would not fit in 64 bits.
#[repr(C)]
#[derive(Clone, Copy, Debug, PartialEq, Eq)]
pub struct MergeAnswer {
    pub full: u32,
    pub reserved: u32,
    pub tally: TallyNumbers,
}

// Accepted: what the record shows.
impl From<Recorded> for TraceAnswer {
    ghost from_gives = { λ recorded answer. answer ≡ trace_answer (Ok recorded) };

    #[tactic(auto, unfolding(crate::specs::Records::trace_answer, trace::specs::Reading::record_number, crate::specs::Records::record_values))]
    fn from(recorded: Recorded) -> TraceAnswer {
        TraceAnswer {
            refusal: 0,
            verdict: bool_code(recorded.verdict),
            rights: rights_code(recorded.rights),
            reserved: 0,
            clock: recorded.clock.0,
            request: recorded.request.into(),
        }
    }
}

// Refused: the number, and zeros.
impl From<Refusal> for TraceAnswer {
    ghost from_gives = { λ refusal answer. answer ≡ trace_answer (Err refusal) };

    fn from(refusal: Refusal) -> TraceAnswer {
        TraceAnswer {
            refusal: refusal.number(),
            verdict: 0,
            rights: 0,
            reserved: 0,
            clock: 0,
            request: RequestIndices {
                root_given: 0,
                l0: 0,
                l1: 0,
                l2: 0,
                root: RootBytes { bytes: [0; 16] },
            },
        }
    }
}

impl From<TallyNumbers> for Tally {
    ghost from_gives = { λ numbers tally. tally ≡ tally_from numbers };

    fn from(numbers: TallyNumbers) -> Tally {
        Tally {
            accepted: numbers.accepted,
            refused: numbers.refused,
            earlier: numbers.earlier,
            clocks: clocks_from(numbers.clocks, numbers.first, numbers.last),
        }
    }
}

// A code that is not 1 is none: the C interface hands in three numbers.
fn clocks_from(code: u32, first: u64, last: u64) -> Option<Ends>
    ensures { result ≡ clocks_from code first last }
{
    (code == 1).then(|| Ends {
        first: FileTime(first),
        last: FileTime(last),
    })
}

impl From<Tally> for TallyNumbers {
    ghost from_gives = { λ tally numbers. numbers ≡ tally_shown tally };

    #[tactic(auto, unfolding(crate::specs::Totals::tally_shown, crate::specs::Totals::clocks_code, crate::specs::Totals::first_clock, crate::specs::Totals::last_clock))]
    fn from(tally: Tally) -> TallyNumbers {
        match tally.clocks {
            None => numbers(tally, 0, 0, 0),
            Some(ends) => numbers(tally, 1, ends.first.0, ends.last.0),
        }
    }
}

// The counts, and the clocks as they are told.
fn numbers(tally: Tally, clocks: u32, first: u64, last: u64) -> TallyNumbers
    ensures { result ≡ record { accepted = tally.accepted; refused = tally.refused; earlier = tally.earlier; first = first; last = last; clocks = clocks; reserved = 0 } }
{
    TallyNumbers {
        accepted: tally.accepted,
        refused: tally.refused,
        earlier: tally.earlier,
        first,
        last,
        clocks,
        reserved: 0,
    }
}

impl From<ReplayState> for State {
    ghost from_gives = { λ shown state. state ≡ state_from shown };

    fn from(shown: ReplayState) -> State {
        State {
            next: shown.next,
            tally: shown.tally.into(),
        }
    }
}

impl From<State> for ReplayState {
    ghost from_gives = { λ state shown. shown ≡ state_shown state };

    fn from(state: State) -> ReplayState {
        ReplayState {
            next: state.next,
            tally: state.tally.into(),
        }
    }
}

// The next state; or the one asked with, where a count would not fit. It takes two values, so that it is no `From`: a tuple of them would
// be made at its one call, and taken apart here.
#[tactic(auto, unfolding(crate::specs::Replays::line_answer))]
pub fn line_answer(state: State, stepped: Option<Stepped>) -> ReplayLine
    ensures { result ≡ line_answer state stepped }
{
    match stepped {
        Some(stepped) => ReplayLine {
            answer: stepped.answer.into(),
            number: stepped.number,
            state: stepped.state.into(),
        },
        None => ReplayLine {
            answer: DecisionAnswer {
                refusal: 0,
                granted: 0,
                form: 0,
                at: Identifier {
                    l0: 0,
                    l1: 0,
                    l2: 0,
                },
                row: 0,
            },
            number: 0,
            state: state.into(),
        },
    }
}

impl From<Progress> for ReplayAnswer {
    ghost from_gives = { λ progress answer. answer ≡ replay_answer progress };

    #[tactic(auto, unfolding(crate::specs::Replays::replay_answer))]
    fn from(progress: Progress) -> ReplayAnswer {
        ReplayAnswer {
            stopped: stopped_code(progress.stopped),
            reserved: 0,
            used: progress.used,
            written: progress.written,
            state: progress.state.into(),
        }
    }
}

// The C interface needs a number, and neither type is of this crate, so that this is no `From`; nor is it the
// variant's own number, as C's codes are the face's alone.
#[tactic(auto, unfolding(crate::specs::Replays::stopped_code))]
fn stopped_code(stopped: Stopped) -> u32
    ensures { result ≡ stopped_code stopped }
{
    match stopped {
        Stopped::Records => 1,
        Stopped::Room => 2,
        Stopped::Full => 3,
    }
}

impl From<Option<Tally>> for MergeAnswer {
    ghost from_gives = { λ merged answer. answer ≡ merge_answer merged };

    #[tactic(auto, unfolding(crate::specs::Totals::merge_answer))]
    fn from(merged: Option<Tally>) -> MergeAnswer {
        match merged {
            Some(total) => MergeAnswer {
                full: 0,
                reserved: 0,
                tally: total.into(),
            },
            None => MergeAnswer {
                full: 1,
                reserved: 0,
                tally: TallyNumbers {
                    accepted: 0,
                    refused: 0,
                    earlier: 0,
                    first: 0,
                    last: 0,
                    clocks: 0,
                    reserved: 0,
                },
            },
        }
    }
}
