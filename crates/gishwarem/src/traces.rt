// Document 02, No. 7, for C: a recorded request; and a replay, which goes on by value from record to record and from chunk to chunk, with
// its totals. A host that replays a trace in pieces begins each at its own number, with an empty total, and merges the totals in order.
ghost use Rattle.std.specs.Prelude.{◌≡◌, eqb, length};
ghost use Rattle.wire.specs.Parts.{onto};
ghost use Rattle.records.specs.Writing.{output_of};
ghost use Rattle.trace.specs.Reading.{record_of};
ghost use Rattle.tally.specs.Merging.{merged_of};
ghost use Rattle.report.specs.Records.{records_of};
ghost use Rattle.report.specs.Lines.{total_line, total_written};
ghost use Rattle.report.specs.Replaying.{start, step_of, replay_of, progress_of};
ghost use Rattle.face.specs.Shapes.{written_answer};
ghost use Rattle.face_traces.specs.Records.{trace_answer};
ghost use Rattle.face_traces.specs.Totals.{tally_from, merge_answer};
ghost use Rattle.face_traces.specs.Replays.{state_from, state_shown, line_answer, replay_answer};

use face::WrittenAnswer;
use face_traces::{
    MergeAnswer, ReplayAnswer, ReplayLine, ReplayState, TallyNumbers, TraceAnswer, line_answer,
};
use report::State;
use tally::Tally;

// A `From` for each arm, as the other records' readers have them: one of the Result would be this match again.
#[unsafe(no_mangle)]
pub extern "C" fn gw_trace_read(s: &[u8]) -> TraceAnswer
    ensures { result ≡ trace_answer (record_of s.now) }
{
    match trace::read(s) {
        Ok(recorded) => {
            return TraceAnswer::from(recorded);
        }
        Err(refusal) => {
            return TraceAnswer::from(refusal);
        }
    }
}

// Before the first record of a trace.
#[unsafe(no_mangle)]
pub extern "C" fn gw_replay_start() -> ReplayState
    ensures { result ≡ state_shown start }
{
    State::new().into()
}

#[unsafe(no_mangle)]
pub extern "C" fn gw_replay_step(state: ReplayState, table: &[u8], s: &[u8]) -> ReplayLine
    ensures { result ≡ line_answer (state_from state) (step_of table.now (state_from state) s.now) }
{
    let present = State::from(state);
    line_answer(present, report::step(present, table, s))
}

// The trace ends with the chunk where ends is 1.
#[unsafe(no_mangle)]
pub extern "C" fn gw_replay(
    out: &mut [u8],
    state: ReplayState,
    table: &[u8],
    chunk: &[u8],
    ends: u32,
) -> ReplayAnswer
    ensures answer { result ≡ replay_answer (progress_of (length chunk.now) (replay_of table.now (state_from state) (records_of (eqb ends 1) chunk.now) (length out.old))) }
    ensures output { out.new ≡ onto (replay_of table.now (state_from state) (records_of (eqb ends 1) chunk.now) (length out.old)).text out.old }
{
    report::replay(out, state.into(), table, chunk, ends == 1).into()
}

// The total's line: 13 where it does not fit.
#[unsafe(no_mangle)]
pub extern "C" fn gw_replay_total(out: &mut [u8], tally: TallyNumbers) -> WrittenAnswer
    ensures answer { result ≡ written_answer (total_written (tally_from tally) (length out.old)) }
    ensures output { out.new ≡ output_of (total_written (tally_from tally) (length out.old)) (total_line (tally_from tally)) out.old }
{
    report::put_total(out, tally.into()).into()
}

// The total of a trace, and of the one that follows it.
#[unsafe(no_mangle)]
pub extern "C" fn gw_tally_merge(first: TallyNumbers, second: TallyNumbers) -> MergeAnswer
    ensures { result ≡ merge_answer (merged_of (tally_from first) (tally_from second)) }
{
    Tally::from(first).merged(second.into()).into()
}
