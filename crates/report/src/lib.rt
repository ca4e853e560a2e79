// Document 02, No. 7: a trace replayed against a root table: a line for each record, then the total. The replay is a state that goes on,
// by value: from record to record (`step`), and from chunk to chunk of a trace of any length (`replay`).
#![tactic(auto)]

ghost use Rattle.std.specs.Prelude.{◌≡◌, length};
ghost use Rattle.wire.specs.Parts.{onto};
ghost use Rattle.records.specs.Writing.{output_of};
ghost use Rattle.line.specs.Text.{text_of, put_all};
ghost use Rattle.report.specs.Records.{records_of, recorded, answered, clock_of};
ghost use Rattle.report.specs.Lines.{answer_words, line_words, total_words, total_line, total_written};
ghost use Rattle.report.specs.Replaying.{start, step_of, replay_of, progress_of};

use getkey::{Granted, decide_by_verdict};
use gkid::FileTime;
use line::{Lent, Line, Text};
use refusal::Refusal;
use tally::{Counted, Tally};
use trace::Recorded;

// The room that a line is sure to fit in.
pub const LINE: usize = 128;

// Where a replay stands: the number of the next line, and the total so far. A host that replays a trace in pieces begins each at its own
// number, with an empty total, and merges the totals.
#[derive(Clone, Copy, Debug, PartialEq, Eq)]
pub struct State {
    pub next: u64,
    pub tally: Tally,
}

// One record replayed: its number, its answer and the next state.
#[derive(Clone, Copy, Debug, PartialEq, Eq)]
pub struct Stepped {
    pub number: u64,
    pub answer: Result<Granted, Refusal>,
    pub state: State,
}

// Why a replay stopped: the chunk has no further record; less than `LINE` bytes of the output are left; a count would not fit in 64 bits.
#[derive(Clone, Copy, Debug, PartialEq, Eq)]
pub enum Stopped {
    Records,
    Room,
    Full,
}

// What was replayed of a chunk: so many bytes of it were used, and so many of the output written.
#[derive(Clone, Copy, Debug, PartialEq, Eq)]
pub struct Progress {
    pub stopped: Stopped,
    pub used: usize,
    pub written: usize,
    pub state: State,
}

impl State {
    // Before the first record of a trace.
    #[tactic(auto, unfolding(crate::specs::Replaying::start))]
    pub fn new() -> State
        ensures { result ≡ start }
    {
        State {
            next: 1,
            tally: Tally::new(),
        }
    }
}

// One record in, its number, its answer and the next state out; none if a count would not fit in 64 bits.
#[tactic(auto, using(crate::proofs::Stepping::accepted_is, crate::proofs::Stepping::answer_is, crate::proofs::Stepping::one_is, crate::proofs::Stepping::steps, crate::proofs::Stepping::steps_not, crate::proofs::Stepping::last_number))]
pub fn step(state: State, table: &[u8], s: &[u8]) -> Option<Stepped>
    ensures { result ≡ step_of table.now state s.now }
{
    let read = trace::read(s);
    let answer = answer_of(read, table);
    let counted = Counted {
        accepted: answer.is_ok(),
        clock: clock_of(read),
    };
    let number = state.next;
    let next = number.checked_add(1)?;
    let tally = state.tally.merged(Tally::of(counted))?;
    Some(Stepped {
        number,
        answer,
        state: State { next, tally },
    })
}

// 26, or the decision by verdict at the record's clock.
#[tactic(auto, unfolding(crate::specs::Records::answered))]
fn answer_of(read: Result<Recorded, Refusal>, table: &[u8]) -> Result<Granted, Refusal>
    ensures { result ≡ answered table.now read }
{
    let Recorded {
        clock,
        rights,
        verdict,
        request,
    } = read?;
    decide_by_verdict(verdict, rights, request, clock, table)
}

// The clock that counts, if the record is not 26.
#[tactic(auto, unfolding(crate::specs::Records::clock_of))]
fn clock_of(read: Result<Recorded, Refusal>) -> Option<FileTime>
    ensures { result ≡ clock_of read }
{
    read.ok().map(|recorded| recorded.clock)
}

// The records of a chunk, each with its line put behind the ones before it: the whole ones, and a part of one at the end where the trace
// ends with the chunk. `chunk` and `ends` stay apart, and so do state and table: as one value
// each would be put together by each caller, and taken apart in the first lines.
pub fn replay(out: &mut [u8], state: State, table: &[u8], chunk: &[u8], ends: bool) -> Progress
    ensures answer { result ≡ progress_of (length chunk.now) (replay_of table.now state (records_of ends chunk.now) (length out.old)) }
    ensures output { out.new ≡ onto (replay_of table.now state (records_of ends chunk.now) (length out.old)).text out.old }
{
    let mut text = Lent { bytes: out, len: 0 };
    let mut progress = Progress {
        stopped: Stopped::Records,
        used: 0,
        written: 0,
        state,
    };
    for record in recorded(chunk, ends).chunks(trace::LEN) {
        if text.bytes.len() - text.len < LINE {
            return Progress {
                stopped: Stopped::Room,
                ..progress
            };
        }
        let Some(stepped) = step(progress.state, table, record) else {
            return Progress {
                stopped: Stopped::Full,
                ..progress
            };
        };
        put_line(&mut text, stepped.number, stepped.answer);
        progress = Progress {
            stopped: Stopped::Records,
            used: progress.used + record.len(),
            written: text.len,
            state: stepped.state,
        };
    }
    progress
}

// The bytes of a chunk's records: all of them where the trace ends with the chunk, else those of its whole records.
#[tactic(auto, unfolding(crate::specs::Records::recorded))]
fn recorded(chunk: &[u8], ends: bool) -> &[u8]
    ensures { result.now ≡ recorded ends chunk.now }
{
    if ends {
        return chunk;
    }
    &chunk[..chunk.len() - chunk.len() % trace::LEN]
}

// A line put behind the text.
#[tactic(auto, unfolding(line::specs::Text::put_all, crate::specs::Lines::line_words))]
pub fn put_line<T: Text>(out: &mut T, number: u64, answer: Result<Granted, Refusal>)
    ensures { T.buffer out.new ≡ put_all (T.buffer out.old) (line_words number answer) }
{
    out.number(number);
    out.text(b" ");
    put_answer(out, answer);
    out.text(b"\n");
}

#[tactic(auto, unfolding(line::specs::Text::put_all, words::specs::Words::identifier_words, crate::specs::Lines::answer_words, crate::specs::Lines::row_words))]
fn put_answer<T: Text>(out: &mut T, answer: Result<Granted, Refusal>)
    ensures { T.buffer out.new ≡ put_all (T.buffer out.old) (answer_words answer) }
{
    let granted = match answer {
        Ok(granted) => granted,
        Err(refusal) => return words::refused(out, refusal),
    };
    words::identifier(out, granted.at);
    out.text(b" ");
    words::form(out, granted.form);
    match granted.row {
        Some(row) => {
            out.text(b" ROW ");
            out.number(row as u64);
        }
        None => out.text(b" CREATE"),
    }
}

// The total's line.
pub fn total_line(tally: Tally) -> Line
    ensures { text_of result ≡ total_line tally }
{
    let mut line = Line::new();
    put_counts(&mut line, tally);
    line
}

#[tactic(auto, unfolding(line::specs::Text::put_all, crate::specs::Lines::total_words))]
fn put_counts<T: Text>(out: &mut T, tally: Tally)
    ensures { T.buffer out.new ≡ put_all (T.buffer out.old) (total_words tally) }
{
    out.text(b"TOTAL ");
    out.number(tally.accepted);
    out.text(b" ");
    out.number(tally.refused);
    out.text(b" ");
    out.number(tally.earlier);
    out.text(b"\n");
}

// The total's line put at the start of lent bytes: 13 where it does not fit. The line is made in place, since one that another function
// hands out is copied.
pub fn put_total(out: &mut [u8], tally: Tally) -> Result<usize, Refusal>
    ensures answer { result ≡ total_written tally (length out.old) }
    ensures output { out.new ≡ output_of result (total_line tally) out.old }
{
    let mut line = Line::new();
    put_counts(&mut line, tally);
    let text = line.as_bytes();
    let len = text.len();
    if out.len() < len {
        return Err(Refusal::NoRoom);
    }
    wire::copy_into(out, text);
    Ok(len)
}
