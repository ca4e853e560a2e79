// replay TABLE < TRACE: document 02, No. 7. Replays a trace of any length, on standard input, against the root table in a file, and writes a line for
// each record and the total on standard output. The trace is read in chunks of whole records, and the lines of a chunk are written together,
// so that the memory it takes does not grow. What fails is said on standard error and by the exit status, and then there is no total: a report that
// was cut is never taken for a whole one.
#![tactic(auto)]

ghost use Rattle.std.specs.Prelude.{◌≡◌, ◌≢◌, ℕ, ◌≤◌, length, take, IfSome, IfOk, IfErr, OnOk, OnErr, Err};
ghost use Rattle.std.specs.Io.KnownBytes.{Appends};
ghost use Rattle.report.specs.Records.{records_of};
ghost use Rattle.report.specs.Lines.{lines_from, total_line};
ghost use Rattle.report.specs.Replaying.{after, report_of};
ghost use Rattle.replay.specs.Cut.{OnlyLines};

use report::{State, Stopped};
use std::env::{Env, FillError};
use std::fmt;
use std::fs::File;
use std::io::{Read, Write};
use std::process::ExitCode;
use std::rt::Files;
use tally::Tally;
use wire::Span;

// 1,771 whole records.
const CHUNK: usize = 65527;

// What the program says where it fails.
#[derive(Clone, Copy, Debug, PartialEq, Eq)]
enum Failure {
    Usage,
    Table,
    Read,
    Write,
    Full,
}

impl fmt::Display for Failure {
    fn fmt<W: fmt::Write>(&self, f: &mut fmt::Formatter<W>) -> fmt::Result {
        match self {
            Failure::Usage => f.write_str("replay: usage: replay TABLE < TRACE"),
            Failure::Table => f.write_str("replay: cannot read the root table"),
            Failure::Read => f.write_str("replay: cannot read standard input"),
            Failure::Write => f.write_str("replay: cannot write standard output"),
            Failure::Full => f.write_str("replay: a count does not fit in 64 bits"),
        }
    }
}

fn main(rt: HostRuntime) -> ExitCode {
    input::ended(&rt, run(&rt, &mut rt.stdin(), &mut rt.stdout()))
}

fn run<R: Env + Files>(rt: &R, from: &mut impl Read, to: &mut impl Write) -> Result<(), Failure> {
    let mut path = [0; 4096];
    let length = only_argument(rt, &mut path)?;
    // A table of more than 2,048 bytes is 20, whatever stands behind them.
    let mut table = [0; 4096];
    let len = read_table(rt, &path[..length], &mut table)?;
    replay_trace(from, to, wire::part(&table, Span { at: 0, len }))
}

// The one argument, at the start of the buffer, and how long it is. One is there and a second is not: a match asks both, which `map_err` does not.
fn only_argument(rt: &impl Env, path: &mut [u8]) -> Result<usize, Failure>
    ensures { IfOk result (λ n. n ≤ length path.new) }
{
    match (rt.arg(1, path), rt.arg(2, &mut [])) {
        (Ok(length), Err(FillError::NotPresent)) => Ok(length),
        _ => Err(Failure::Usage),
    }
}

// How many bytes of the table were read. The file is closed then.
fn read_table<R: Files>(rt: &R, path: &[u8], table: &mut [u8]) -> Result<usize, Failure>
    ensures { IfOk result (λ n. n ≤ length table.new) }
{
    let name = std::str::from_utf8(path).map_err(|_| Failure::Table)?;
    let mut file = File::open(rt, name).map_err(|_| Failure::Table)?;
    input::read_all(&mut file, table).map_err(|_| Failure::Table)
}

// The whole trace, chunk by chunk: one that is not full is the last. A loop has to end, and nothing says that an input does: so it counts its
// turns, up to a number that no run uses up. Of a reader that says which bytes it has, the report of all of them is written, however the chunks
// cut them; and where something fails other than a write, lines of records and no total.
fn replay_trace<R: Read, W: Write>(from: &mut R, to: &mut W, table: &[u8]) -> Result<(), Failure>
    ensures whole { OnOk result (IfSome (R.remaining from.old) (λ trace. Appends (W.contents to.old) (W.contents to.new) (report_of table.now trace))) }
    ensures cut { IfErr result (λ failure. failure ≢ Failure.Write → OnlyLines table.now (W.contents to.old) (W.contents to.new)) }
{
    let mut chunk = [0; CHUNK];
    let mut out = [0; 65536];
    let mut state = State::new();
    for _ in 0..u64::MAX {
        let len = input::read_all(from, &mut chunk).map_err(|_| Failure::Read)?;
        let ends = len < CHUNK;
        let records = wire::part(&chunk, Span { at: 0, len });
        state = replay_chunk(to, &mut out, state, table, records, ends)?;
        if ends {
            return print_total(to, state.tally);
        }
    }
    Err(Failure::Full)
}

// A chunk: its lines, as many at a time as the output holds. The answer is the state behind it. `chunk` and `ends` stay apart, as in `report::replay`.
fn replay_chunk<W: Write>(
    to: &mut W,
    out: &mut [u8],
    state: State,
    table: &[u8],
    chunk: &[u8],
    ends: bool,
) -> Result<State, Failure>
    ensures text { OnOk result (Appends (W.contents to.old) (W.contents to.new) (lines_from table.now state.next (records_of ends chunk.now))) }
    ensures state { IfOk result (λ next. next ≡ after table.now state (records_of ends chunk.now)) }
    ensures cut { IfErr result (λ failure. failure ≢ Failure.Write → (n : ℕ) × Appends (W.contents to.old) (W.contents to.new) (lines_from table.now state.next (take n (records_of ends chunk.now)))) }
{
    let mut present = state;
    let mut at = 0;
    for _ in 0..u64::MAX {
        let progress = report::replay(out, present, table, &chunk[at..], ends);
        let lines = wire::part(
            out,
            Span {
                at: 0,
                len: progress.written,
            },
        );
        write(to, lines)?;
        match progress.stopped {
            Stopped::Records => return Ok(progress.state),
            Stopped::Room => {
                present = progress.state;
                at += progress.used;
            }
            Stopped::Full => return Err(Failure::Full),
        }
    }
    Err(Failure::Full)
}

fn print_total<W: Write>(to: &mut W, tally: Tally) -> Result<(), Failure>
    ensures written { OnOk result (Appends (W.contents to.old) (W.contents to.new) (total_line tally)) }
    ensures failed { OnErr result (result ≡ Err Failure.Write) }
{
    write(to, report::total_line(tally).as_bytes())
}

fn write<W: Write>(to: &mut W, bytes: &[u8]) -> Result<(), Failure>
    ensures written { OnOk result (Appends (W.contents to.old) (W.contents to.new) bytes.now) }
    ensures failed { OnErr result (result ≡ Err Failure.Write) }
{
    to.write_all(bytes).map_err(|_| Failure::Write)
}
