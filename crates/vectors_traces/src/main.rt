// Document 02, No. 7: recorded requests and traces of them. A case of one record is its name and its line; a case of a trace is its name, then
// its lines and the total. The file `stdout` beside src/ holds what the papers say.
#![tactic(auto)]

mod days;
mod single;

use report::State;
use std::io;
use wire::Span;

// Document 01's reading for (5,3,7).
const NOW: u64 = 1880280000000000;

// -1 in two's complement.
const MINUS_ONE: u32 = 0xffff_ffff;

// The indices by which the latest is asked for.
const LATEST: [u32; 3] = [MINUS_ONE, MINUS_ONE, MINUS_ONE];

fn main(rt: HostRuntime) -> io::Result<()> {
    single::run(&rt)?;
    days::run(&rt)
}

// A record: its clock, the byte of root given 1 bit, rights 2, verdict 1 and spare 4, and the three indices, each number most significant byte
// first; the identifier is zero.
fn recorded(clock: u64, flags: u8, indices: [u32; 3]) -> [u8; 37] {
    let mut s = [0; 37];
    cases::bytes(&mut s, 0, &clock.to_be_bytes());
    cases::bytes(&mut s, 8, &[flags]);
    cases::bytes(&mut s, 9, &indices[0].to_be_bytes());
    cases::bytes(&mut s, 13, &indices[1].to_be_bytes());
    cases::bytes(&mut s, 17, &indices[2].to_be_bytes());
    s
}

// The name and the lines of a trace of a few records; the state behind them.
// The lines come ended from report, and so does the total of `day`, so that there is none to finish, as cases::print does.
fn told(rt: &impl Print, name: &[u8], table: &[u8], trace: &[u8]) -> io::Result<State> {
    rt.write_all(name)?;
    let mut out = [0u8; 1024];
    let progress = report::replay(&mut out, State::new(), table, trace, true);
    let len = progress.written;
    rt.write_all(wire::part(&out, Span { at: 0, len }))?;
    Ok(progress.state)
}
