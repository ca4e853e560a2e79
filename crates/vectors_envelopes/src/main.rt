// Document 01, "Group Key Envelope" and "Bench cases": envelopes read, with their reach totals. Each case is a line: its name, then the
// program's own line, by the function that the program calls. The file `stdout` beside src/ holds what the paper says.
#![tactic(auto)]

mod heads;
mod key_lengths;
mod reader;
mod surrogates;
mod texts;

use std::io;

fn main(rt: HostRuntime) -> io::Result<()> {
    heads::run(&rt)?;
    texts::run(&rt)?;
    surrogates::run(&rt)?;
    key_lengths::run(&rt)?;
    heads::orders(&rt)
}

// Bytes, on standard output. The lines come ended from envline, so that there is none to finish, as cases::print does.
fn write(rt: &impl Print, bytes: &[u8]) -> io::Result<()> {
    rt.write_all(bytes)
}
