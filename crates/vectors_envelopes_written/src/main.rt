// Document 01, "Group Key Envelope": envelopes written, and one with all that it shows. Each case is a line: its name, then what the
// library answers. The file `stdout` beside src/ holds what the paper says.
#![tactic(auto)]

mod surrogates;
mod views;
mod writer;

use std::io;

fn main(rt: HostRuntime) -> io::Result<()> {
    let to = &mut rt.stdout();
    views::run(to, &mut rt.stdin())?;
    writer::run(to)?;
    surrogates::run(to)
}
