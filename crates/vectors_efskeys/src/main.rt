// Document 01, "EfsKey", with No. 2 of document 02: keys read and written. Each case is a line: its name, then what the library answers. The file `stdout`
// beside src/ holds what the paper says.
#![tactic(auto)]

mod reader;
mod writer;

use std::io;

fn main(rt: HostRuntime) -> io::Result<()> {
    let to = &mut rt.stdout();
    reader::run(to)?;
    writer::run(to)
}

// A SID's first bytes: the authority 5 and the sub-authority 18.
fn put_sid(dst: &mut [u8], at: usize, revision: u8, count: u8) {
    cases::bytes(dst, at, &[revision, count, 0, 0, 0, 0, 0, 5, 18, 0, 0, 0]);
}
