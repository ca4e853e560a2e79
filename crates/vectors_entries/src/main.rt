// Document 01, "Key List Entry and list": entries read and written, lists judged whole and walked entry by entry. Each case is a
// line: its name, then what the library answers. The file `stdout` beside src/ holds what the paper says.
#![tactic(auto)]

mod entries;
mod lists;
mod writer;

use std::io;

fn main(rt: HostRuntime) -> io::Result<()> {
    let to = &mut rt.stdout();
    entries::run(to)?;
    writer::run(to)?;
    lists::run(to)
}
