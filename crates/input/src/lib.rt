// What the programs on standard input share: the whole of an input, read into a lent buffer, and how a program ends.
#![tactic(auto)]

ghost use Rattle.std.specs.Prelude.{◌≡◌, ◌≤◌, ◌<◌, length, take, IfOk, is_ok, if◌then◌else◌};
ghost use Rattle.std.specs.Io.KnownBytes.{Consumes, IsAtEnd};
ghost use Rattle.std.specs.Process.{exit_status};

use std::fmt::Display;
use std::io;
use std::io::Read;
use std::process::ExitCode;

// Reads until the input ends, the buffer is full or a read fails: a longer input just fills the buffer. The answer is how many bytes were
// read to its start. They are those that the reader had left, where its type says which; of a file or a stream no contract can say them.
pub fn read_all<R: Read>(from: &mut R, buffer: &mut [u8]) -> io::Result<usize>
    ensures within { IfOk result (λ n. n ≤ length buffer.new) }
    ensures bytes { IfOk result (λ n. Consumes (R.remaining from.old) (R.remaining from.new) (take n buffer.new)) }
    ensures whole { IfOk result (λ n. n < length buffer.new → IsAtEnd (R.remaining from.new)) }
{
    let mut at = 0;
    // A read brings as many bytes as it likes, so that no `for` counts the turns.
    while at < buffer.len() {
        let more = from.read(&mut buffer[at..])?;
        if more == 0 {
            return Ok(at);
        }
        at += more;
    }
    Ok(at)
}

// How a program ends: what it says where it fails goes to standard error, and where that fails too, there is no one to tell.
pub fn ended<F: Display + Drop>(rt: &impl Eprint, outcome: Result<(), F>) -> ExitCode
    ensures { exit_status result ≡ (if is_ok outcome then 0 else 1) }
{
    match outcome {
        Ok(()) => ExitCode::SUCCESS,
        Err(failure) => {
            let _ = rt.eprintln(failure);
            ExitCode::FAILURE
        }
    }
}
