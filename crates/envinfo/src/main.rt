// Reads one envelope on standard input and writes its line on standard output. Room for one byte over the limit of 65,535 is
// enough to tell a longer input, which is REFUSED 1; empty input is REFUSED 2. A read or a write that fails is said on standard
// error, and by the exit status; where a read fails there is no line.
#![tactic(auto)]

ghost use Rattle.std.specs.Prelude.{◌≡◌, OnOk, IfSome, OnErr, Err};
ghost use Rattle.std.specs.Io.KnownBytes.{Keeps, Appends};
ghost use Rattle.envelope.specs.Reading.{envelope_of};
ghost use Rattle.line.specs.Text.{text_of};
ghost use Rattle.envline.specs.Line.{line_of};

use line::Line;
use std::fmt;
use std::io::{Read, Write};
use std::process::ExitCode;
use wire::Span;

// What the program says where it fails.
#[derive(Clone, Copy, Debug, PartialEq, Eq)]
enum Failure {
    Read,
    Write,
}

impl fmt::Display for Failure {
    fn fmt<W: fmt::Write>(&self, f: &mut fmt::Formatter<W>) -> fmt::Result {
        match self {
            Failure::Read => f.write_str("envinfo: cannot read standard input"),
            Failure::Write => f.write_str("envinfo: cannot write standard output"),
        }
    }
}

fn main(rt: HostRuntime) -> ExitCode {
    input::ended(&rt, run(&mut rt.stdin(), &mut rt.stdout()))
}

// Of a reader that says which bytes it has, all of them are told, however many.
fn run<R: Read, W: Write>(from: &mut R, to: &mut W) -> Result<(), Failure>
    ensures line { OnOk result (IfSome (R.remaining from.old) (λ bytes. Appends (W.contents to.old) (W.contents to.new) (line_of (envelope_of bytes)))) }
    ensures unread { result ≡ Err Failure.Read → Keeps (W.contents to.old) (W.contents to.new) }
{
    let mut buffer = [0; 65536];
    let len = input::read_all(from, &mut buffer).map_err(|_| Failure::Read)?;
    print(
        to,
        envline::line_of(wire::part(&buffer, Span { at: 0, len })),
    )
}

// Where it fails, it is the write that failed.
fn print<W: Write>(to: &mut W, line: Line) -> Result<(), Failure>
    ensures written { OnOk result (Appends (W.contents to.old) (W.contents to.new) (text_of line)) }
    ensures failed { OnErr result (result ≡ Err Failure.Write) }
{
    to.write_all(line.as_bytes()).map_err(|_| Failure::Write)
}
