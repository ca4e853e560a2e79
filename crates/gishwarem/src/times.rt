// Document 01, "Time and identifiers", for C.
ghost use Rattle.std.specs.Prelude.{◌≡◌};
ghost use Rattle.gkid.specs.Conversion.{gkid_at};
ghost use Rattle.gkid.specs.Start.{start_of};
ghost use Rattle.gkid.specs.Older.{older_of};
ghost use Rattle.face.specs.Shapes.{gkid_from};
ghost use Rattle.face_times.specs.Times.{present_answer, start_answer, older_answer};

use face::Identifier;
use face_times::{IdentifierAnswer, StartAnswer};
use gkid::{FileTime, Gkid};

#[unsafe(no_mangle)]
pub extern "C" fn gw_time_identifier(time: u64) -> IdentifierAnswer
    ensures { result ≡ present_answer (gkid_at (record { 0 = time })) }
{
    Gkid::at(FileTime(time)).into()
}

#[unsafe(no_mangle)]
pub extern "C" fn gw_identifier_start(at: Identifier) -> StartAnswer
    ensures { result ≡ start_answer (start_of (gkid_from at)) }
{
    Gkid::from(at).start().into()
}

#[unsafe(no_mangle)]
pub extern "C" fn gw_identifier_older(at: Identifier) -> IdentifierAnswer
    ensures { result ≡ older_answer (older_of (gkid_from at)) }
{
    Gkid::from(at).older().into()
}
