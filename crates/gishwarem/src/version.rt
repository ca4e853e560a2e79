// The version of the face that was built.
ghost use Rattle.std.specs.Prelude.{◌≡◌};
ghost use Rattle.face.specs.Codes.{face_version};

#[unsafe(no_mangle)]
pub extern "C" fn gw_version() -> u32
    ensures { result ≡ face_version }
{
    face::VERSION
}
