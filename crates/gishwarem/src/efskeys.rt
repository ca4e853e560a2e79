// Document 01, "EfsKey", with No. 2 of document 02, for C.
ghost use Rattle.std.specs.Prelude.{◌≡◌, length};
ghost use Rattle.records.specs.Writing.{output_of};
ghost use Rattle.efskey.specs.Reading.{efs_key_of};
ghost use Rattle.efskey.specs.Writing.{efs_key_bytes, efs_key_written};
ghost use Rattle.face.specs.Shapes.{written_answer};
ghost use Rattle.face_efskeys.specs.EfsKeys.{efs_key_answer};

use face::WrittenAnswer;
use face_efskeys::EfsKeyAnswer;

#[unsafe(no_mangle)]
pub extern "C" fn gw_efskey_read(s: &[u8]) -> EfsKeyAnswer
    ensures { result ≡ efs_key_answer (efs_key_of s.now) }
{
    // The refusal returns: by one `From` of the Result, which was tried, it takes 7 or 8 instructions more, and so more than the reference over
    // the same face, 69 of 572 bytes.
    match efskey::read(s) {
        Ok(key) => EfsKeyAnswer::from(key),
        Err(refusal) => return EfsKeyAnswer::from(refusal),
    }
}

#[unsafe(no_mangle)]
pub extern "C" fn gw_efskey_write(out: &mut [u8], sid: &[u8], certificate: &[u8]) -> WrittenAnswer
    ensures answer { result ≡ written_answer (efs_key_written sid.now certificate.now (length out.old)) }
    ensures output { out.new ≡ output_of (efs_key_written sid.now certificate.now (length out.old)) (efs_key_bytes sid.now certificate.now) out.old }
{
    WrittenAnswer::from(efskey::write(out, sid, certificate))
}
