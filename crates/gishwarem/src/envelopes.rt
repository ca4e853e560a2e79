// Document 01, "Group Key Envelope", for C.
ghost use Rattle.std.specs.Prelude.{◌≡◌, length};
ghost use Rattle.records.specs.Writing.{output_of};
ghost use Rattle.envelope.specs.Reading.{envelope_of};
ghost use Rattle.envelope.specs.Writing.{given, envelope_bytes, envelope_written};
ghost use Rattle.face.specs.Shapes.{written_answer};
ghost use Rattle.face_envelopes.specs.Envelopes.{head_from, envelope_answer};

use envelope::{Bodies, Head};
use face::WrittenAnswer;
use face_envelopes::{EnvelopeAnswer, EnvelopeHead};

// 1, 2 and 4 are answered before a reader is called. Three arms return, two of them a refusal: a `From` of the Result would serve the last two
// alone.
#[unsafe(no_mangle)]
pub extern "C" fn gw_envelope_read(s: &[u8]) -> EnvelopeAnswer
    ensures { result ≡ envelope_answer (envelope_of s.now) }
{
    if let Err(refusal) = envelope::judge_head(s) {
        return EnvelopeAnswer::from(refusal);
    }
    match envelope::read(s) {
        Ok(envelope) => return EnvelopeAnswer::from(envelope),
        Err(refusal) => return EnvelopeAnswer::from(refusal),
    }
}

#[unsafe(no_mangle)]
pub extern "C" fn gw_envelope_write(
    out: &mut [u8],
    head: EnvelopeHead,
    kdf: &[u8],
    kdf_parameters: &[u8],
    agreement: &[u8],
    agreement_parameters: &[u8],
    domain: &[u8],
    forest: &[u8],
    l1_key: &[u8],
    l2_key: &[u8],
) -> WrittenAnswer
    ensures answer { result ≡ written_answer (envelope_written (head_from head) (given kdf.now kdf_parameters.now agreement.now agreement_parameters.now domain.now forest.now l1_key.now l2_key.now) (length out.old)) }
    ensures output { out.new ≡ output_of (envelope_written (head_from head) (given kdf.now kdf_parameters.now agreement.now agreement_parameters.now domain.now forest.now l1_key.now l2_key.now) (length out.old)) (envelope_bytes (head_from head) (given kdf.now kdf_parameters.now agreement.now agreement_parameters.now domain.now forest.now l1_key.now l2_key.now)) out.old }
{
    let bodies = Bodies {
        kdf,
        kdf_parameters,
        agreement,
        agreement_parameters,
        domain,
        forest,
        l1_key,
        l2_key,
    };
    WrittenAnswer::from(envelope::write(out, Head::from(head), bodies))
}
