// Document 01, "Bench cases": the line that the program writes for one envelope.
#![tactic(auto)]

ghost use Rattle.std.specs.Prelude.{◌≡◌};
ghost use Rattle.envelope.specs.Reading.{envelope_of};
ghost use Rattle.line.specs.Text.{text_of, put_all};
ghost use Rattle.reach.specs.Reaches.{form_reach, reach_total};
ghost use Rattle.envline.specs.Line.{envelope_words, line_words, line_of};

use envelope::Envelope;
use gkid::Gkid;
use keys::Form;
use line::{Line, Text};
use reach::Reach;

// The line for an envelope, newline-ended.
pub fn line_of(s: &[u8]) -> Line
    ensures { text_of result ≡ line_of (envelope_of s.now) }
{
    let mut line = Line::new();
    shown(&mut line, s);
    line.text(b"\n");
    line
}

// The words for an envelope: ENV, its identifier, the word for its keys and its reach total; or REFUSED and the number.
#[tactic(auto, unfolding(crate::specs::Line::line_words))]
pub fn shown<T: Text>(out: &mut T, s: &[u8])
    ensures { T.buffer out.new ≡ put_all (T.buffer out.old) (line_words (envelope_of s.now)) }
{
    match envelope::read(s) {
        Ok(envelope) => accepted(out, envelope),
        Err(refusal) => words::refused(out, refusal),
    }
}

#[tactic(auto, unfolding(line::specs::Text::put_all, words::specs::Words::identifier_words, reach::specs::Reaches::form_reach, crate::specs::Line::envelope_words))]
fn accepted<T: Text>(out: &mut T, envelope: Envelope)
    ensures { T.buffer out.new ≡ put_all (T.buffer out.old) (envelope_words envelope) }
{
    let at = envelope.head.at;
    let form = envelope::form_of(envelope);
    let total = reach_total(form, at);
    out.text(b"ENV ");
    words::identifier(out, at);
    out.text(b" ");
    words::form(out, form);
    out.text(b" ");
    out.number(total as u64);
}

// How many identifiers a form reaches; an accepted envelope's is not refused.
fn reach_total(form: Form, at: Gkid) -> u32
    ensures { result ≡ reach_total (form_reach form at) }
{
    reach::form_reach(form, at).map_or(0, Reach::total)
}
