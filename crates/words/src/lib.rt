// What answers are called in a text: refusals, identifiers, forms, places, and what a writer answers. Words stand one space apart;
// none is put in front of the first or behind the last. They are put by functions and not by a `Display`: the trait `Text` says why.
#![tactic(auto)]

ghost use Rattle.std.specs.Prelude.{◌≡◌};
ghost use Rattle.line.specs.Text.{put, put_all};
ghost use Rattle.words.specs.Words.{form_word, identifier_words, refused_words, span_words, written_words};

use gkid::Gkid;
use keys::Form;
use line::Text;
use refusal::Refusal;
use wire::Span;

// L0, L1 and L2.
#[tactic(auto, unfolding(line::specs::Text::put_all, crate::specs::Words::identifier_words))]
pub fn identifier<T: Text>(out: &mut T, at: Gkid)
    ensures { T.buffer out.new ≡ put_all (T.buffer out.old) (identifier_words at) }
{
    out.number(at.l0.0 as u64);
    out.text(b" ");
    out.number(at.l1.0 as u64);
    out.text(b" ");
    out.number(at.l2.0 as u64);
}

// NOKEY, L1ONLY, L2ONLY, BOTH or PUBLIC.
#[tactic(auto, unfolding(crate::specs::Words::form_word))]
pub fn form<T: Text>(out: &mut T, form: Form)
    ensures { T.buffer out.new ≡ put (T.buffer out.old) (form_word form) }
{
    match form {
        Form::Keyless => out.text(b"NOKEY"),
        Form::L1Only => out.text(b"L1ONLY"),
        Form::L2Only => out.text(b"L2ONLY"),
        Form::Both => out.text(b"BOTH"),
        Form::Public => out.text(b"PUBLIC"),
    }
}

// REFUSED and the number.
#[tactic(auto, unfolding(line::specs::Text::put_all, crate::specs::Words::refused_words))]
pub fn refused<T: Text>(out: &mut T, refusal: Refusal)
    ensures { T.buffer out.new ≡ put_all (T.buffer out.old) (refused_words refusal) }
{
    out.text(b"REFUSED ");
    out.number(refusal.number() as u64);
}

// A place: its offset and its length.
#[tactic(auto, unfolding(line::specs::Text::put_all, crate::specs::Words::span_words))]
pub fn span<T: Text>(out: &mut T, span: Span)
    ensures { T.buffer out.new ≡ put_all (T.buffer out.old) (span_words span) }
{
    out.number(span.at as u64);
    out.text(b" ");
    out.number(span.len as u64);
}

// WRITTEN and the record's length; or the refusal.
#[tactic(auto, unfolding(line::specs::Text::put_all, crate::specs::Words::written_words))]
pub fn written<T: Text>(out: &mut T, answer: Result<usize, Refusal>)
    ensures { T.buffer out.new ≡ put_all (T.buffer out.old) (written_words answer) }
{
    match answer {
        Ok(len) => {
            out.text(b"WRITTEN ");
            out.number(len as u64);
        }
        Err(refusal) => refused(out, refusal),
    }
}
