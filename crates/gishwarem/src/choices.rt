// Document 01, "Reach, and the two envelopes", for C.
ghost use Rattle.std.specs.Prelude.{◌≡◌};
ghost use Rattle.reach.specs.Reaches.{form_reach};
ghost use Rattle.serving.specs.Reach.{envelope_reach};
ghost use Rattle.serving.specs.Choice.{choice_of};
ghost use Rattle.face.specs.Codes.{form_from};
ghost use Rattle.face.specs.Shapes.{gkid_from, root_id_from};
ghost use Rattle.face_choices.specs.Choices.{reach_answer, choice_answer};

use face::{Identifier, RootBytes, form_from};
use face_choices::{ChoiceAnswer, ReachAnswer};

#[unsafe(no_mangle)]
pub extern "C" fn gw_envelope_reach(s: &[u8]) -> ReachAnswer
    ensures { result ≡ reach_answer (envelope_reach s.now) }
{
    ReachAnswer::from(serving::envelope_reach(s))
}

#[unsafe(no_mangle)]
pub extern "C" fn gw_form_reach(form: u32, at: Identifier) -> ReachAnswer
    ensures { result ≡ reach_answer (form_reach (form_from form) (gkid_from at)) }
{
    ReachAnswer::from(reach::form_reach(form_from(form), at.into()))
}

#[unsafe(no_mangle)]
pub extern "C" fn gw_choose(
    id: RootBytes,
    wanted: Identifier,
    cached: &[u8],
    fetched: &[u8],
) -> ChoiceAnswer
    ensures { result ≡ choice_answer (choice_of (root_id_from id) (gkid_from wanted) cached.now fetched.now) }
{
    serving::choose(id.into(), wanted.into(), cached, fetched).into()
}
