// What a kind is refused for: Refusals 3, a kind that may not stand here; Refusals 9, one record too many.
ghost use Rattle.std.specs.Prelude.{◌≡◌};
ghost use Rattle.reader.specs.Refusals.{count_of};
ghost use Rattle.reader.specs.Inner.{Admits};

use crate::refusals::FileRefusal;
use crate::state::State;
use records::kinds::{Layout, Part, kind_layout};
use records::order::may_follow;

// How many the part has so far.
fn count_of(part: Part, state: &State) -> usize
    ensures { result ≡ count_of part state.now }
{
    match part {
        Part::Initial => state.model.initial.count,
        Part::Input => state.model.input.count,
        Part::Direction => state.model.questions.directions,
        Part::Guard => state.model.questions.guards,
        Part::Head | Part::Row | Part::Drift | Part::End => 0,
    }
}

// What a kind is that may stand here. An unknown kind has no record, so that any would be one too many.
#[tactic(auto, unfolding(crate::specs::Refusals::kind_number))]
pub(crate) fn admit(state: &State, kind: u8) -> Result<Layout, FileRefusal>
    ensures { Admits state.now kind result }
{
    if !may_follow(state.place, kind) {
        return Err(FileRefusal::WrongPlace);
    }
    let Some(layout) = kind_layout(kind) else {
        return Err(FileRefusal::OneTooMany);
    };
    if layout.most <= count_of(layout.part, state) {
        return Err(FileRefusal::OneTooMany);
    }
    Ok(layout)
}
