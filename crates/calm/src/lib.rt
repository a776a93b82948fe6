// Calm models ("Calm" of the specification): whether a model is calm, how large a slack of it can be at a step, and up to which step
// it stays within a slack that the caller names.
//
// No public function has a `requires`: any model, step and slack gets its reply. A model that breaks a rule is refused by 11, as the
// sweep refuses it, one that is not calm by 26, a step beyond K by 27, and a slack that no step stays within by 28.
#![tactic(auto)]

mod columns;
mod limit;

ghost use Rattle.std.specs.Prelude.{◌≡◌};
ghost use Rattle.calm.specs.Answers.{refusal_number, CalmAnswers, LimitAnswers, WithinAnswers};
ghost use Rattle.calm.specs.OfCalm.{TotalsAnswer};

use limit::Totals;
use reachability::model::{Model, accepts};
use reachability::motion::rows_of;

// What the routines refuse: 11, the model breaks a rule; 26, it is not calm; 27, it has no such step; 28, the limit of step 0 is above
// the slack.
#[derive(Clone, Copy, Debug, PartialEq, Eq)]
pub enum CalmRefusal {
    Invalid,
    NotCalm,
    NoStep,
    TooSmall,
}

impl CalmRefusal {
    // Forms 7. The number of the refusal.
    pub fn number(self) -> u8
        ensures { result ≡ refusal_number self }
    {
        match self {
            CalmRefusal::Invalid => 11,
            CalmRefusal::NotCalm => 26,
            CalmRefusal::NoStep => 27,
            CalmRefusal::TooSmall => 28,
        }
    }
}

// Routines 25. Whether in each column of the matrix the magnitudes of the entries sum to at most 65,536 (Calm 1).
pub fn calm(model: Model) -> Result<bool, CalmRefusal>
    ensures { CalmAnswers model result }
{
    if !accepts(model) {
        return Err(CalmRefusal::Invalid);
    }
    Ok(columns::all_calm(model.n, &rows_of(model.motion)))
}

// X and Y of a calm model.
fn calm_totals(model: Model) -> Result<Totals, CalmRefusal>
    ensures { TotalsAnswer model result }
{
    if !calm(model)? {
        return Err(CalmRefusal::NotCalm);
    }
    Ok(Totals::of(model))
}

// Routines 26. The limit of the slacks at a step (Calm 3): no direction of the model has a larger slack there.
pub fn slack_limit(model: Model, step: usize) -> Result<u64, CalmRefusal>
    ensures { LimitAnswers model step result }
{
    let totals = calm_totals(model)?;
    if model.steps < step {
        return Err(CalmRefusal::NoStep);
    }
    Ok(totals.limit_at(step))
}

// Routines 27. The largest step up to which the limit stays at or below the slack (Calm 7): up to it no direction has a larger one.
pub fn steps_within(model: Model, slack: u64) -> Result<usize, CalmRefusal>
    ensures { WithinAnswers model slack result }
{
    let first = calm_totals(model)?.first_above(model.steps, slack);
    if first == 0 {
        return Err(CalmRefusal::TooSmall);
    }
    Ok(first - 1)
}
