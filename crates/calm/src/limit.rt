// The limit of the slacks of a calm model, from the sums of its reaches.
ghost use Rattle.std.specs.Prelude.{◌≡◌, true, suc, ◌+◌, ◌≤◌, ltb};
ghost use Rattle.integers.specs.Sums.{magnitudes, sum_ℕ};
ghost use Rattle.reachability.specs.Limits.{accepted};
ghost use Rattle.reachability.specs.Recurrence.{first_place};
ghost use Rattle.calm.specs.Calm.{initial_total, entering_total, limit_of};
ghost use Rattle.calm.specs.Inner.{SmallReaches, SmallTotals};

use reachability::model::Model;
use reachability::sets::reach;
use stepping::DIRECTION_UNIT;

// Recurrence 1, as what the limit is rounded to.
const UNIT: u64 = DIRECTION_UNIT as u64;

// The sum over n coordinates of reaches, each with the magnitude of a drift.
fn total(n: usize, reaches: &[i64; 6], drift: &[i32; 6]) -> u64
    requires { SmallReaches n reaches.now drift.now }
    ensures { result ≡ sum_ℕ n (λ i. magnitudes reaches.now i + magnitudes drift.now i) }
{
    let mut sum = 0;
    for i in 0..n {
        sum += reaches[i].unsigned_abs() + u64::from(drift[i].unsigned_abs());
    }
    sum
}

// Calm 2. X, the sum of the initial reaches, and Y, the sum of the reaches of what enters.
#[derive(Clone, Copy)]
pub(crate) struct Totals {
    initial: u64,
    entering: u64,
    ghost small: { SmallTotals initial entering },
}

impl Totals {
    // Those of an accepted model.
    // Kept: a fact and no type of accepted models, since a model that was read would have to be tested again.
    pub(crate) fn of(model: Model) -> Totals
        requires { accepted model ≡ true }
        ensures initial { result.initial ≡ initial_total model }
        ensures entering { result.entering ≡ entering_total model }
    {
        let initial = reach(model.n, model.initial).unwrap_or([0; 6]);
        let input = reach(model.n, model.input).unwrap_or([0; 6]);
        Totals {
            initial: total(model.n, &initial, &[0; 6]),
            entering: total(model.n, &input, &model.drift),
        }
    }

    // Calm 3. The limit at a step.
    pub(crate) fn limit_at(&self, step: usize) -> u64
        requires { step ≤ 256 }
        ensures { result ≡ limit_of self.now.initial self.now.entering step }
    {
        let k = step as u64;
        let pairs = k * k.saturating_sub(1) / 2;
        let errors = k * self.initial + pairs * self.entering;
        (errors + 1).div_ceil(UNIT) + 1
    }

    // Calm 7. The first of the steps 0 to `last` whose limit is above the slack, last + 1 where there is none.
    pub(crate) fn first_above(&self, last: usize, slack: u64) -> usize
        requires { last ≤ 256 }
        ensures { result ≡ first_place (suc last) (λ j. ltb slack (limit_of self.now.initial self.now.entering j)) }
    {
        let steps = last + 1;
        for k in 0..steps {
            if slack < self.limit_at(k) {
                return k;
            }
        }
        steps
    }
}
