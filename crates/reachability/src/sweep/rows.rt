// Filling the rows of a sweep, once the model and the direction's number have been tested.
ghost use Rattle.std.specs.Prelude.{◌≡◌, ◌≤◌, length};
ghost use Rattle.stepping.specs.Limits.{growth_limit};
ghost use Rattle.stepping.specs.Recurrence.{spare};
ghost use Rattle.reachability.specs.SweepInner.{FillAsks, Fills};

use crate::model::Model;
use crate::motion::matrix_at;
use crate::refusals::CallRefusal;
use crate::walk::Walk;
use limits::LONGEST_LIST;
use stepping::GROWTH_LIMIT;

// 257 zeros. The contract gives the length alone.
pub(crate) fn blank() -> [i64; LONGEST_LIST]
    ensures { 257 ≡ length result }
{
    [0i64; LONGEST_LIST]
}

// The spare figure of a largest sum from 1 to 1,073,741,824.
pub(crate) fn spare_of(sum: u64) -> u32
    requires { (1 ≤ sum) × (sum ≤ growth_limit) }
    ensures { result ≡ spare sum }
{
    stepping::spare_bits(sum).unwrap_or(0)
}

// Bounds and slacks of the direction in the rows for steps 0 to K, and their largest growth sum; or the first step with growth. The
// sets are not tested again, and the reaches and the moved points are taken once. The walks of all steps agree where one matrix makes
// every move, so one walk is taken back from step to step, and is at the end of the walk of each.
pub(crate) fn fill(
    model: Model,
    direction: usize,
    bounds: &mut [i64; LONGEST_LIST],
    slacks: &mut [i64; LONGEST_LIST],
) -> Result<u64, CallRefusal>
    requires { FillAsks model direction bounds.old slacks.old }
    ensures { Fills model direction result bounds.new slacks.new }
{
    let matrix = matrix_at(model.motion, 0);
    let initial_reaches = model.initial.reaches();
    let mut input = model.input;
    let input_reaches = input.entering_reaches(&model.drift);
    input.move_by(&model.drift);
    let row = arrays::row(&model.questions.entries, direction);
    let mut walk = Walk::begin(model.n, &row);
    let mut largest = 0;
    let size = model.steps + 1;
    for k in 0..size {
        largest = walk.largest;
        if GROWTH_LIMIT < largest {
            return Err(CallRefusal::Growth(k));
        }
        let end = walk.end_of(&model.initial, &initial_reaches);
        bounds[k] = end.bound;
        slacks[k] = end.slack;
        walk.back(&matrix, &input, &input_reaches);
    }
    Ok(largest)
}
