// The sweep of a direction: bounds and slacks for every step.
mod rows;

ghost use Rattle.reachability.specs.Answers.{SweepLeaves};

use crate::model::{Model, accepts};
use crate::refusals::CallRefusal;

// Routines 2 and 4, with "Accuracy". Bounds and slacks of direction number `direction` for steps 0 to K in the lent lists, and the
// spare figure. On a refusal, of 11 to 14, both lists are as they were.
pub fn sweep(
    model: Model,
    direction: usize,
    bounds: &mut [i64],
    slacks: &mut [i64],
) -> Result<u32, CallRefusal>
    ensures { SweepLeaves model direction bounds.old slacks.old result bounds.new slacks.new }
{
    if !accepts(model) {
        return Err(CallRefusal::Invalid);
    }
    if model.questions.directions <= direction {
        return Err(CallRefusal::Missing);
    }
    let size = model.steps + 1;
    if bounds.len() != size || slacks.len() != size {
        return Err(CallRefusal::WrongLength);
    }
    let mut bound_row = rows::blank();
    let mut slack_row = rows::blank();
    let largest = rows::fill(model, direction, &mut bound_row, &mut slack_row)?;
    bounds.copy_from_slice(&bound_row[..size]);
    slacks.copy_from_slice(&slack_row[..size]);
    Ok(rows::spare_of(largest))
}
