// The part of a listing that a direction has.
ghost use Rattle.std.specs.Prelude.{◌≡◌, ◌+◌, ◌*◌, ◌≤◌, length};
ghost use Rattle.integers.specs.Sums.{vector};
ghost use Rattle.text.specs.Text.{each};
ghost use Rattle.text.specs.Output.{PutNext};
ghost use Rattle.listing.specs.Listing.{row_text};
ghost use Rattle.listing.specs.Inner.{Askable, DirectionLeaves, DirectionsLeave, swept as swept_lines};

use crate::guards::{Answers, note};
use reachability::model::Model;
use reachability::refusals::CallRefusal;
use reachability::sweep::sweep;
use text::Output;

// Step, bound, slack.
fn put_row(out: &mut Output, k: usize, bound: i64, slack: i64)
    requires { out.old.at + 65 ≤ length out.old.bytes.now }
    ensures { PutNext 65 (row_text k bound slack) out.old out.new }
{
    out.put_decimal(k as u64);
    out.put(b" ");
    out.put_signed(bound);
    out.put(b" ");
    out.put_signed(slack);
    out.put(b"\n");
}

// A row for each step.
fn put_rows(out: &mut Output, bounds: &[i64], slacks: &[i64])
    requires { (length slacks.now ≡ length bounds.now) × (out.old.at + 65 * length bounds.now ≤ length out.old.bytes.now) }
    ensures { PutNext (65 * length bounds.now) (each (length bounds.now) (λ k. row_text k (vector bounds.now k) (vector slacks.now k))) out.old out.new }
{
    for k in 0..bounds.len() {
        put_row(out, k, bounds[k], slacks[k]);
    }
}

// The lines of a direction from its sweep: number and spare figure, then a row for each step; or the step with growth.
fn put_swept(
    out: &mut Output,
    direction: usize,
    swept: Result<u32, CallRefusal>,
    bounds: &[i64],
    slacks: &[i64],
)
    requires { (length slacks.now ≡ length bounds.now) × (out.old.at + (53 + 65 * length bounds.now) ≤ length out.old.bytes.now) }
    ensures { PutNext (53 + 65 * length bounds.now) (swept_lines direction swept bounds.now slacks.now) out.old out.new }
{
    match swept {
        Ok(spare) => {
            out.put_line(b"dir ", direction as u64, b" spare ", u64::from(spare));
            put_rows(out, bounds, slacks);
        }
        Err(CallRefusal::Growth(step)) => {
            out.put_line(b"dir ", direction as u64, b" growth ", step as u64);
        }
        Err(_) => {}
    }
}

// A direction: its sweep, its lines, and the answers on its guards.
fn put_direction(
    model: Model,
    direction: usize,
    bounds: &mut [i64],
    slacks: &mut [i64],
    answers: &mut Answers,
    out: &mut Output,
)
    requires { Askable model direction bounds.old slacks.old × (length answers.old ≡ 16) × (out.old.at + 16758 ≤ length out.old.bytes.now) }
    ensures { DirectionLeaves model direction answers.old answers.new out.old out.new }
{
    let swept = sweep(model, direction, bounds, slacks);
    note(model, direction, swept, bounds, slacks, answers);
    put_swept(out, direction, swept, bounds, slacks);
}

// All directions, with the answers on all guards.
pub(crate) fn put_directions(
    model: Model,
    bounds: &mut [i64],
    slacks: &mut [i64],
    answers: &mut Answers,
    out: &mut Output,
)
    requires { Askable model 0 bounds.old slacks.old × (length answers.old ≡ 16) × (out.old.at + 16758 * model.questions.directions ≤ length out.old.bytes.now) }
    ensures { DirectionsLeave model answers.new out.old out.new }
{
    for d in 0..model.questions.directions {
        put_direction(model, d, bounds, slacks, answers, out);
    }
}
