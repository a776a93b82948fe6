// The C interface: one step, and the sweep, the judge, the listing and the rewriting of a model file, and how large its slacks can be.
// Each function keeps nothing, and has no `requires`: any values get their reply. `pepperscarp_c` exports each under its own name.
//
// An answer of every function but the listing is one number: number + 256 × verdict + 65,536 × figure. The number is the refusal's, 0
// where nothing is refused. On a refusal the lent memory is as it was.
#![tactic(auto)]

mod packing;

ghost use Rattle.std.specs.Prelude.{◌≡◌, Ok, Err};
ghost use Rattle.reader.specs.declared.refusals.Refused.{Refused};
ghost use Rattle.reader.specs.Reading.{read_model};
ghost use Rattle.pepperscarp.specs.Packing.{refused_packed};
ghost use Rattle.listing.specs.Listing.{ReplyLeaves};
ghost use Rattle.pepperscarp.specs.Replies.{StepReply, SweepReply, JudgeReply, WriteReply, CalmReply, LimitReply, WithinReply};

use calm::{calm, slack_limit, steps_within};
use judge::judge;
use listing::reply;
use reachability::model::Model;
use reachability::sweep::sweep;
use reader::read;
use stepping::step;
use writer::rewrite;

// C interface 2. One step of r and e. The figure is the growth sum of what it left. The only refusal is 11, as `stepping::step` has
// it.
pub fn pepperscarp_step(n: usize, matrix: &[i32; 36], r: &mut [i64; 6], e: &mut [i64; 6]) -> u64
    ensures { StepReply n matrix.now r.old e.old result r.new e.new }
{
    let answer = step(n, matrix, r, e);
    packing::stepped(answer)
}

// C interface 3, 5 and 7. The sweep of direction number `direction` of the file's model. The figure is the spare figure.
// Refusals: 1 to 10 or 15 to 17 with the offset as the figure, where the file is refused; 12 and 13; 14 with the first step with
// growth as the figure.
pub fn pepperscarp_sweep(
    file: &[u8],
    direction: usize,
    bounds: &mut [i64],
    slacks: &mut [i64],
) -> u64
    ensures { SweepReply file.now direction bounds.old slacks.old result bounds.new slacks.new }
{
    // Kept: (c) the contract of `of_model` can't say that a closure that is not called leaves its lists as they were.
    match read(file) {
        Ok(model) => packing::swept(sweep(model, direction, bounds, slacks)),
        Err(refused) => packing::refused(refused),
    }
}

// C interface 4, 5 and 7. The judge of guard number `guard` of the file's model: verdict 1 HIT or 2 UNKNOWN with its step as the
// figure, or 3 CLEAR; the sweep of the guard's direction is left in the lists. Refusals as for the sweep.
pub fn pepperscarp_judge(file: &[u8], guard: usize, bounds: &mut [i64], slacks: &mut [i64]) -> u64
    ensures { JudgeReply file.now guard bounds.old slacks.old result bounds.new slacks.new }
{
    // Kept: (c) the contract of `of_model` can't say that a closure that is not called leaves its lists as they were.
    match read(file) {
        Ok(model) => packing::judged(judge(model, guard, bounds, slacks)),
        Err(refused) => packing::refused(refused),
    }
}

// C interface 6. The text that the program `envelope` writes for the file, at the start of `out`, and how many bytes it has. The
// answer is 0, and nothing is written, where `out` has fewer than 270,000 bytes; every text fits in so many.
pub fn pepperscarp_listing(file: &[u8], out: &mut [u8]) -> usize
    ensures { ReplyLeaves file.now out.old out.new result }
{
    reply(file, out)
}

// C interface 9. The file of the file's model, at the start of `out`; the figure is its length. Refusals: 1 to 10 or 15 to 17 with the
// offset as the figure, where the file is refused; 22 where `out` is shorter than what would be written.
pub fn pepperscarp_write(file: &[u8], out: &mut [u8]) -> u64
    ensures { WriteReply file.now out.old result out.new }
{
    let answer = rewrite(file, out);
    packing::rewritten(answer)
}

// C interface 5. The answer to a file: its number and offset where it is refused, else what `reply` makes of its model.
fn of_model<F: FnOnce(Model) -> u64>(file: &[u8], reply: F) -> u64
    requires { (m : Model) → read_model file.now ≡ Ok m → F.pre reply m }
    ensures refused { (e : Refused) → read_model file.now ≡ Err e → result ≡ refused_packed e }
    ensures read { (m : Model) → read_model file.now ≡ Ok m → F.post reply m result }
{
    match read(file) {
        Ok(model) => reply(model),
        Err(refused) => packing::refused(refused),
    }
}

// C interface 5 and 10. Whether the file's model is calm: the figure is 1 where it is, and 0 where it is not. Refusals: 1 to 10 or 15 to
// 17 with the offset as the figure, where the file is refused.
pub fn pepperscarp_calm(file: &[u8]) -> u64
    ensures { CalmReply file.now result }
{
    of_model(file, |model| packing::calmed(calm(model)))
}

// C interface 5 and 11. What no slack of the file's model is above at a step: the figure is the limit. Refusals: those of the file; 26
// where its model is not calm; 27 where it has no such step.
pub fn pepperscarp_slack_limit(file: &[u8], step: usize) -> u64
    ensures { LimitReply file.now step result }
{
    of_model(file, |model| packing::limited(slack_limit(model, step)))
}

// C interface 5 and 12. Up to which step the limit stays at or below the slack: the figure is the step. Refusals: those of the file; 26
// where its model is not calm; 28 where the limit of step 0 is above the slack.
pub fn pepperscarp_steps_within(file: &[u8], slack: u64) -> u64
    ensures { WithinReply file.now slack result }
{
    of_model(file, |model| packing::stayed(steps_within(model, slack)))
}
