// The judge of a guard: whether its level can be reached.
//
// No public function has a `requires`: any value gets its reply. On a refusal, with its number, lent lists are as they were.
#![tactic(auto)]

mod places;

ghost use Rattle.judge.specs.Answers.{VerdictAnswers, JudgeLeaves};

use reachability::model::{Model, accepts};
use reachability::refusals::CallRefusal;
use reachability::sweep::sweep;
use reachability::verdicts::Verdict;

// Routines 5. The verdict on a level by what a sweep answered and left: its refusal, if it refused; 13 where the lists are not as
// long as each other, or not 2 to 257 long, since K is 1 to 256; else the verdict over them. Guards on one direction share its
// sweep in this way.
pub fn verdict(
    swept: Result<u32, CallRefusal>,
    level: i64,
    bounds: &[i64],
    slacks: &[i64],
) -> Result<Verdict, CallRefusal>
    ensures { VerdictAnswers swept level bounds.now slacks.now result }
{
    swept?;
    places::verdict_of(level, bounds, slacks)
}

// Routines 3 and 4, with "Accuracy". The verdict on guard number `guard`, with the sweep of its direction in the lent lists; 11,
// 12, 13 and 14 as `CallRefusal` says.
pub fn judge(
    model: Model,
    guard: usize,
    bounds: &mut [i64],
    slacks: &mut [i64],
) -> Result<Verdict, CallRefusal>
    ensures { JudgeLeaves model guard bounds.old slacks.old result bounds.new slacks.new }
{
    if !accepts(model) {
        return Err(CallRefusal::Invalid);
    }
    if model.questions.guards <= guard {
        return Err(CallRefusal::Missing);
    }
    let direction = model.questions.watched[guard];
    let level = model.questions.levels[guard];
    let swept = sweep(model, direction, bounds, slacks);
    verdict(swept, level, bounds, slacks)
}
