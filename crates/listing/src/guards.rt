// The part of a listing that a guard has. The answers on the guards of a direction are noted when it is swept, and written behind the
// directions.
ghost use Rattle.std.specs.Prelude.{◌≡◌, ◌+◌, ◌*◌, ◌≤◌, length};
ghost use Rattle.text.specs.Text.{each};
ghost use Rattle.text.specs.Output.{PutNext};
ghost use Rattle.listing.specs.Listing.{judged_text, guard_text};
ghost use Rattle.listing.specs.Inner.{Notable, Notes, AllNoted};

use judge::verdict;
use reachability::model::Model;
use reachability::refusals::CallRefusal;
use reachability::verdicts::Verdict;
use text::Output;

// The answers on the guards, by number.
pub(crate) type Answers = [Result<Verdict, CallRefusal>; 16];

// What stands where no answer has been noted: a refusal that has no line.
pub(crate) const NO_ANSWER: Result<Verdict, CallRefusal> = Err(CallRefusal::Missing);

// Notes the answer on each guard that watches the direction, from the sweep of it.
pub(crate) fn note(
    model: Model,
    direction: usize,
    swept: Result<u32, CallRefusal>,
    bounds: &[i64],
    slacks: &[i64],
    answers: &mut Answers,
)
    requires { Notable model direction swept bounds.now slacks.now × (length answers.old ≡ 16) }
    ensures { Notes model direction model.questions.guards answers.old answers.new }
{
    for g in 0..model.questions.guards {
        if model.questions.watched[g] == direction {
            answers[g] = verdict(swept, model.questions.levels[g], bounds, slacks);
        }
    }
}

// The line of a guard, from its answer.
fn put_guard(out: &mut Output, guard: usize, answer: Result<Verdict, CallRefusal>)
    requires { out.old.at + 56 ≤ length out.old.bytes.now }
    ensures { PutNext 56 (judged_text guard answer) out.old out.new }
{
    match answer {
        Ok(Verdict::Hit(step)) => {
            out.put_line(b"guard ", guard as u64, b" HIT ", step as u64);
        }
        Ok(Verdict::Unknown(step)) => {
            out.put_line(b"guard ", guard as u64, b" UNKNOWN ", step as u64);
        }
        Ok(Verdict::Clear) => {
            out.put(b"guard ");
            out.put_decimal(guard as u64);
            out.put(b" CLEAR\n");
        }
        Err(CallRefusal::Growth(step)) => {
            out.put_line(b"guard ", guard as u64, b" GROWTH ", step as u64);
        }
        Err(_) => {}
    }
}

// All guards, from their answers.
pub(crate) fn put_guards(model: Model, answers: &Answers, out: &mut Output)
    requires { AllNoted model answers.now × (out.old.at + 56 * model.questions.guards ≤ length out.old.bytes.now) }
    ensures { PutNext (56 * model.questions.guards) (each model.questions.guards (guard_text model)) out.old out.new }
{
    for g in 0..model.questions.guards {
        put_guard(out, g, answers[g]);
    }
}
