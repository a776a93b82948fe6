// Answers in one number. What is packed fits: a figure is below 2 to the 48, and the callers show it.
ghost use Rattle.std.specs.Prelude.{◌≡◌, ◌<◌};
ghost use Rattle.reachability.specs.Answers.{call_number, call_figure, swept_figure};
ghost use Rattle.judge.specs.Answers.{judged_figure};
ghost use Rattle.writer.specs.Answers.{rewritten_figure};
ghost use Rattle.calm.specs.Answers.{limited_figure, within_figure};
ghost use Rattle.pepperscarp.specs.Packing.{packed, refused_packed, stepped_packed, swept_packed, judged_packed, rewritten_packed, calmed_packed, limited_packed, stayed_packed, stepped_figure, figure_limit};

use calm::CalmRefusal;
use reachability::refusals::CallRefusal;
use reachability::verdicts::Verdict;
use reader::Refused;
use writer::RewriteRefusal;

// C interface 1. What a verdict and a figure are multiplied by.
const VERDICT_UNIT: u64 = 256;

const FIGURE_UNIT: u64 = 65536;

// Number, verdict and figure side by side.
// Kept: numbers, here and below, since they are what a C caller reads (C interface 1 to 5).
fn pack(number: u8, verdict: u8, figure: u64) -> u64
    requires { figure < figure_limit }
    ensures { result ≡ packed number verdict figure }
{
    u64::from(number) + VERDICT_UNIT * u64::from(verdict) + FIGURE_UNIT * figure
}

// A refused file: its number and its offset.
pub(crate) fn refused(refused: Refused) -> u64
    requires { refused.offset < figure_limit }
    ensures { result ≡ refused_packed refused }
{
    pack(refused.refusal.number(), 0, refused.offset as u64)
}

// What a step answers.
pub(crate) fn stepped(answer: Option<u64>) -> u64
    requires { stepped_figure answer < figure_limit }
    ensures { result ≡ stepped_packed answer }
{
    match answer {
        Some(sum) => pack(0, 0, sum),
        None => pack(11, 0, 0),
    }
}

// A refused sweep or judge: its number, and the step with growth.
fn call_refused(refusal: CallRefusal) -> u64
    requires { call_figure refusal < figure_limit }
    ensures { result ≡ packed (call_number refusal) 0 (call_figure refusal) }
{
    match refusal {
        CallRefusal::Invalid => pack(11, 0, 0),
        CallRefusal::Missing => pack(12, 0, 0),
        CallRefusal::WrongLength => pack(13, 0, 0),
        CallRefusal::Growth(step) => pack(14, 0, step as u64),
    }
}

// What a sweep answers.
pub(crate) fn swept(answer: Result<u32, CallRefusal>) -> u64
    requires { swept_figure answer < figure_limit }
    ensures { result ≡ swept_packed answer }
{
    match answer {
        Ok(bits) => pack(0, 0, u64::from(bits)),
        Err(refusal) => call_refused(refusal),
    }
}

// What a judge answers.
pub(crate) fn judged(answer: Result<Verdict, CallRefusal>) -> u64
    requires { judged_figure answer < figure_limit }
    ensures { result ≡ judged_packed answer }
{
    match answer {
        Ok(Verdict::Hit(step)) => pack(0, 1, step as u64),
        Ok(Verdict::Unknown(step)) => pack(0, 2, step as u64),
        Ok(Verdict::Clear) => pack(0, 3, 0),
        Err(refusal) => call_refused(refusal),
    }
}

// What became of a file that was to be rewritten.
pub(crate) fn rewritten(answer: Result<usize, RewriteRefusal>) -> u64
    requires { rewritten_figure answer < figure_limit }
    ensures { result ≡ rewritten_packed answer }
{
    match answer {
        Ok(length) => pack(0, 0, length as u64),
        Err(RewriteRefusal::File(file)) => refused(file),
        Err(RewriteRefusal::Short) => pack(22, 0, 0),
    }
}

// Whether a model is calm.
pub(crate) fn calmed(answer: Result<bool, CalmRefusal>) -> u64
    ensures { result ≡ calmed_packed answer }
{
    limited(answer.map(u64::from))
}

// The limit of a step.
pub(crate) fn limited(answer: Result<u64, CalmRefusal>) -> u64
    requires { limited_figure answer < figure_limit }
    ensures { result ≡ limited_packed answer }
{
    match answer {
        Ok(limit) => pack(0, 0, limit),
        Err(refusal) => pack(refusal.number(), 0, 0),
    }
}

// The steps within a slack.
pub(crate) fn stayed(answer: Result<usize, CalmRefusal>) -> u64
    requires { within_figure answer < figure_limit }
    ensures { result ≡ stayed_packed answer }
{
    limited(answer.map(|step| step as u64))
}
