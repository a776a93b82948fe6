// Verdicts 2, 3 and 4 over a sweep's lists.
ghost use Rattle.std.specs.Prelude.{◌≡◌, ◌-ℤ◌, zip, position};
ghost use Rattle.reachability.specs.Verdicts.{reaches};
ghost use Rattle.judge.specs.Answers.{list_answer};

use limits::LONGEST_LIST;
use reachability::refusals::CallRefusal;
use reachability::verdicts::Verdict;

// Refusals 13. The fewest elements of a list of bounds or slacks, since K is at least 1.
const SHORTEST_LIST: usize = 2;

// Verdicts 1. A value, which may be past the ends of i64, is above the level. No other function compares with a level.
fn reaches_level(level: i64, value: i128) -> bool
    ensures { result ≡ reaches level value }
{
    i128::from(level) < value
}

// The first step whose bound less its slack reaches the level, for any numbers.
fn first_hit(level: i64, bounds: &[i64], slacks: &[i64]) -> Option<usize>
    ensures { result ≡ position (λ p. reaches level (p.0 -ℤ p.1)) (zip bounds.now slacks.now) }
{
    bounds.iter().zip(slacks).position(|(bound, slack)| {
        let surely = i128::from(*bound) - i128::from(*slack);
        reaches_level(level, surely)
    })
}

// The first step whose bound reaches the level.
fn first_unknown(level: i64, bounds: &[i64]) -> Option<usize>
    ensures { result ≡ position (reaches level) bounds.now }
{
    bounds
        .iter()
        .position(|bound| reaches_level(level, i128::from(*bound)))
}

// HIT, else UNKNOWN, else CLEAR; 13 where the lists are not as long as each other, or not 2 to 257 long.
pub(crate) fn verdict_of(level: i64, bounds: &[i64], slacks: &[i64]) -> Result<Verdict, CallRefusal>
    ensures { result ≡ list_answer level bounds.now slacks.now }
{
    if slacks.len() != bounds.len() || !(SHORTEST_LIST..=LONGEST_LIST).contains(&bounds.len()) {
        return Err(CallRefusal::WrongLength);
    }
    if let Some(k) = first_hit(level, bounds, slacks) {
        return Ok(Verdict::Hit(k));
    }
    Ok(match first_unknown(level, bounds) {
        Some(k) => Verdict::Unknown(k),
        None => Verdict::Clear,
    })
}
