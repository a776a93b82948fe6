// The bound and the slack of a step from its raw bound and raw slack, for every raw bound and raw slack.
ghost use Rattle.stepping.specs.Recurrence.{Rounds};

use crate::DIRECTION_UNIT;

// A bound and its slack.
#[derive(Clone, Copy)]
pub struct Rounded {
    pub bound: i64,
    pub slack: i64,
}

// Routines 10, by Recurrence 13 and 14: both over 1,048,576, rounded up, and a slack of 1 more for a bound that was rounded.
pub fn bound_and_slack(raw: i64, raw_slack: u64) -> Rounded
    ensures { Rounds raw raw_slack result.bound result.slack }
{
    let part = arrays::fraction(raw, DIRECTION_UNIT);
    Rounded {
        bound: (raw >> 20) + part as i64,
        slack: (raw_slack.div_ceil(u64::from(DIRECTION_UNIT)) + part) as i64,
    }
}
