// The verdicts on a guard.

// The verdict, and its step but for CLEAR. HIT names the first step at which the level is certainly reached: a run may reach it earlier.
#[derive(Clone, Copy, Debug, PartialEq, Eq)]
pub enum Verdict {
    Hit(usize),
    Unknown(usize),
    Clear,
}
