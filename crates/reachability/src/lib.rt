// Reachability envelopes of stepped linear models: sets, what enters at a move, what moves the state, models, the sweep of a direction,
// and the verdicts on a guard.
//
// No public function has a `requires`: any value gets its reply. Memory that a caller lends is finished, or exactly as it was.
#![tactic(auto)]

pub mod entering;
pub mod model;
pub mod motion;
pub mod refusals;
pub mod sets;
pub mod sweep;
pub mod verdicts;
mod walk;
