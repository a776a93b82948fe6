// What enters at a move: the input, together with the drift (Runs 9).
ghost use Rattle.std.specs.Prelude.{◌≡◌, ◌<◌, pos};
ghost use Rattle.integers.specs.Sums.{tabulate};
ghost use Rattle.reachability.specs.Entering.{entering_reach, entering_within};
ghost use Rattle.reachability.specs.Moved.{moved_count, moved_set};
ghost use Rattle.reachability.specs.EnteringInner.{EnteringSmall, Movable};

use crate::sets::{MOST_POINTS, REACH_LIMIT, Set, Shape, reach_at};
use std::array;

// Routines 6. Of the first `count` points of an input set, 1 to 16 of them, the reach and the drift together are within the limit in
// each coordinate (Limits 11).
// Kept: no method, since it is asked of so many points of a block and of no whole set: a reader tests a set point by point.
pub fn entering_within(shape: Shape, count: usize, points: &[i32; 96], drift: &[i32; 6]) -> bool
    ensures { result ≡ entering_within shape count points.now drift.now }
{
    if !(1..=MOST_POINTS).contains(&count) {
        return false;
    }
    for i in 0..6 {
        let size = u64::from(drift[i].unsigned_abs());
        let sum = reach_at(shape, count, points, i).saturating_add(size);
        if REACH_LIMIT < sum {
            return false;
        }
    }
    true
}

impl Set {
    // Recurrence 16. The reach of what enters in coordinate i, where it is within its limit.
    fn entering_at(&self, drift: &[i32; 6], i: usize) -> u64
        requires { EnteringSmall self.now.shape self.now.count self.now.points drift.now × (i < 6) }
        ensures { result ≡ entering_reach self.now.shape self.now.count self.now.points drift.now i }
    {
        reach_at(self.shape, self.count, &self.points, i) + u64::from(drift[i].unsigned_abs())
    }

    // The same in each of the six coordinates.
    pub(crate) fn entering_reaches(&self, drift: &[i32; 6]) -> [i64; 6]
        requires { EnteringSmall self.now.shape self.now.count self.now.points drift.now }
        ensures { result ≡ tabulate 6 (λ i. pos (entering_reach self.now.shape self.now.count self.now.points drift.now i)) }
    {
        array::from_fn(|i| self.entering_at(drift, i) as i64)
    }

    // How many of the points are moved with the set.
    fn moved_count(&self) -> usize
        ensures { result ≡ moved_count self.now.shape self.now.count }
    {
        match self.shape {
            Shape::Box => 2,
            Shape::Zonotope => 1,
            Shape::Vertices => self.count,
        }
    }

    // Sets 20. Moves the set by the vector `by`. Its support is then that of the set and r · by together, so that a sweep that moves
    // the input set once has no more to add at a step.
    pub(crate) fn move_by(&mut self, by: &[i32; 6])
        requires { Movable self.old.count self.old.points by.now }
        ensures { self.new ≡ moved_set self.old by.now }
    {
        for k in 0..6 * self.moved_count() {
            self.points[k] += by[k % 6];
        }
    }
}
