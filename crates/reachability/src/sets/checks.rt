// The rules that number 11 tests of a set.
ghost use Rattle.std.specs.Prelude.{◌≡◌, ◌&&◌};
ghost use Rattle.stepping.specs.Refusals.{dimension_ok};
ghost use Rattle.reachability.specs.Sets.{count_ok};
ghost use Rattle.reachability.specs.Limits.{set_accepted, drift_accepted};

use crate::entering::entering_within;
use crate::sets::{MOST_POINTS, MOST_ZONOTOPE_POINTS, Set, Shape, reach_within};
use stepping::MOST_COORDINATES;

impl Set {
    // The count is one that the shape allows.
    fn count_ok(&self) -> bool
        ensures { result ≡ count_ok self.now.shape self.now.count }
    {
        match self.shape {
            Shape::Box => self.count == 2,
            Shape::Zonotope => (2..=MOST_ZONOTOPE_POINTS).contains(&self.count),
            Shape::Vertices => (1..=MOST_POINTS).contains(&self.count),
        }
    }

    // n and the set break no rule.
    pub(crate) fn ok(&self, n: usize) -> bool
        ensures { result ≡ dimension_ok n && set_accepted n self.now }
    {
        (1..=MOST_COORDINATES).contains(&n)
            && self.count_ok()
            && arrays::zero_outside(self.count, n, &self.points)
            && reach_within(self.shape, self.count, &self.points)
            && match self.shape {
                Shape::Box => limits::corners_ordered(n, &self.points),
                Shape::Zonotope | Shape::Vertices => true,
            }
    }

    // Nor does a drift beside it as what enters.
    pub(crate) fn enters(&self, n: usize, drift: &[i32; 6]) -> bool
        ensures { result ≡ dimension_ok n && (set_accepted n self.now && drift_accepted n self.now drift.now) }
    {
        self.ok(n)
            && arrays::zero_outside(1, n, drift)
            && entering_within(self.shape, self.count, &self.points, drift)
    }
}
