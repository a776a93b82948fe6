// Reaches. A count that its shape allows is all that they ask, so that they also serve the test of the reach.
ghost use Rattle.std.specs.Prelude.{◌≡◌, ◌<◌, pos};
ghost use Rattle.integers.specs.Sums.{tabulate};
ghost use Rattle.reachability.specs.Sets.{reach_of, points as points_of};
ghost use Rattle.reachability.specs.SetsInner.{Counted, ReachSmall};

use crate::sets::{Set, Shape};
use std::array;

// The reach in coordinate i.
// Kept: no method, since `entering_within` (Routines 6) asks it of points that are no whole set yet.
pub(crate) fn reach_at(shape: Shape, count: usize, points: &[i32; 96], i: usize) -> u64
    requires { Counted count × (i < 6) }
    ensures { result ≡ reach_of shape count (points_of points.now) i }
{
    match shape {
        Shape::Box => arrays::column_most(points, 2, i),
        Shape::Zonotope => arrays::column_sum(points, count, i),
        Shape::Vertices => arrays::column_most(points, count, i),
    }
}

impl Set {
    // The reach in each of the six coordinates, of a set whose reach is within its limit.
    pub(crate) fn reaches(&self) -> [i64; 6]
        requires { Counted self.now.count × ReachSmall self.now.shape self.now.count self.now.points }
        ensures { result ≡ tabulate 6 (λ i. pos (reach_of self.now.shape self.now.count (points_of self.now.points) i)) }
    {
        array::from_fn(|i| reach_at(self.shape, self.count, &self.points, i) as i64)
    }
}
