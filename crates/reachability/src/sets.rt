// Boxes, zonotopes and vertex lists, with their support and their reach ("Sets" of the specification).
mod checks;
mod reaches;
mod supports;

ghost use Rattle.std.specs.Prelude.{◌≡◌};
ghost use Rattle.reachability.specs.Sets.{Supports, ReachAnswer, reach_within};

use crate::entering::entering_within;
pub(crate) use reaches::reach_at;
pub(crate) use supports::support_of;

// Limits 4. The largest reach of a set, and of what enters (Limits 11).
pub const REACH_LIMIT: u64 = 1048576;

// Sets 7. The most points of a set, which is the most vertices of a list.
pub const MOST_POINTS: usize = 16;

// Sets 5. The most points of a zonotope: its centre and eight generators.
pub const MOST_ZONOTOPE_POINTS: usize = 9;

// How a set's points are to be read: lower and upper corner; centre and generators; vertices.
#[derive(Clone, Copy, Debug, PartialEq, Eq)]
pub enum Shape {
    Box,
    Zonotope,
    Vertices,
}

// Sets 1, Forms 2. A set: its shape, how many points it has, and sixteen points of six coordinates. What is unused is zero.
// Kept: a count beside the points, since Forms 2 has them so and nothing is allocated.
#[derive(Clone, Copy)]
pub struct Set {
    pub shape: Shape,
    pub count: usize,
    pub points: [i32; 96],
}

// Routines 11. The support of the set at r: the largest r · x for x in it. Refusals 11: n is not 1 to 6, the set breaks a rule, or
// r has a value beyond n or a magnitude above 1,073,741,824.
pub fn support(n: usize, set: Set, r: &[i64; 6]) -> Option<i64>
    ensures { Supports n set r.now result }
{
    if set.ok(n) && limits::direction_ok(n, r) {
        Some(support_of(&set, r))
    } else {
        None
    }
}

// Routines 11. The reach of the set in each coordinate. Refusals 11: n is not 1 to 6, or the set breaks a rule.
pub fn reach(n: usize, set: Set) -> Option<[i64; 6]>
    ensures { ReachAnswer n set result }
{
    if set.ok(n) { Some(set.reaches()) } else { None }
}

// Routines 6. The reach of the first `count` points, 1 to 16 of them, is within its limit in each coordinate (Limits 4), as it is
// beside no drift.
// Kept: no method, since Routines 6 has it asked of so many points of a block, and of no whole set.
pub fn reach_within(shape: Shape, count: usize, points: &[i32; 96]) -> bool
    ensures { result ≡ reach_within shape count points.now }
{
    entering_within(shape, count, points, &[0; 6])
}
