// What number 11 tests apart from sets (Routines 6): n, steps and matrix; directions; guards; a direction for a set; the corners of
// a box.
//
// No public function has a `requires`.
#![tactic(auto)]

ghost use Rattle.std.specs.Prelude.{◌≡◌, ◌<◌};
ghost use Rattle.limits.specs.Limits.{frame_ok, directions_ok, guard_ok, guards_ok, value_ok, direction_ok, corners_ordered, all_zero};

use stepping::{GROWTH_LIMIT, MOST_COORDINATES};

// Limits 2. The most steps.
pub const MOST_STEPS: usize = 256;

// Refusals 13. The most elements of a list of bounds or slacks, which has one for each of the steps 0 to K.
pub const LONGEST_LIST: usize = MOST_STEPS + 1;

// Limits 5. The largest and the least entry of a direction.
pub const DIRECTION_LIMIT: i32 = 1000;

pub const LEAST_DIRECTION: i32 = -DIRECTION_LIMIT;

// Limits 6. The most directions.
pub const MOST_DIRECTIONS: usize = 16;

// Limits 7. The most guards.
pub const MOST_GUARDS: usize = 16;

// Limits 1, 2, 3 and 9. n is 1 to 6, the steps are 1 to 256, and the matrix is one of n by n.
pub fn frame_ok(n: usize, steps: usize, matrix: &[i32; 36]) -> bool
    ensures { result ≡ frame_ok n steps matrix.now }
{
    (1..=MOST_COORDINATES).contains(&n)
        && (1..=MOST_STEPS).contains(&steps)
        && stepping::matrix_ok(n, matrix)
}

// Each of the six entries of direction k is zero.
fn all_zero(entries: &[i32; 96], k: usize) -> bool
    requires { k < 16 }
    ensures { result ≡ all_zero entries.now k }
{
    (0..6).all(|i| entries[6 * k + i] == 0)
}

// Limits 5, 6 and 9. 1 to 16 directions, each entry from -1,000 to 1,000, none of them zero, zero beyond n and beyond the count.
pub fn directions_ok(n: usize, count: usize, entries: &[i32; 96]) -> bool
    ensures { result ≡ directions_ok n count entries.now }
{
    (1..=MOST_DIRECTIONS).contains(&count)
        && arrays::zero_outside(count, n, entries)
        && arrays::all_between(LEAST_DIRECTION, DIRECTION_LIMIT, entries)
        && (0..count).all(|k| !all_zero(entries, k))
}

// A guard below the count is on a direction; one beyond it is zero.
fn guard_ok(directions: usize, guards: usize, g: usize, watched: usize, level: i64) -> bool
    ensures { result ≡ guard_ok directions guards g watched level }
{
    if g < guards {
        watched < directions
    } else {
        watched == 0 && level == 0
    }
}

// Limits 7 and 9. 0 to 16 guards, each on a direction, zero beyond the count.
pub fn guards_ok(
    directions: usize,
    guards: usize,
    watched: &[usize; 16],
    levels: &[i64; 16],
) -> bool
    ensures { result ≡ guards_ok directions guards watched.now levels.now }
{
    guards <= MOST_GUARDS
        && (0..MOST_GUARDS).all(|g| guard_ok(directions, guards, g, watched[g], levels[g]))
}

// Refusals 11. A direction r for a set: no value beyond n, and no magnitude above 1,073,741,824.
pub fn direction_ok(n: usize, r: &[i64; 6]) -> bool
    ensures { result ≡ direction_ok n r.now }
{
    r.iter().enumerate().all(|(i, x)| value_ok(n, i, *x))
}

// One value of r: at most 1,073,741,824 in magnitude, and zero from n on.
fn value_ok(n: usize, i: usize, x: i64) -> bool
    ensures { result ≡ value_ok n i x }
{
    x.unsigned_abs() <= GROWTH_LIMIT && (i < n || x == 0)
}

// Limits 8. The corners of a box: n is at most 6, and in each of the n coordinates the first point is not above the second.
pub fn corners_ordered(n: usize, points: &[i32; 96]) -> bool
    ensures { result ≡ corners_ordered n points.now }
{
    n <= MOST_COORDINATES && (0..n).all(|i| points[i] <= points[6 + i])
}
