// The stepping arithmetic, Recurrence 1 to 8: the first working direction of a direction, one step of it with its errors, the growth
// sum, the spare figure and the rounding of a step; and the test of a matrix. It stands alone (Forms 6).
//
// No public function has a `requires`. A working direction is six numbers r in units of 1/1,048,576 with six errors e in half units.
// What lies beyond the n coordinates is zero. A refusal, `None`, is number 11, and leaves r and e as they were.
#![tactic(auto)]

mod column;
mod refusals;
pub mod rounding;

ghost use Rattle.std.specs.Prelude.{◌≡◌, pos, ◌*ℤ◌};
ghost use Rattle.stepping.specs.Limits.{direction_unit};
ghost use Rattle.stepping.specs.Refusals.{First, Grows, matrix_ok, Steps, Spares};

// The specification's numbers for the stepping arithmetic, each once.

// Limits 1. The most coordinates.
pub const MOST_COORDINATES: usize = 6;

// Model 3. How many units of a stored matrix entry make 1.
pub const MATRIX_UNIT: u32 = 65536;

// Limits 3. The largest magnitude of a stored matrix entry.
pub const ENTRY_LIMIT: i32 = 131072;

// Recurrence 1. How many units of a working direction make 1.
pub const DIRECTION_UNIT: u32 = 1048576;

// Recurrence 7. A growth sum above this is growth.
pub const GROWTH_LIMIT: u64 = 1073741824;

// An entry of a direction in units of a working direction.
fn scaled(d: i32) -> i64
    ensures { result ≡ pos direction_unit *ℤ d }
{
    i64::from(DIRECTION_UNIT) * i64::from(d)
}

// Kept: r and e beside each other, here and below, since C lends them so (C interface 2).

// Routines 7. The first working direction of `direction`: r(0) and e(0).
pub fn first(direction: &[i32; 6], r: &mut [i64; 6], e: &mut [i64; 6])
    ensures { First direction.now r.new e.new }
{
    *r = direction.map(scaled);
    *e = [0; 6];
}

// Routines 9. The growth sum of r and e: the largest of |r[i]| + half of e[i], each half rounded up. Refusals 11: n is not 1 to 6, a
// value beyond n is not zero, an e is negative, or the sum passes 1,073,741,824.
pub fn growth(n: usize, r: &[i64; 6], e: &[i64; 6]) -> Option<u64>
    ensures { Grows n r.now e.now result }
{
    if !(1..=MOST_COORDINATES).contains(&n)
        || !refusals::zero_beyond(n, r)
        || !refusals::zero_beyond(n, e)
    {
        return None;
    }
    let sum = refusals::largest_sum(r, e)?;
    (sum <= GROWTH_LIMIT).then_some(sum)
}

// Routines 6. Each entry of the n by n matrix is within its limit, and the others are zero. At n = 6 there are no others.
pub fn matrix_ok(n: usize, matrix: &[i32; 36]) -> bool
    ensures { result ≡ matrix_ok n matrix.now }
{
    arrays::all_between(-ENTRY_LIMIT, ENTRY_LIMIT, matrix)
        && (MOST_COORDINATES <= n || refusals::zero_around(n, matrix))
}

// Routines 8. One step: r and e of the next step by the transpose of the matrix, and the growth sum of what it left, whatever it is.
// Refusals 11, with r and e as they were, where `growth` refuses r and e, or for a matrix entry beyond its limit or a nonzero one
// beyond n.
pub fn step(n: usize, matrix: &[i32; 36], r: &mut [i64; 6], e: &mut [i64; 6]) -> Option<u64>
    ensures { Steps n matrix.now r.old e.old result r.new e.new }
{
    growth(n, r, e)?;
    if !matrix_ok(n, matrix) {
        return None;
    }
    Some(column::advance(matrix, r, e))
}

// Routines 9. The spare figure of a largest sum from 1 to 1,073,741,824; number 11 for any other.
pub fn spare_bits(largest: u64) -> Option<u32>
    ensures { Spares largest result }
{
    if !(1..=GROWTH_LIMIT).contains(&largest) {
        return None;
    }
    Some(((largest - 1) as u32).leading_zeros() - 2)
}
