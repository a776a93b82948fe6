// One coordinate of a step, and all six.
ghost use Rattle.std.specs.Prelude.{◌≡◌, ◌<◌};
ghost use Rattle.integers.specs.Sums.{vector, magnitudes, transposed, matrix as matrix_of};
ghost use Rattle.stepping.specs.Limits.{growth_limit};
ghost use Rattle.stepping.specs.Recurrence.{error_sum};
ghost use Rattle.stepping.specs.Inner.{Bounded, BoundedErrors, Advances, Advanced};

use crate::MATRIX_UNIT;
use std::array;

// Recurrence 5. The unit of the matrix for sums of errors, and half of it for N.
const UNIT: u64 = MATRIX_UNIT as u64;

const HALF_UNIT: i64 = (MATRIX_UNIT / 2) as i64;

// Recurrence 3. N of column i.
// Kept: facts of r, e and i, here and below, and no types of them, since C lends r and e as arrays (C interface 2).
pub(crate) fn product_sum(matrix: &[i32; 36], r: &[i64; 6], i: usize) -> i64
    requires { (i < 6) × Bounded growth_limit matrix.now r.now }
    ensures { result ≡ transposed 6 (matrix_of matrix.now) (vector r.now) i }
{
    let mut sum = 0;
    for p in 0..6 {
        sum += i64::from(matrix[6 * p + i]) * r[p];
    }
    sum
}

// Recurrence 5. The errors by the magnitudes of column i, before they are divided.
pub(crate) fn error_sum(matrix: &[i32; 36], e: &[i64; 6], i: usize) -> u64
    requires { (i < 6) × BoundedErrors matrix.now e.now }
    ensures { result ≡ error_sum 6 (matrix_of matrix.now) (magnitudes e.now) i }
{
    let mut sum = 0;
    for p in 0..6 {
        sum += u64::from(matrix[6 * p + i].unsigned_abs()) * (e[p] as u64);
    }
    sum
}

// The next r and e of a column, and their sum in half units.
#[derive(Clone, Copy)]
struct Column {
    r: i64,
    e: i64,
    halves: u64,
}

// Recurrence 4 and 5. N over 65,536 to the nearest, a half going up; and the errors over 65,536, rounded up, with 1 more for an N
// that was rounded.
fn column_of(matrix: &[i32; 36], r: &[i64; 6], e: &[i64; 6], i: usize) -> Column
    requires { (i < 6) × Bounded growth_limit matrix.now r.now × BoundedErrors matrix.now e.now }
    ensures { Advances matrix.now r.now e.now i result.r result.e result.halves }
{
    let product = product_sum(matrix, r, i);
    let errors = error_sum(matrix, e, i);
    let nearest = (product + HALF_UNIT) >> 16;
    // Kept: (b) `div_ceil` takes more instructions.
    let up = (errors + (UNIT - 1)) / UNIT + arrays::fraction(product, MATRIX_UNIT);
    Column {
        r: nearest,
        e: up as i64,
        halves: 2 * nearest.unsigned_abs() + up,
    }
}

// r and e one step on, in place, and their growth sum: the largest sum in half units, halved once. All six columns come first, since
// each of them reads the r and e of before.
pub(crate) fn advance(matrix: &[i32; 36], r: &mut [i64; 6], e: &mut [i64; 6]) -> u64
    requires { Bounded growth_limit matrix.now r.old × BoundedErrors matrix.now e.old }
    ensures { Advanced matrix.now r.old e.old r.new e.new result }
{
    let columns: [Column; 6] = array::from_fn(|i| column_of(matrix, r, e, i));
    *r = columns.map(|c| c.r);
    *e = columns.map(|c| c.e);
    let most = columns.iter().fold(0, |most, c| most.max(c.halves));
    // Kept: (b) `most.div_ceil(2)` takes more instructions.
    (most + 1) / 2
}
