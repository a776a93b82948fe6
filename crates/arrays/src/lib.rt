// Code over stored whole numbers that several crates share (Routines 16): tests over every element of an array, and rows
// and columns of rows of six.
// No public function has a `requires`.
#![tactic(auto)]

ghost use Rattle.std.specs.Prelude.{◌≡◌, ◌≤◌, ◌<◌, nat_abs};
ghost use Rattle.integers.specs.Whole.{fraction as fraction_of};
ghost use Rattle.integers.specs.Sums.{matrix};
ghost use Rattle.arrays.specs.Tests.{between, all_between, zero_outside};
ghost use Rattle.arrays.specs.Rows.{row_of, column_sum, column_most};

use std::array;

// Routines 16, for Recurrence 5 and 14. 1 where x isn't a multiple of `unit`, else 0. Only 0 is a multiple of 0.
pub fn fraction(x: i64, unit: u32) -> u64
    ensures { result ≡ fraction_of x unit }
{
    let rest = if unit == 0 { x } else { x % i64::from(unit) };
    u64::from(rest != 0)
}

// x is from low to high.
fn is_between(low: i32, high: i32, x: i32) -> bool
    ensures { result ≡ between low high x }
{
    low <= x && x <= high
}

// Routines 16, for Limits 3 and 5. Each element is from low to high. The loop has no early return, so that it compiles to vector
// compares.
pub fn all_between(low: i32, high: i32, xs: &[i32]) -> bool
    ensures { result ≡ all_between low high xs.now }
{
    let mut ok = true;
    for x in xs {
        ok &= is_between(low, high, *x);
    }
    ok
}

// Routines 16, for Limits 9. Of rows of six, each element outside the first `rows` rows and the first `columns` columns is zero. The
// rows outside are tested by themselves, so that their test compiles to vector compares.
// Kept: `&` and not `&&`, since with it there is one answer to prove.
pub fn zero_outside(rows: usize, columns: usize, xs: &[i32]) -> bool
    ensures { result ≡ zero_outside rows columns xs.now }
{
    let inside = rows.saturating_mul(6).min(xs.len());
    let columns_zero = xs[..inside]
        .iter()
        .enumerate()
        .all(|(k, x)| *x == 0 || k % 6 < columns);
    let rows_zero = all_between(0, 0, &xs[inside..]);
    columns_zero & rows_zero
}

// Routines 16. Row number k of sixteen rows of six; zeros where there is no such row.
pub fn row(rows: &[i32; 96], k: usize) -> [i32; 6]
    ensures { result ≡ row_of rows.now k }
{
    if 16 <= k {
        return [0; 6];
    }
    array::from_fn(|i| rows[6 * k + i])
}

// |element i of row k|.
// Kept: bounds of two indices and no types of them, since the loops below tell both.
fn size(rows: &[i32; 96], k: usize, i: usize) -> u64
    requires { (k < 16) × (i < 6) }
    ensures { (result ≡ nat_abs (matrix rows.now k i)) × (result ≤ 2147483648) }
{
    u64::from(rows[6 * k + i].unsigned_abs())
}

// Kept: two loops, since only a sum has a bound to keep; one over a closure would ask it of both.

// Routines 16, for Sets 15. The sum of |element i| over the first `count` of sixteen rows of six; 0 where there are not so many
// rows, or no such element.
pub fn column_sum(rows: &[i32; 96], count: usize, i: usize) -> u64
    ensures { result ≡ column_sum rows.now count i }
{
    if 16 < count || 6 <= i {
        return 0;
    }
    let mut sum = 0;
    for j in 0..count {
        sum += size(rows, j, i);
    }
    sum
}

// Routines 16, for Sets 14. The largest |element i| over the first `count` of sixteen rows of six; 0 where there are not so many
// rows, or no such element.
pub fn column_most(rows: &[i32; 96], count: usize, i: usize) -> u64
    ensures { result ≡ column_most rows.now count i }
{
    if 16 < count || 6 <= i {
        return 0;
    }
    let mut most = 0;
    for k in 0..count {
        most = most.max(size(rows, k, i));
    }
    most
}
