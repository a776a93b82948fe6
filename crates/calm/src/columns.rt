// The columns of a matrix of n by n in six rows of six. Loops run to n, as the definitions do.
ghost use Rattle.std.specs.Prelude.{◌≡◌, ◌≤◌, ◌<◌, pos};
ghost use Rattle.integers.specs.Sums.{matrix as matrix_of};
ghost use Rattle.calm.specs.Calm.{column_total, calm_matrix};

use stepping::MATRIX_UNIT;

// Calm 1. What a column may sum to.
const COLUMN_LIMIT: i64 = MATRIX_UNIT as i64;

// The sum of the magnitudes in column i.
fn column_total(n: usize, matrix: &[i32; 36], i: usize) -> i64
    requires { (n ≤ 6) × (i < n) }
    ensures { result ≡ pos (column_total n (matrix_of matrix.now) i) }
{
    let mut sum = 0;
    for p in 0..n {
        let entry = matrix[6 * p + i];
        let size = entry.unsigned_abs();
        sum += i64::from(size);
    }
    sum
}

// Calm 1. In each of the n columns the magnitudes sum to at most 65,536.
pub(crate) fn all_calm(n: usize, matrix: &[i32; 36]) -> bool
    requires { n ≤ 6 }
    ensures { result ≡ calm_matrix n (matrix_of matrix.now) }
{
    for i in 0..n {
        if COLUMN_LIMIT < column_total(n, matrix, i) {
            return false;
        }
    }
    true
}
