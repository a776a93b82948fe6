// The conditions of number 11, one function for each, and the growth sum.
ghost use Rattle.std.specs.Prelude.{◌≡◌, ◌<◌};
ghost use Rattle.stepping.specs.Refusals.{zero_beyond, largest_answer};
ghost use Rattle.stepping.specs.Inner.{row_zero, zero_around};

// All from n on is zero.
pub(crate) fn zero_beyond(n: usize, xs: &[i64; 6]) -> bool
    ensures { result ≡ zero_beyond n xs.now }
{
    xs.iter().skip(n).all(|x| *x == 0)
}

// The largest of |r[i]| + half of e[i], each half rounded up, or number 11 where an e is below 0.
pub(crate) fn largest_sum(r: &[i64; 6], e: &[i64; 6]) -> Option<u64>
    ensures { result ≡ largest_answer r.now e.now }
{
    let mut most = 0;
    for i in 0..6 {
        let error = u64::try_from(e[i]).ok()?;
        // Kept: (b) `error.div_ceil(2)` takes more instructions.
        most = most.max(r[i].unsigned_abs() + (error + 1) / 2);
    }
    Some(most)
}

// Row p of the matrix is zero from column `from` on.
fn row_zero(p: usize, from: usize, matrix: &[i32; 36]) -> bool
    requires { p < 6 }
    ensures { result ≡ row_zero p from matrix.now }
{
    (0..6).all(|i| i < from || matrix[6 * p + i] == 0)
}

// The entries outside the n by n matrix are zero. It looks at those alone: `arrays::zero_outside` says the same, by a test
// of every entry.
pub(crate) fn zero_around(n: usize, matrix: &[i32; 36]) -> bool
    ensures { result ≡ zero_around n matrix.now }
{
    (0..6).all(|p| row_zero(p, if p < n { n } else { 0 }, matrix))
}
