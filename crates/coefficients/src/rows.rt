// The entries of a matrix row, scaled or fitted: each of the first n as `entry_of` answers it. The first that is refused, by 5 or 15,
// refuses the row.
ghost use Rattle.std.specs.Prelude.{◌≡◌};
ghost use Rattle.coefficients.specs.Rows.{entries_of, mixed_row, scaled_row, fitted_row};

use crate::{Coefficient, EntryRefusal, entry_of};

// Forms 11. A fitted row as its record has it.
#[derive(Clone, Copy, Debug, PartialEq)]
pub struct FittedRow {
    pub number: usize,
    pub values: [f64; 6],
}

// Routines 18. A row that is refused: why its first refused entry is refused, and the six stored entries, zero for a refused one and
// beyond n.
#[derive(Clone, Copy, Debug, PartialEq, Eq)]
pub struct RefusedRow {
    pub refusal: EntryRefusal,
    pub six: [i32; 6],
}

// Routines 18. The first n entries of a row, one by one, and zeros beyond n, or the row as it is refused.
pub fn entries_of(n: usize, coefficients: [Coefficient; 6]) -> Result<[i32; 6], RefusedRow>
    ensures { result ≡ entries_of n (mixed_row coefficients) }
{
    let mut first = None;
    let mut six = [0; 6];
    for i in 0..n.min(6) {
        let answer = entry_of(coefficients[i]);
        first = first.or(answer.err());
        six[i] = answer.unwrap_or(0);
    }
    match first {
        None => Ok(six),
        Some(refusal) => Err(RefusedRow { refusal, six }),
    }
}

// Routines 18. The entries of a scaled row.
pub fn scaled_entries(n: usize, six: [i32; 6]) -> Result<[i32; 6], RefusedRow>
    ensures { result ≡ entries_of n (scaled_row six) }
{
    entries_of(n, six.map(Coefficient::Scaled))
}

// Routines 18. The entries of a fitted row.
pub fn fitted_entries(n: usize, held: FittedRow) -> Result<[i32; 6], RefusedRow>
    ensures { result ≡ entries_of n (fitted_row held.values) }
{
    entries_of(n, held.values.map(Coefficient::Fitted))
}
