// Matrix entries from the rows of a file, File 11 to 14 of the specification: scaled ones as they are, and fitted ones, which are
// binary64 numbers of IEEE 754, rounded to the nearest entry. A scaled one beyond Limits 3 is refused by 5, a fitted one that is not
// finite or above 2 in magnitude by 15. `rows` has the six of a row.
//
// No public function has a `requires`.
#![tactic(auto)]

pub mod rows;

ghost use Rattle.std.specs.Prelude.{◌≡◌, from_bits, to_bits};
ghost use Rattle.std.specs.Float.{binary64};
ghost use Rattle.coefficients.specs.Entries.{entry_of_bits, scaled_entry, entry_of};
ghost use Rattle.coefficients.specs.Inner.{magnitude_entry, InRange};

use stepping::{ENTRY_LIMIT, MATRIX_UNIT};

// Refusals 15. The largest magnitude of a fitted entry.
pub const FITTED_LIMIT: f64 = 2.0;

// File 11. The bits of infinity. With the sign taken off, those of every NaN are above.
const INFINITY_BITS: u64 = 0x7ff0_0000_0000_0000;

// File 12. How many halves of a stored entry make 1.
const HALVES: f64 = (2 * MATRIX_UNIT) as f64;

// Forms 9. An entry as its row has it: counted in 1 / 65,536, or a binary64 number.
#[derive(Clone, Copy, Debug, PartialEq)]
pub enum Coefficient {
    Scaled(i32),
    Fitted(f64),
}

// Why a row is refused by one of its entries: by 5, a scaled one beyond Limits 3, or by 15, a fitted one that becomes no entry.
#[derive(Clone, Copy, Debug, PartialEq, Eq)]
pub enum EntryRefusal {
    Scaled,
    Fitted,
}

// Routines 18. The binary64 number of 64 bits; the one NaN for every pattern of a NaN.
pub fn value_of(bits: u64) -> f64
    ensures { result ≡ from_bits binary64 bits }
{
    if INFINITY_BITS < bits % 0x8000_0000_0000_0000 {
        f64::NAN
    } else {
        f64::from_bits(bits)
    }
}

// File 12. The whole number nearest to 65,536 times x, a tie to the even one.
fn rounded(x: f64) -> i32
    requires { InRange x }
    ensures { result ≡ magnitude_entry x }
{
    // Forms 10: twice 65,536 times x, which a product with a power of two gives exactly, so its whole part counts halves.
    let scaled = x * HALVES;
    let halves = std::num::truncating_f64_to_u64(scaled);
    let whole = halves / 2;
    if halves % 2 == 0 {
        return whole as i32;
    }
    if (halves as f64) < scaled {
        return (whole + 1) as i32;
    }
    (whole + whole % 2) as i32
}

// An entry within Limits 3, or number 5.
fn scaled_entry(entry: i32) -> Result<i32, EntryRefusal>
    ensures { result ≡ scaled_entry entry }
{
    if (-ENTRY_LIMIT..=ENTRY_LIMIT).contains(&entry) {
        Ok(entry)
    } else {
        Err(EntryRefusal::Scaled)
    }
}

// The entry of a binary64 number, or number 15.
fn fitted_entry(x: f64) -> Result<i32, EntryRefusal>
    ensures { result ≡ entry_of_bits (to_bits binary64 x) }
{
    let magnitude = x.abs();
    let negative = x < 0.0;
    if magnitude <= FITTED_LIMIT {
        let entry = rounded(magnitude);
        Ok(if negative { -entry } else { entry })
    } else {
        Err(EntryRefusal::Fitted)
    }
}

// Routines 18. The stored entry of a scaled or a fitted one, or why its row is refused.
#[inline(never)]
pub fn entry_of(coefficient: Coefficient) -> Result<i32, EntryRefusal>
    ensures { result ≡ entry_of coefficient }
{
    match coefficient {
        Coefficient::Scaled(entry) => scaled_entry(entry),
        Coefficient::Fitted(value) => fitted_entry(value),
    }
}

// Routines 18. The stored entry of the 64 bits of a fitted one, or number 15.
pub fn entry_of_bits(bits: u64) -> Result<i32, EntryRefusal>
    ensures { result ≡ entry_of_bits bits }
{
    entry_of(Coefficient::Fitted(value_of(bits)))
}
