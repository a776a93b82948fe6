// The numbers of a body: the byte that it starts with, and its six columns (File 3), as entries or as the values of a fitted row; and
// whether the entries beyond n are zero (File 7), of whatever record has entries. Where one is not, the record is refused by 16. No
// binary64 number is compared: a zero is told by its bits.
//
// No public function has a `requires`: any n, offset, layout and bytes get their answer. Bytes beyond the end of a body count as 0.
#![tactic(auto)]

ghost use Rattle.std.specs.Prelude.{◌≡◌, ◌<◌, drop};
ghost use Rattle.coefficients.specs.Binary64.{is_zero};
ghost use Rattle.columns.specs.Columns.{first_byte, entry_at, bits_at, six_at, held_row, column_zero, unused_zero};

use coefficients::rows::FittedRow;
use records::kinds::{FITTED_WIDTH, Layout};
use std::array;

// Routines 21. The byte that a body starts with.
pub fn first_byte(body: &[u8]) -> usize
    ensures { result ≡ first_byte body.now }
{
    usize::from(body.first().copied().unwrap_or(0))
}

// The bytes of a body from the offset `at` on: none beyond its end.
fn part_from(body: &[u8], at: usize) -> &[u8]
    ensures { result.now ≡ drop at body.now }
{
    body.get(at..).unwrap_or(&[])
}

// Entry i of six at the offset `at` of a body.
fn entry_at(body: &[u8], at: usize, i: usize) -> i32
    requires { i < 6 }
    ensures { result ≡ entry_at body.now at i }
{
    numbers::i32_at(part_from(body, at), 4 * i)
}

// Routines 21. The six entries at the offset `at` of a body.
pub fn six_at(body: &[u8], at: usize) -> [i32; 6]
    ensures { result ≡ six_at body.now at }
{
    array::from_fn(|i| entry_at(body, at, i))
}

// The bits of fitted entry i of six at the offset `at` of a body.
// Kept: two calls of one line; one function for both types would take the reading, the width and a contract over both as well.
fn bits_at(body: &[u8], at: usize, i: usize) -> u64
    requires { i < 6 }
    ensures { result ≡ bits_at body.now at i }
{
    numbers::u64_at(part_from(body, at), FITTED_WIDTH * i)
}

// Routines 21, Forms 11. The fitted row of a body, with its entries at the offset `at`.
pub fn fitted_row(body: &[u8], at: usize) -> FittedRow
    ensures { result ≡ held_row body.now at }
{
    FittedRow {
        number: first_byte(body),
        values: array::from_fn(|i| coefficients::value_of(bits_at(body, at, i))),
    }
}

// File 11. The bits are those of a zero, of either sign: none but the sign is set.
fn is_zero(bits: u64) -> bool
    ensures { result ≡ is_zero bits }
{
    bits % 0x8000_0000_0000_0000 == 0
}

// Entry i of a body of this layout is zero. A fitted one has either zero.
fn column_zero(layout: &Layout, body: &[u8], i: usize) -> bool
    requires { i < 6 }
    ensures { result ≡ column_zero layout.now.first layout.now.width body.now i }
{
    if layout.width == FITTED_WIDTH {
        is_zero(bits_at(body, layout.first, i))
    } else {
        entry_at(body, layout.first, i) == 0
    }
}

// Routines 19. The entries beyond the first n of a body of this layout are zero, or it has no entries.
pub fn unused_zero(n: usize, layout: Layout, body: &[u8]) -> bool
    ensures { result ≡ unused_zero n layout body.now }
{
    if layout.width == 0 {
        return true;
    }
    for i in n..6 {
        if !column_zero(&layout, body, i) {
            return false;
        }
    }
    true
}
