// Numbers of several bytes in a slice, least significant byte first (File 2). A byte beyond the slice's end counts as 0.
//
// No public function has a `requires`: any bytes and any offset get their answer.
#![tactic(auto)]

ghost use Rattle.std.specs.Prelude.{◌≡◌, ◌+◌, ◌<◌, ℕ, get_or};
ghost use Rattle.numbers.specs.Numbers.{little_endian, signed_at};

use std::array;

// The N bytes from the offset `at` on.
fn bytes_at<const N: usize>(bytes: &[u8], at: usize) -> [u8; N]
    ensures { (i : ℕ) → i < N → get_or result i 0 ≡ get_or bytes.now (at + i) 0 }
{
    let rest = bytes.get(at..).unwrap_or(&[]);
    match rest.first_chunk() {
        Some(whole) => *whole,
        None => array::from_fn(|i| rest.get(i).copied().unwrap_or(0)),
    }
}

// Routines 13. The number of two bytes at the offset `at`.
pub fn u16_at(bytes: &[u8], at: usize) -> u16
    ensures { result ≡ little_endian 2 bytes.now at }
{
    u16::from_le_bytes(bytes_at(bytes, at))
}

// Routines 13. The number of eight bytes at the offset `at`.
pub fn u64_at(bytes: &[u8], at: usize) -> u64
    ensures { result ≡ little_endian 8 bytes.now at }
{
    u64::from_le_bytes(bytes_at(bytes, at))
}

// Routines 13. The signed number of four bytes at the offset `at`.
pub fn i32_at(bytes: &[u8], at: usize) -> i32
    ensures { result ≡ signed_at 4 bytes.now at }
{
    i32::from_le_bytes(bytes_at(bytes, at))
}

// Routines 13. The signed number of eight bytes at the offset `at`.
pub fn i64_at(bytes: &[u8], at: usize) -> i64
    ensures { result ≡ signed_at 8 bytes.now at }
{
    i64::from_le_bytes(bytes_at(bytes, at))
}
