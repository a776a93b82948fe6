// The order of records (File 5, File 6): which kind may stand at which place.
ghost use Rattle.std.specs.Prelude.{◌≡◌, ◌+◌, ◌*◌, ◌↔◌, ℕ, IsTrue, Any};
ghost use Rattle.records.specs.Order.{order, may_follow};

use crate::places::{DIRECTIONS, DRIFT, GUARDS, INITIAL, INPUT, MATRIX, ROWS, START};

// The number of pairs.
const COUNT: usize = 38;

// A place, and a kind that may stand there.
static ORDER: [(u8, u8); COUNT] = [
    (START, 0x01),
    (ROWS, 0x02),
    (ROWS, 0x03),
    (MATRIX, 0x05),
    (MATRIX, 0x10),
    (MATRIX, 0x12),
    (MATRIX, 0x14),
    (DRIFT, 0x10),
    (DRIFT, 0x12),
    (DRIFT, 0x14),
    (INITIAL, 0x11),
    (INITIAL + 1, 0x20),
    (INITIAL + 1, 0x22),
    (INITIAL + 1, 0x24),
    (INITIAL + 1, 0x30),
    (INITIAL + 2, 0x13),
    (INITIAL + 3, 0x13),
    (INITIAL + 3, 0x20),
    (INITIAL + 3, 0x22),
    (INITIAL + 3, 0x24),
    (INITIAL + 3, 0x30),
    (INITIAL + 4, 0x14),
    (INITIAL + 4, 0x20),
    (INITIAL + 4, 0x22),
    (INITIAL + 4, 0x24),
    (INITIAL + 4, 0x30),
    (INPUT, 0x21),
    (INPUT + 1, 0x30),
    (INPUT + 2, 0x23),
    (INPUT + 3, 0x23),
    (INPUT + 3, 0x30),
    (INPUT + 4, 0x24),
    (INPUT + 4, 0x30),
    (DIRECTIONS, 0x30),
    (DIRECTIONS, 0x40),
    (DIRECTIONS, 0xFF),
    (GUARDS, 0x40),
    (GUARDS, 0xFF),
];

// The table. It is lent by a function of its own, so that its numbers stand in no other proof.
fn table() -> &'static [(u8, u8); COUNT]
    ensures { result.now ≡ order }
{
    &ORDER
}

// One of these pairs is of the place and the kind.
// Kept: one comparison of numbers and no `contains`, which compares both parts and takes twice the instructions.
fn is_listed(pairs: &[(u8, u8)], place: u8, kind: u8) -> bool
    ensures { IsTrue result ↔ Any (λ (p : ℕ × ℕ). 256 * p.0 + p.1 ≡ 256 * place + kind) pairs.now }
{
    let sought = 256 * u16::from(place) + u16::from(kind);
    pairs.iter().any(|&(at, next)| 256 * u16::from(at) + u16::from(next) == sought)
}

// Routines 13. The kind may stand at the place, by a search of the table.
pub fn may_follow(place: u8, kind: u8) -> bool
    ensures { result ≡ may_follow place kind }
{
    is_listed(table(), place, kind)
}
