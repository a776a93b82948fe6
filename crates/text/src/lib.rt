// Text in a lent buffer (Routines 17). Each function writes from index `at` on and answers the index behind what it wrote. Where
// there might be too few bytes from `at` on, it writes nothing and answers `at`.
//
// No public function has a `requires`.
#![tactic(auto)]

mod output;

ghost use Rattle.std.specs.Prelude.{◌≡◌, ◌+◌, length};
ghost use Rattle.text.specs.Text.{decimal, signed_decimal, line};
ghost use Rattle.text.specs.Put.{Puts, ToldFull};

pub use output::Output;

// Routines 17. The room that a number asks for, a signed one, and a line beside its two words.
pub const NUMBER_ROOM: usize = 20;

pub const SIGNED_ROOM: usize = NUMBER_ROOM + 1;

pub const LINE_ROOM: usize = 2 * NUMBER_ROOM + 1;

// Fewer than `room` bytes are left from `at` on.
fn full(size: usize, at: usize, room: usize) -> bool
    ensures { ToldFull size at room result }
{
    size.checked_sub(at).is_none_or(|left| left < room)
}

// Routines 17. The bytes of a word, where there is room for them.
// Kept: a buffer and an index, here and below, since Routines 17 has them so; `Output` is both in one.
pub fn put(out: &mut [u8], at: usize, word: &[u8]) -> usize
    ensures { Puts (length word.now) at word.now out.old out.new result }
{
    if full(out.len(), at, word.len()) {
        return at;
    }
    // Kept: a loop and no `copy_from_slice`, which would make the archive of the C interface need memmove.
    for (i, byte) in word.iter().enumerate() {
        out[at + i] = *byte;
    }
    at + word.len()
}

// How many decimal digits n has.
fn places(n: u64) -> usize
    ensures { result ≡ length (decimal n) }
{
    n.checked_ilog10().unwrap_or(0) as usize + 1
}

// Routines 17. n in decimal, from its last digit to its first, where there is room for twenty digits.
pub fn put_decimal(out: &mut [u8], at: usize, n: u64) -> usize
    ensures { Puts 20 at (decimal n) out.old out.new result }
{
    if full(out.len(), at, NUMBER_ROOM) {
        return at;
    }
    let end = at + places(n);
    let mut rest = n;
    for i in (at..end).rev() {
        out[i] = b'0' + (rest % 10) as u8;
        rest /= 10;
    }
    end
}

// Routines 17. x in decimal, with a minus sign below 0, where there is room for a sign and twenty digits.
pub fn put_signed(out: &mut [u8], at: usize, x: i64) -> usize
    ensures { Puts 21 at (signed_decimal x) out.old out.new result }
{
    if full(out.len(), at, SIGNED_ROOM) {
        return at;
    }
    let start = if x < 0 { put(out, at, b"-") } else { at };
    put_decimal(out, start, x.unsigned_abs())
}

// Routines 17. A line of two words with a number behind each, where there is room for twenty digits of each number.
pub fn put_line(out: &mut [u8], at: usize, first: &[u8], a: u64, second: &[u8], b: u64) -> usize
    ensures { Puts (length first.now + 20 + length second.now + 20 + 1) at (line first.now a second.now b) out.old out.new result }
{
    let words = first.len() + second.len();
    if full(out.len(), at, words.saturating_add(LINE_ROOM)) {
        return at;
    }
    let end = put(out, at, first);
    let end = put_decimal(out, end, a);
    let end = put(out, end, second);
    let end = put_decimal(out, end, b);
    put(out, end, b"\n")
}
