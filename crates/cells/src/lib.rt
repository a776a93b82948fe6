// The numbers of a row. A row has words between spaces: a name, numbers, and bars that part it into sections. A number's cell
// has the section in its high hexadecimal digit and the place in the low one; a bar stands at place 0 of the section that it
// opens. Numbers are decimal, and one that is missing is 0.
//
// This serves the test program `figures` alone. No function has a `requires`; most promise only that they return, and what they do is
// held to the program's file `stdout`. No promise could say what is written.
#![tactic(auto)]

pub mod output;

// The byte at a place of the row, 0 beyond its end.
pub fn letter(row: &[u8], k: usize) -> u8 {
    row.get(k).copied().unwrap_or(0)
}

// The cell of the byte `b`, where the byte `before` it is of cell `at`.
fn cell_after(at: u8, before: u8, b: u8) -> u8 {
    if before != b' ' {
        return at;
    }
    match b {
        b' ' => at,
        b'|' => 16 * ((at / 16 + 1) % 16),
        _ => at % 255 + 1,
    }
}

// The number that a digit makes of those before it. Any other byte leaves it as it is.
fn with_digit(size: u64, b: u8) -> u64 {
    match b {
        b'0'..=b'9' => 10 * (size % 1000000000000000000) + u64::from(b - b'0'),
        _ => size,
    }
}

fn signed(negative: bool, size: u64) -> i64 {
    if size == 0 {
        return 0;
    }
    if negative {
        -1 - (((size - 1) % 0x8000_0000_0000_0000) as i64)
    } else {
        (size % 0x8000_0000_0000_0000) as i64
    }
}

// Puts each number of a row into its cell.
pub fn read(row: &[u8], cells: &mut [i64; 258]) {
    let mut at: u8 = 0;
    let mut size: u64 = 0;
    let mut negative = false;
    let mut before = b' ';
    for &b in row {
        let next = cell_after(at, before, b);
        if next != at {
            size = 0;
            negative = false;
        }
        at = next;
        size = with_digit(size, b);
        negative |= b == b'-';
        cells[usize::from(at)] = signed(negative, size);
        before = b;
    }
}

// A cell as a number of 32 bits, 0 where it does not fit.
pub fn entry(cells: &[i64; 258], cell: u8) -> i32 {
    i32::try_from(cells[usize::from(cell)]).unwrap_or(0)
}

// A cell without its sign.
pub fn count(cells: &[i64; 258], cell: u8) -> usize {
    cells[usize::from(cell)].unsigned_abs() as usize
}
