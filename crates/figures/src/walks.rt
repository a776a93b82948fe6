// The stepping arithmetic: working directions step by step, growth, spare, and the refusals of `step`.
use cells::output::{answer, natural, number, pair};
use cells::{count, entry};
use std::io;
use stepping::GROWTH_LIMIT;

// The matrix of a row: the first two entries of its first two rows.
pub fn matrix_of(cells: &[i64; 258]) -> [i32; 36] {
    let mut m = [0i32; 36];
    m[0] = entry(cells, 0x11);
    m[1] = entry(cells, 0x12);
    m[6] = entry(cells, 0x13);
    m[7] = entry(cells, 0x14);
    m
}

// Six numbers, of which a row has the first two.
pub fn six_of(cells: &[i64; 258], at: u8) -> [i64; 6] {
    let at = usize::from(at);
    [cells[at], cells[at + 1], 0, 0, 0, 0]
}

// The spare figure, or the given number and figure where there is none.
fn spare_or(rt: &impl Print, most: u64, number: u64, figure: u64) -> io::Result<()> {
    match stepping::spare_bits(most) {
        Some(h) => answer(rt, 0, u64::from(h)),
        None => answer(rt, number, figure),
    }
}

pub fn spare(rt: &impl Print, cells: &[i64; 258]) -> io::Result<()> {
    spare_or(rt, cells[0x02].unsigned_abs(), 11, 0)
}

// How a walk ends: its last step, the growth sum there, and the largest growth sum of its steps.
#[derive(Clone, Copy)]
struct Ending {
    step: usize,
    sum: u64,
    most: u64,
}

// Takes r and e so many steps on, or to growth.
fn walked(
    n: usize,
    steps: usize,
    matrix: &[i32; 36],
    r: &mut [i64; 6],
    e: &mut [i64; 6],
) -> Ending {
    let mut sum = stepping::growth(n, r, e).unwrap_or(0);
    let mut most = sum;
    for k in 0..steps {
        if GROWTH_LIMIT < sum {
            return Ending { step: k, sum, most };
        }
        sum = stepping::step(n, matrix, r, e).unwrap_or(0);
        most = most.max(sum);
    }
    Ending {
        step: steps,
        sum,
        most,
    }
}

fn direction_of(cells: &[i64; 258]) -> [i32; 6] {
    [entry(cells, 0x21), entry(cells, 0x22), 0, 0, 0, 0]
}

// The steps 0 to K from a row's direction, or to growth: r and e at the last.
fn walk_of(cells: &[i64; 258], r: &mut [i64; 6], e: &mut [i64; 6]) -> Ending {
    let direction = direction_of(cells);
    stepping::first(&direction, r, e);
    let matrix = matrix_of(cells);
    walked(count(cells, 0x02), count(cells, 0x03), &matrix, r, e)
}

// The last step, the first two coordinates of r and of e, and the growth sum.
pub fn walk(rt: &impl Print, cells: &[i64; 258]) -> io::Result<()> {
    let mut r = [0i64; 6];
    let mut e = [0i64; 6];
    let end = walk_of(cells, &mut r, &mut e);
    natural(rt, end.step as u64)?;
    pair(rt, r)?;
    pair(rt, e)?;
    natural(rt, end.sum)
}

// The number and the spare figure, or 14 and the step of growth.
pub fn last(rt: &impl Print, cells: &[i64; 258]) -> io::Result<()> {
    let mut r = [0i64; 6];
    let mut e = [0i64; 6];
    let end = walk_of(cells, &mut r, &mut e);
    spare_or(rt, end.most, 14, end.step as u64)
}

// The number and the growth sum.
fn stepped(rt: &impl Print, a: Option<u64>) -> io::Result<()> {
    match a {
        Some(sum) => answer(rt, 0, sum),
        None => answer(rt, 11, 0),
    }
}

// One step: the answer, and what r and e hold after it.
pub fn step(rt: &impl Print, cells: &[i64; 258]) -> io::Result<()> {
    let matrix = matrix_of(cells);
    let mut r = six_of(cells, 0x21);
    let mut e = six_of(cells, 0x23);
    stepped(
        rt,
        stepping::step(count(cells, 0x02), &matrix, &mut r, &mut e),
    )?;
    pair(rt, r)?;
    number(rt, e[0])
}

pub fn growth(rt: &impl Print, cells: &[i64; 258]) -> io::Result<()> {
    let r = six_of(cells, 0x21);
    let e = six_of(cells, 0x23);
    stepped(rt, stepping::growth(count(cells, 0x02), &r, &e))
}
