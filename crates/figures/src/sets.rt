// The three sets: support and reach through the public routines.
use crate::walks::six_of;
use cells::output::{answer, natural, number, pair};
use cells::{count, entry};
use reachability::sets::{Set, Shape};
use std::io;

fn shape_of(number: usize) -> Shape {
    match number {
        0 => Shape::Box,
        1 => Shape::Zonotope,
        _ => Shape::Vertices,
    }
}

// The first two coordinates of the first three points.
fn points_of(cells: &[i64; 258], section: u8) -> [i32; 96] {
    let mut points = [0i32; 96];
    for k in 0..6u8 {
        points[usize::from(k / 2 * 6 + k % 2)] = entry(cells, section % 128 + 3 + k);
    }
    points
}

// The set of a section that starts at a cell below 128: shape, count and points.
pub fn set_of(cells: &[i64; 258], section: u8) -> Set {
    Set {
        shape: shape_of(count(cells, section % 128 + 1)),
        count: count(cells, section % 128 + 2),
        points: points_of(cells, section),
    }
}

// The number and the support.
pub fn support(rt: &impl Print, cells: &[i64; 258]) -> io::Result<()> {
    let r = six_of(cells, 0x21);
    match reachability::sets::support(count(cells, 0x02), set_of(cells, 0x30), &r) {
        Some(v) => {
            natural(rt, 0)?;
            number(rt, v)
        }
        None => answer(rt, 11, 0),
    }
}

// The number, and the reach in the first two coordinates.
pub fn reach(rt: &impl Print, cells: &[i64; 258]) -> io::Result<()> {
    let found = reachability::sets::reach(count(cells, 0x02), set_of(cells, 0x30));
    let (number, reaches) = match found {
        Some(reaches) => (0, reaches),
        None => (11, [0; 6]),
    };
    natural(rt, number)?;
    pair(rt, reaches)
}
