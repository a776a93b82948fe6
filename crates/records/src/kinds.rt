// What a kind of record is: one constant table (File 3, Forms 5).
ghost use Rattle.std.specs.Prelude.{◌≡◌, ◌==◌, find, option_map};
ghost use Rattle.records.specs.Kinds.{kinds, kind_layout, layout_of};
ghost use Rattle.records.specs.Inner.{Entry, layout_in, rows_in};

use crate::kinds::Part::{Direction, Drift, End, Guard, Head, Initial, Input, Row};
use crate::kinds::Point::{Centre, Generator, Lower, Upper, Vertex};
use crate::places::{DIRECTIONS, DRIFT, END, GUARDS, INITIAL, INPUT, MATRIX, ROWS, START};

// A part of a model, as the table of File 3 has them.
#[derive(Clone, Copy, Debug, PartialEq, Eq)]
pub enum Part {
    Head,
    Row,
    Drift,
    Initial,
    Input,
    Direction,
    Guard,
    End,
}

// What a point of a set is.
#[derive(Clone, Copy, Debug, PartialEq, Eq)]
pub enum Point {
    Lower,
    Upper,
    Centre,
    Generator,
    Vertex,
}

// What a kind is: the part it belongs to, which point of a set it is, if any, the length of its body in bytes, the offset of its six entries in the
// body and the bytes of each of them (0 where it has none), the most records of its part, and the place behind it.
#[derive(Clone, Copy, Debug, PartialEq, Eq)]
pub struct Layout {
    pub part: Part,
    pub point: Option<Point>,
    pub length: usize,
    pub first: usize,
    pub width: usize,
    pub most: usize,
    pub place: u8,
}

// File 3. The bytes of a fitted entry.
pub const FITTED_WIDTH: usize = 8;

// Refusals 9. The most records of a part.
const MOST: usize = 16;

// Sets 5. The most points of a zonotope: its centre and eight generators.
const ZONAL: usize = 9;

// The number of kinds.
const COUNT: usize = 17;

// A kind, and what it is: the fields of `Layout` in their order.
type Entry = (u8, Part, Option<Point>, usize, usize, usize, usize, u8);

static KINDS: [Entry; COUNT] = [
    (0x01, Head, None, 3, 0, 0, MOST, ROWS),
    (0x02, Row, None, 25, 1, 4, MOST, MATRIX),
    (0x03, Row, None, 49, 1, 8, MOST, MATRIX),
    (0x05, Drift, None, 24, 0, 4, MOST, DRIFT),
    (0x10, Initial, Some(Lower), 24, 0, 4, MOST, INITIAL),
    (0x11, Initial, Some(Upper), 24, 0, 4, MOST, INITIAL + 1),
    (0x12, Initial, Some(Centre), 24, 0, 4, MOST, INITIAL + 2),
    (0x13, Initial, Some(Generator), 24, 0, 4, ZONAL, INITIAL + 3),
    (0x14, Initial, Some(Vertex), 24, 0, 4, MOST, INITIAL + 4),
    (0x20, Input, Some(Lower), 24, 0, 4, MOST, INPUT),
    (0x21, Input, Some(Upper), 24, 0, 4, MOST, INPUT + 1),
    (0x22, Input, Some(Centre), 24, 0, 4, MOST, INPUT + 2),
    (0x23, Input, Some(Generator), 24, 0, 4, ZONAL, INPUT + 3),
    (0x24, Input, Some(Vertex), 24, 0, 4, MOST, INPUT + 4),
    (0x30, Direction, None, 24, 0, 4, MOST, DIRECTIONS),
    (0x40, Guard, None, 9, 0, 0, MOST, GUARDS),
    (0xFF, End, None, 0, 0, 0, MOST, END),
];

// The table. It is lent by a function of its own, so that its numbers stand in no other proof.
fn table() -> &'static [Entry; COUNT]
    ensures { rows_in result.now ≡ kinds }
{
    &KINDS
}

// The first of these entries that is of the kind. Not inlined, so that `kind_layout` keeps nothing below the stack pointer (the header).
#[inline(never)]
fn layout_in(entries: &[Entry], kind: u8) -> Option<Layout>
    ensures { result ≡ option_map layout_in (find (λ (e : Entry). e.0 == kind) entries.now) }
{
    let &(_, part, point, length, first, width, most, place) = entries
        .iter()
        .find(|e| e.0 == kind)?;
    Some(Layout {
        part,
        point,
        length,
        first,
        width,
        most,
        place,
    })
}

// Routines 13. What a kind is, by a search of the table; nothing of an unknown kind.
pub fn kind_layout(kind: u8) -> Option<Layout>
    ensures { result ≡ kind_layout kind }
{
    layout_in(table(), kind)
}

// What is answered of an unknown kind.
const NO_LAYOUT: Layout = Layout {
    part: End,
    point: None,
    length: 0,
    first: 0,
    width: 0,
    most: 0,
    place: START,
};

// Routines 13. The same with a layout for every kind: an unknown kind is answered as an end with 0 in every number.
pub fn layout_of(kind: u8) -> Layout
    ensures { result ≡ layout_of kind }
{
    kind_layout(kind).unwrap_or(NO_LAYOUT)
}
