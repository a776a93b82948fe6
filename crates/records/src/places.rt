// The places of a file, in its order (File 5): how far its records have come. A place is a rank, and every place behind a part has a
// higher rank than those of the part.
// Kept: numbers and no enum, since places are ranks counted from 0 and `may_follow` takes any number (Routines 13).
pub const START: u8 = 0;

// Behind the head, until row n - 1 is in.
pub const ROWS: u8 = 1;

// Behind row n - 1.
pub const MATRIX: u8 = 2;

pub const DRIFT: u8 = 3;

// Behind the lower corner of the initial set; the next four are those behind its upper corner, centre, generator and vertex.
pub const INITIAL: u8 = 4;

// The same of the input set.
pub const INPUT: u8 = 9;

pub const DIRECTIONS: u8 = 14;

pub const GUARDS: u8 = 15;

pub const END: u8 = 16;
