// Runs the cases of Figures 1 to 12, 16 to 22, 24 to 27 and 30 to 32, and some that the specification doesn't list, and writes what
// comes out.
// Each row of the file `args` is an argument: a case, a heading or a comment, with a note on how they are written. The file
// `stdout` has what should come out, worked out by hand: the specification tells some of it, and the rest follows from its
// recurrence. The r and e of walks of ten steps and more are the exact program's.
#![tactic(auto)]

mod sets;
mod sweeps;
mod walks;

use cells::{letter, output};
use std::{env, io};

// Runs the routine that a row names, by its first two letters. A row of -1 tells that there is none.
// Kept: a match, since a table of routines would have to be searched and says no more.
fn ask(rt: &impl Print, first: u8, second: u8, cells: &[i64; 258]) -> io::Result<()> {
    match first {
        b'w' => walks::walk(rt, cells),
        b'l' => walks::last(rt, cells),
        b'g' => walks::growth(rt, cells),
        b'r' => sets::reach(rt, cells),
        b'j' | b'v' => sweeps::run(rt, first, cells),
        b's' => match second {
            b't' => walks::step(rt, cells),
            b'p' => walks::spare(rt, cells),
            b'u' => sets::support(rt, cells),
            b'w' => sweeps::run(rt, first, cells),
            _ => output::number(rt, -1),
        },
        _ => output::number(rt, -1),
    }
}

fn run(rt: &impl Print, row: &[u8]) -> io::Result<()> {
    let mut cells = [0i64; 258];
    cells::read(row, &mut cells);
    ask(rt, letter(row, 1), letter(row, 2), &cells)?;
    output::end(rt)
}

// A row that starts with # is a comment, with a space a case, and any other a heading.
fn run_argument(rt: &impl Print, row: &str) -> io::Result<()> {
    match letter(row.as_bytes(), 0) {
        b'#' => Ok(()),
        b' ' => run(rt, row.as_bytes()),
        _ => println!(rt; "{row}"),
    }
}

fn main(rt: HostRuntime) -> io::Result<()> {
    for row in env::args(&rt)?.skip(1) {
        run_argument(&rt, row.as_str())?;
    }
    Ok(())
}
