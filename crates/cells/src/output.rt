// Writing to standard output. Each function answers with the error of the first write that fails.
use std::io;

// A space and a natural number.
pub fn natural(rt: &impl Print, x: u64) -> io::Result<()> {
    print!(rt; " {x}")
}

pub fn number(rt: &impl Print, x: i64) -> io::Result<()> {
    print!(rt; " {x}")
}

// The numbers of a list, or the first `most`.
pub fn list(rt: &impl Print, xs: &[i64], most: usize) -> io::Result<()> {
    for x in xs.iter().take(most) {
        number(rt, *x)?;
    }
    Ok(())
}

// The first two numbers of six.
pub fn pair(rt: &impl Print, xs: [i64; 6]) -> io::Result<()> {
    number(rt, xs[0])?;
    number(rt, xs[1])
}

// A number and a figure.
pub fn answer(rt: &impl Print, number: u64, figure: u64) -> io::Result<()> {
    natural(rt, number)?;
    natural(rt, figure)
}

pub fn end(rt: &impl Print) -> io::Result<()> {
    println!(rt)
}
