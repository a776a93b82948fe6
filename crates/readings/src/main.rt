// Reads each file that an argument names and writes what the reader answers: the name, then `refused N at P` with number and
// offset, or `model n K`. The files are in the folder `data`, and the file `stdout` has what should come out; both are made by
// tools/readerfiles.py.
#![tactic(auto)]

use reachability::model::Model;
use reader::Refused;
use std::fs::File;
use std::io::Read;
use std::rt::Files;
use std::{env, io};
use streams::{read_full, tell};

fn write_reading(rt: &impl Print, name: &str, reading: Result<Model, Refused>) -> io::Result<()> {
    match reading {
        Ok(model) => println!(rt; "{name}: model {} {}", model.n, model.steps),
        Err(refused) => println!(rt; "{name}: {refused}"),
    }
}

// What the reader answers to a file's bytes. At most 65,536 are read, more than any accepted file has.
fn read_file(mut file: impl Read + Drop) -> Result<Model, Refused> {
    let mut buffer = [0u8; 65536];
    let got = read_full(&mut file, &mut buffer);
    reader::read(&buffer[..got])
}

// One argument: the file's name, and what the reader answers to its bytes. A file that can't be opened is told on standard error.
fn read_argument(rt: &(impl Files + Print + Eprint + Alloc), name: &str) -> io::Result<()> {
    match File::open(rt, name) {
        Ok(file) => write_reading(rt, name, read_file(file)),
        Err(error) => {
            tell(rt, name, error);
            Ok(())
        }
    }
}

fn main(rt: HostRuntime) -> io::Result<()> {
    for name in env::args(&rt)?.skip(1) {
        read_argument(&rt, name.as_str())?;
    }
    Ok(())
}
