// The program `envelope` (Listing 1): takes a model on standard input and writes its listing, or its refusal, on standard output.
//
// At most 2,048 bytes are read (Reading 4): no longer file is accepted, and a longer one has the reply to those bytes. A read
// that fails counts as the end of the file (Listing 9). The whole text goes out in one write, or in as few as the system allows; where
// standard output takes nothing more, the program says so on standard error and stops.
#![tactic(auto)]

ghost use Rattle.std.specs.Prelude.{ℕ, ◌≤◌, List, length, OnOk};
ghost use Rattle.std.specs.Io.KnownBytes.{Appends, Consumes};
ghost use Rattle.listing.specs.Listing.{reply_text};

use listing::{ROOM, reply};
use reader::MOST_READ;
use std::io;
use std::io::{Read, Write};
use streams::{read_full, tell};

// Reads a file and writes the reply to it, where the bytes that are left to read and those that were written are known.
fn answer<R: Read, W: Write>(input: &mut R, output: &mut W) -> io::Result<()>
    ensures { OnOk result ((file : List ℕ) × (length file ≤ 2048)
        × Consumes (R.remaining input.old) (R.remaining input.new) file
        × Appends (W.contents output.old) (W.contents output.new) (reply_text file)) }
{
    let mut file = [0u8; MOST_READ];
    let read = read_full(input, &mut file);
    let mut text = [0u8; ROOM];
    let count = reply(&file[..read], &mut text);
    output.write_all(&text[..count])
}

fn main(rt: HostRuntime) {
    if let Err(error) = answer(&mut rt.stdin(), &mut rt.stdout()) {
        tell(&rt, "envelope: standard output", error);
    }
}
