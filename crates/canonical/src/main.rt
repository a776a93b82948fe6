// The program `canonical` (Writing 7): takes a model file on standard input and writes the file of its model on standard output, or its
// refusal on standard error.
//
// At most 2,048 bytes are read (Reading 4), and a read that fails counts as the end of the file (Listing 9). The whole file goes out in
// one write, or in as few as the system allows; where standard output takes nothing more, the program says so on standard error and stops.
#![tactic(auto)]

ghost use Rattle.std.specs.Prelude.{◌≡◌, ℕ, ◌≤◌, List, length, IfOk};
ghost use Rattle.std.specs.Result.{result_err};
ghost use Rattle.std.specs.Io.KnownBytes.{Appends, Consumes};
ghost use Rattle.reader.specs.Reading.{read_model};
ghost use Rattle.canonical.specs.Canonical.{canonical_bytes};

use reader::{MOST_READ, Refused};
use std::io;
use std::io::{Read, Write};
use streams::{read_full, tell};
use writer::{LONGEST, RewriteRefusal, rewrite};

// Reads a file, writes the file of its model, where it is not refused, and answers what it is refused for. The contract says of which
// file, where the bytes that are left to read and those that were written are known.
fn answer<R: Read, W: Write>(input: &mut R, output: &mut W) -> io::Result<Option<Refused>>
    ensures { IfOk result (λ refused. (file : List ℕ) × (length file ≤ 2048)
        × Consumes (R.remaining input.old) (R.remaining input.new) file
        × Appends (W.contents output.old) (W.contents output.new) (canonical_bytes file)
        × (refused ≡ result_err (read_model file))) }
{
    let mut file = [0u8; MOST_READ];
    let read = read_full(input, &mut file);
    let mut out = [0u8; LONGEST];
    match rewrite(&file[..read], &mut out) {
        Ok(length) => {
            output.write_all(&out[..length])?;
            Ok(None)
        }
        Err(RewriteRefusal::File(refused)) => Ok(Some(refused)),
        // This never comes: every file that is written has room (`rewrite-fits`).
        Err(RewriteRefusal::Short) => unreachable!(),
    }
}

fn main(rt: HostRuntime) {
    match answer(&mut rt.stdin(), &mut rt.stdout()) {
        Ok(None) => {}
        // The line of a refusal (Listing 7). Nothing is left to do where standard error takes nothing.
        Ok(Some(refused)) => {
            let _ = eprintln!(rt; "{refused}");
        }
        Err(error) => tell(&rt, "canonical: standard output", error),
    }
}
