// Reading into a lent buffer, and telling on standard error what failed (Listing 9).
//
// No public function has a `requires`.
#![tactic(auto)]

ghost use Rattle.std.specs.Prelude.{◌≤◌, length, take};
ghost use Rattle.std.specs.Io.KnownBytes.{Consumes};

use std::io;
use std::io::Read;

// One read, and how many bytes it put at the start of `out`: none where it fails.
fn read_some<R: Read>(input: &mut R, out: &mut [u8]) -> usize
    ensures count { result ≤ length out.new }
    ensures bytes { Consumes (R.remaining input.old) (R.remaining input.new) (take result out.new) }
{
    input.read(out).unwrap_or(0)
}

// Listing 9. Reads until `out` is full, the input ends or a read fails, and answers how many bytes stand at the start of `out`: the next
// ones of the input, where these are known.
pub fn read_full<R: Read>(input: &mut R, out: &mut [u8]) -> usize
    ensures count { result ≤ length out.new }
    ensures bytes { Consumes (R.remaining input.old) (R.remaining input.new) (take result out.new) }
{
    let mut done = 0;
    // Kept: a `while`, since each read tells where the next begins.
    while done < out.len() {
        let n = read_some(input, &mut out[done..]);
        if n == 0 {
            break;
        }
        done += n;
    }
    done
}

// What an error says, without the system's number of it, which `io::Error` adds.
fn reason(text: &str) -> &str {
    text.split_once(" (os error ")
        .map_or(text, |(reason, _)| reason)
}

// Listing 9. A line on standard error: what failed, a colon and why. Nothing is left to do where standard error takes nothing.
pub fn tell(rt: &(impl Eprint + Alloc), what: &str, error: io::Error) {
    let _ = match format!(in rt.alloc(); "{error}") {
        Ok(text) => {
            let reason = reason(text.as_str());
            eprintln!(rt; "{what}: {reason}")
        }
        // There is no memory for the text.
        Err(_) => eprintln!(rt; "{what}: {error}"),
    };
}
