// The reader of model files, "File" and "Reading" of the specification: any bytes at all are a model, or a number, 1 to 10 or
// 15 to 17, with its offset.
//
// No public function has a `requires`.
#![tactic(auto)]

mod order;
mod refusals;
mod state;
mod take;

ghost use Rattle.reader.specs.Reading.{Reads};
ghost use Rattle.reader.specs.Inner.{Advances};

use filling::blank_model;
use order::admit;
use reachability::model::Model;
use records::places::{END, START};
use records::{NoRecord, record_at};
pub use refusals::{FileRefusal, Refused};
use state::State;
use take::take;

// Reading 4. The most bytes of a file that a program reads: no longer one is accepted, and a longer one has the reply to those.
pub const MOST_READ: usize = 2048;

// The record at the offset, put into the state: the offset behind it, or none where it is the end. A kind's numbers stand above those of
// its body, also where that is cut.
fn advance(file: &[u8], at: usize, state: &mut State) -> Result<Option<usize>, FileRefusal>
    ensures { Advances file.now at state.old result state.new }
{
    match record_at(file, at) {
        Ok((kind, body)) => {
            let layout = admit(state, kind)?;
            take(state, layout, body)?;
            if layout.place == END {
                return Ok(None);
            }
            Ok(Some(at + 1 + body.len()))
        }
        Err(NoRecord::Nothing) => Err(FileRefusal::Ends),
        Err(NoRecord::Short(kind)) => admit(state, kind).and(Err(FileRefusal::Ends)),
        Err(NoRecord::Unknown(_)) => Err(FileRefusal::UnknownKind),
    }
}

// Routines 14. The model of the file, or the first number that applies to it, with its offset.
pub fn read(file: &[u8]) -> Result<Model, Refused>
    ensures { Reads file.now result }
{
    let mut state = State {
        place: START,
        rows: 0,
        model: blank_model(),
    };
    let mut at = 0;
    // Kept: a loop and a match, since a record tells where the next begins; by `map_err(..)?` in the loop the proof doesn't close.
    loop {
        match advance(file, at, &mut state) {
            Ok(Some(next)) => at = next,
            Ok(None) => break,
            Err(refusal) => {
                return Err(Refused {
                    refusal,
                    offset: at,
                });
            }
        }
    }
    let behind = at + 1;
    if behind < file.len() {
        return Err(Refused {
            refusal: FileRefusal::BehindEnd,
            offset: behind,
        });
    }
    Ok(state.model)
}
