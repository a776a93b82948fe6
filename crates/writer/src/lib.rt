// The writer of model files, "Writing" of the specification: one file for each model. Refusals: 11 and 22.
//
// No public function has a `requires`.
#![tactic(auto)]

mod encoding;
mod parts;

ghost use Rattle.std.specs.Prelude.{◌≡◌, true};
ghost use Rattle.reachability.specs.Limits.{accepted};
ghost use Rattle.writer.specs.declared.RewriteRefusal.TheVariants.{File};
ghost use Rattle.writer.specs.Answers.{Writes, Rewrites};

use parts::{put_model, size_of};
use reachability::model::{Model, accepts};
use reader::{Refused, read};

// Writing 6. Room for every file that is written.
pub const LONGEST: usize = 1546;

// Why no byte was written: the model is not accepted (11), or the file needs more bytes than were lent (22).
#[derive(Clone, Copy, Debug, PartialEq, Eq)]
pub enum WriteRefusal {
    Invalid,
    Short,
}

// The file of an accepted model at the start of `out`.
fn put(model: Model, out: &mut [u8]) -> Result<usize, WriteRefusal>
    requires { accepted model ≡ true }
    ensures { Writes model out.old result out.new }
{
    if out.len() < size_of(model) {
        return Err(WriteRefusal::Short);
    }
    Ok(put_model(out, model))
}

// Routines 23. The file of the model at the start of `out`, and how long it is. A refusal changes no byte, and no byte behind the file is
// ever changed.
pub fn write(model: Model, out: &mut [u8]) -> Result<usize, WriteRefusal>
    ensures { Writes model out.old result out.new }
{
    if !accepts(model) {
        return Err(WriteRefusal::Invalid);
    }
    put(model, out)
}

// Why no byte was written: the file is refused, or the model's file needs more bytes than were lent (22).
#[derive(Clone, Copy, Debug, PartialEq, Eq)]
pub enum RewriteRefusal {
    File(Refused),
    Short,
}

impl From<Refused> for RewriteRefusal {
    ghost from_gives = { λ refused refusal. refusal ≡ File refused };

    fn from(refused: Refused) -> RewriteRefusal {
        RewriteRefusal::File(refused)
    }
}

// Routines 24. The file of the model of a file, at the start of `out`, and how long it is. A refusal changes no byte.
pub fn rewrite(file: &[u8], out: &mut [u8]) -> Result<usize, RewriteRefusal>
    ensures { Rewrites file.now out.old result out.new }
{
    let model = read(file)?;
    // A model that was read is accepted.
    put(model, out).or(Err(RewriteRefusal::Short))
}
