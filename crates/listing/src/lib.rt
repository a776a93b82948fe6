// The text that the program `envelope` writes for a file, "Listing" of the specification: the listing of its model, or its refusal.
//
// No public function has a `requires`.
#![tactic(auto)]

mod directions;
mod guards;

ghost use Rattle.std.specs.Prelude.{◌≡◌, true, ◌≤◌, length};
ghost use Rattle.reachability.specs.Limits.{accepted};
ghost use Rattle.text.specs.Put.{Put};
ghost use Rattle.listing.specs.Listing.{ReplyLeaves, listing_text, reply_room};

use directions::put_directions;
use guards::{NO_ANSWER, put_guards};
use limits::LONGEST_LIST;
use reachability::model::Model;
use reader::read;
use text::{Output, put_line};

// Routines 15. Room for every reply.
pub const ROOM: usize = 270000;

// The listing of an accepted model.
// Kept: a fact and no type of accepted models, since a model that was read would have to be tested again.
fn put_listing(model: Model, out: &mut [u8]) -> usize
    requires { (accepted model ≡ true) × (reply_room ≤ length out.old) }
    ensures { Put reply_room 0 (listing_text model) out.old out.new result }
{
    let size = model.steps + 1;
    let mut bounds = [0; LONGEST_LIST];
    let mut slacks = [0; LONGEST_LIST];
    let mut answers = [NO_ANSWER; 16];
    let mut listing = Output { bytes: out, at: 0 };
    listing.put_line(b"model ", model.n as u64, b" ", model.steps as u64);
    put_directions(
        model,
        &mut bounds[..size],
        &mut slacks[..size],
        &mut answers,
        &mut listing,
    );
    put_guards(model, &answers, &mut listing);
    listing.at
}

// Routines 15. The text for a file at the start of `out`, and how many bytes it has. Where `out` has fewer than 270,000 bytes the
// answer is 0, and nothing is written.
pub fn reply(file: &[u8], out: &mut [u8]) -> usize
    ensures { ReplyLeaves file.now out.old out.new result }
{
    if out.len() < ROOM {
        return 0;
    }
    match read(file) {
        Ok(model) => put_listing(model, out),
        Err(refused) => put_line(
            out,
            0,
            b"refused ",
            u64::from(refused.refusal.number()),
            b" at ",
            refused.offset as u64,
        ),
    }
}
