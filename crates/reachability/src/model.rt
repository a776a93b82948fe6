// The model, as a value that anyone can make by hand, and the rules that number 11 tests.
ghost use Rattle.std.specs.Prelude.{◌≡◌};
ghost use Rattle.reachability.specs.Limits.{accepted, questions_accepted};

use crate::motion::Motion;
use crate::sets::Set;

// Model 1, as stored, in parts: n coordinates, `steps` steps, what moves the state, the drift, the initial set and the input set, and
// what is asked. Every number that n and the counts leave unused is zero.
#[derive(Clone, Copy)]
pub struct Model {
    pub n: usize,
    pub steps: usize,
    pub motion: Motion,
    pub drift: [i32; 6],
    pub initial: Set,
    pub input: Set,
    pub questions: Questions,
}

// Model 4 and 5, as stored: the directions in sixteen rows of six, and the guards, each the number of the direction that it watches and
// a level.
// Kept: counts beside arrays of one length, since nothing is allocated and what is unused is zero (Limits 9).
#[derive(Clone, Copy)]
pub struct Questions {
    pub directions: usize,
    pub entries: [i32; 96],
    pub guards: usize,
    pub watched: [usize; 16],
    pub levels: [i64; 16],
}

impl Questions {
    // Limits 5, 6, 7 and 9 of the directions and the guards.
    fn ok(&self, n: usize) -> bool
        ensures { result ≡ questions_accepted n self.now }
    {
        limits::directions_ok(n, self.directions, &self.entries)
            && limits::guards_ok(self.directions, self.guards, &self.watched, &self.levels)
    }
}

// Routines 6. The model is accepted (Limits 10).
pub fn accepts(model: Model) -> bool
    ensures { result ≡ accepted model }
{
    limits::frame_ok(model.n, model.steps, &model.motion.matrix)
        && model.initial.ok(model.n)
        && model.input.enters(model.n, &model.drift)
        && model.questions.ok(model.n)
}
