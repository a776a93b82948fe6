// The walk of a step, which takes a direction back over one move after the other and gathers what a bound is made of. It can be resumed:
// a walk is made from a direction (`begin`), taken back over a move by the matrix of that move (`back`), and asked for the bound and the
// slack of its step once it is at its end (`end_of`). All six coordinates are taken: what lies beyond n is zero.
ghost use Rattle.std.specs.Prelude.{◌≡◌};
ghost use Rattle.reachability.specs.WalkInner.{ErrorsWithReach, term_errors, WalkAsks, Begins, Backs, Ends};

use crate::sets::{Set, support_of};
use stepping::rounding::{Rounded, bound_and_slack};

// r and its errors e, and what the walk has gathered: the supports of what entered at its moves, their error terms, and the largest
// growth sum of its places.
#[derive(Clone, Copy)]
pub(crate) struct Walk {
    pub(crate) r: [i64; 6],
    pub(crate) e: [i64; 6],
    pub(crate) entered: i64,
    pub(crate) errors: u64,
    pub(crate) largest: u64,
}

// e · reach.
fn errors_of(e: &[i64; 6], reaches: &[i64; 6]) -> u64
    requires { ErrorsWithReach e.now reaches.now }
    ensures { result ≡ term_errors e.now reaches.now }
{
    let mut sum = 0;
    for i in 0..6 {
        sum += e[i].unsigned_abs() * reaches[i].unsigned_abs();
    }
    sum
}

impl Walk {
    // A walk at its start: r(0) and e(0) of the direction, and nothing gathered but their growth sum.
    pub(crate) fn begin(n: usize, direction: &[i32; 6]) -> Walk
        ensures { Begins n direction.now result }
    {
        let mut r = [0; 6];
        let mut e = [0; 6];
        stepping::first(direction, &mut r, &mut e);
        let largest = stepping::growth(n, &r, &e).unwrap_or(0);
        Walk {
            r,
            e,
            entered: 0,
            errors: 0,
            largest,
        }
    }

    // One move further back: what enters at that move, with these reaches, meets r and e as they are, and then they are stepped by its
    // matrix. The step is passed 6 for n: it does the same, and has no zeros to test.
    pub(crate) fn back(&mut self, matrix: &[i32; 36], input: &Set, reaches: &[i64; 6])
        requires { WalkAsks input.now reaches.now self.old }
        ensures { Backs matrix.now input.now reaches.now self.old self.new }
    {
        self.entered += support_of(input, &self.r);
        self.errors += errors_of(&self.e, reaches);
        let sum = stepping::step(6, matrix, &mut self.r, &mut self.e).unwrap_or(0);
        self.largest = self.largest.max(sum);
    }

    // The bound and the slack, at the walk's end. The reaches are those of the initial set.
    pub(crate) fn end_of(&self, initial: &Set, reaches: &[i64; 6]) -> Rounded
        requires { WalkAsks initial.now reaches.now self.now }
        ensures { Ends initial.now reaches.now self.now result.bound result.slack }
    {
        let supports = support_of(initial, &self.r) + self.entered;
        let total = errors_of(&self.e, reaches) + self.errors;
        let half = (total + 1) / 2;
        bound_and_slack(supports + (half as i64), 2 * half)
    }
}
