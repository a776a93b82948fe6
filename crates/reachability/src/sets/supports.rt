// Supports, for points and directions that have been tested. Loops run to six: what lies beyond n is zero.
ghost use Rattle.std.specs.Prelude.{◌≡◌, ◌<◌};
ghost use Rattle.integers.specs.Sums.{vector, dot as dot_of};
ghost use Rattle.reachability.specs.Sets.{support_of, points as points_of};
ghost use Rattle.reachability.specs.SetsInner.{Pointwise, Tested, Counted};
ghost use Rattle.reachability.specs.declared.sets.Shape.TheVariants.{Box};

use crate::sets::{Set, Shape};

impl Set {
    // r · point k.
    // Kept: facts of a set and an r that were tested, here and below: no invariant of one of them could say what both keep.
    fn dot(&self, k: usize, r: &[i64; 6]) -> i64
        requires { (k < 16) × Tested self.now.points r.now }
        ensures { result ≡ dot_of 6 (vector r.now) (points_of self.now.points k) }
    {
        let mut sum = 0;
        for i in 0..6 {
            sum += r[i] * i64::from(self.points[6 * k + i]);
        }
        sum
    }

    // Sets 10. The corner that counts in a coordinate is the upper one for an r above 0.
    fn of_box(&self, r: &[i64; 6]) -> i64
        requires { Tested self.now.points r.now }
        ensures { result ≡ support_of 6 Box 2 (points_of self.now.points) (vector r.now) }
    {
        let mut sum = 0;
        for i in 0..6 {
            let corner = if 0 < r[i] {
                self.points[6 + i]
            } else {
                self.points[i]
            };
            sum += r[i] * i64::from(corner);
        }
        sum
    }

    // Sets 11 and 12, Forms 8. Of the points passed the figure alone is kept: a zonotope's sum, a list's largest product.
    fn of_points(&self, r: &[i64; 6]) -> i64
        requires { Pointwise self.now.shape × (Counted self.now.count × Tested self.now.points r.now) }
        ensures { result ≡ support_of 6 self.now.shape self.now.count (points_of self.now.points) (vector r.now) }
    {
        let mut figure = self.dot(0, r);
        for k in 1..self.count {
            let d = self.dot(k, r);
            figure = match self.shape {
                Shape::Vertices => figure.max(d),
                Shape::Box | Shape::Zonotope => {
                    let size = d.unsigned_abs() as i64;
                    figure + size
                }
            };
        }
        figure
    }
}

// The support of tested points at a tested direction.
// Kept: no method, since Forms 8 is tested of its compiled code, which is found by this name.
pub(crate) fn support_of(set: &Set, r: &[i64; 6]) -> i64
    requires { Counted set.now.count × Tested set.now.points r.now }
    ensures { result ≡ support_of 6 set.now.shape set.now.count (points_of set.now.points) (vector r.now) }
{
    match set.shape {
        Shape::Box => set.of_box(r),
        Shape::Zonotope | Shape::Vertices => set.of_points(r),
    }
}
