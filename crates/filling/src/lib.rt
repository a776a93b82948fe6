// A model as it is filled, part by part: the blank model, six numbers put in as a row, a set put in, the shape that a point gives its
// set, and the input set that was left out.
//
// No public function has a `requires`: any model, row and place get their answer.
#![tactic(auto)]

ghost use Rattle.std.specs.Prelude.{◌≡◌};
ghost use Rattle.filling.specs.Models.{blank_model, put_row, shape_of, set_of, set_set, input_at};

use reachability::model::{Model, Questions};
use reachability::motion::Motion;
use reachability::sets::{Set, Shape};
use records::kinds::Point;
use records::places::INPUT;

// Routines 22, Reading 3. A model that is zero everywhere.
#[tactic(auto, unfolding(crate::specs::Models::zeros, crate::specs::Models::blank_set, crate::specs::Models::blank_model))]
pub fn blank_model() -> Model
    ensures { result ≡ blank_model }
{
    let blank = Set {
        shape: Shape::Box,
        count: 0,
        points: [0; 96],
    };
    Model {
        n: 0,
        steps: 0,
        motion: Motion { matrix: [0; 36] },
        drift: [0; 6],
        initial: blank,
        input: blank,
        questions: Questions {
            directions: 0,
            entries: [0; 96],
            guards: 0,
            watched: [0; 16],
            levels: [0; 16],
        },
    }
}

// Routines 22. Six numbers stored as one row of rows of six. A number that would lie beyond the end is left out.
pub fn put_row(xs: &mut [i32], row: usize, six: &[i32; 6])
    ensures { xs.new ≡ put_row xs.old row six.now }
{
    if xs.len() / 6 < row {
        return;
    }
    for (i, x) in six.iter().enumerate() {
        let at = 6 * row + i;
        if at < xs.len() {
            xs[at] = *x;
        }
    }
}

// Routines 22. The shape of the set that such a point belongs to, and a box for no point.
pub fn shape_of(point: Option<Point>) -> Shape
    ensures { result ≡ shape_of point }
{
    match point {
        None | Some(Point::Lower | Point::Upper) => Shape::Box,
        Some(Point::Centre | Point::Generator) => Shape::Zonotope,
        Some(Point::Vertex) => Shape::Vertices,
    }
}

// Routines 22. The initial set or, with `input`, the input set.
pub fn set_of(input: bool, model: Model) -> Set
    ensures { result ≡ set_of input model }
{
    if input { model.input } else { model.initial }
}

// Routines 22. A model with another initial set or, with `input`, another input set.
pub fn with_set(input: bool, model: Model, set: Set) -> Model
    ensures { result ≡ set_set input model set }
{
    if input {
        return Model {
            input: set,
            ..model
        };
    }
    Model {
        initial: set,
        ..model
    }
}

// Routines 22, File 10. The input set once a direction stands at the place. Before the places of the input set no record of it was read,
// and it is the box from zero to zero.
#[tactic(auto, unfolding(reachability::specs::Sets::zero_box))]
pub fn input_at(place: u8, model: Model) -> Set
    ensures { result ≡ input_at place model }
{
    if place < INPUT {
        return Set {
            shape: Shape::Box,
            count: 2,
            points: [0; 96],
        };
    }
    model.input
}
