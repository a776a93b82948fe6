// How far a file has been read.
use reachability::model::Model;

// The place in the order, the number of rows read, and the model so far.
#[derive(Clone, Copy)]
pub struct State {
    pub place: u8,
    pub rows: usize,
    pub model: Model,
}
