// What moves the state: the matrix of each move. Beside these functions only `accepts` reads the stored matrix.
ghost use Rattle.std.specs.Prelude.{◌≡◌};
ghost use Rattle.reachability.specs.Motion.{matrix_at, rows_of, with_rows};

// Model 6, as stored: the matrix of every move, in six rows of six.
#[derive(Clone, Copy)]
pub struct Motion {
    pub matrix: [i32; 36],
}

// The matrix of the move from step t to step t + 1.
#[tactic(auto, unfolding(crate::specs::Motion::matrix_at))]
pub(crate) fn matrix_at(motion: Motion, t: usize) -> [i32; 36]
    ensures { result ≡ matrix_at motion t }
{
    motion.matrix
}

// Routines 20. The stored rows of the matrix, for whoever fills them.
pub fn rows_of(motion: Motion) -> [i32; 36]
    ensures { result ≡ rows_of motion }
{
    motion.matrix
}

// Routines 20. What moves the state, with these rows.
pub fn with_rows(mut motion: Motion, rows: [i32; 36]) -> Motion
    ensures { result ≡ with_rows motion rows }
{
    motion.matrix = rows;
    motion
}
