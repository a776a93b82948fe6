// Numbers as bytes, the least significant first (File 2).
ghost use Rattle.std.specs.Prelude.{◌+◌, ◌*◌, ◌≤◌, length};
ghost use Rattle.text.specs.Output.{PutNext};
ghost use Rattle.writer.specs.Writing.{six_bytes};

use text::Output;

// The six entries of a row of rows of six.
pub(crate) fn put_six(out: &mut Output, xs: &[i32], row: usize)
    requires { (out.old.at + 24 ≤ length out.old.bytes.now) × (6 * row + 6 ≤ length xs.now) }
    ensures { PutNext 24 (six_bytes xs.now row) out.old out.new }
{
    for i in 0..6 {
        out.put(&xs[6 * row + i].to_le_bytes());
    }
}
