// The parts of a model's file (Writing 1 and 2).
ghost use Rattle.std.specs.Prelude.{◌≡◌, true, cond, ◌+◌, ◌*◌, ◌≤◌, length};
ghost use Rattle.text.specs.Put.{Put};
ghost use Rattle.text.specs.Output.{PutNext};
ghost use Rattle.reachability.specs.Limits.{accepted};
ghost use Rattle.writer.specs.Writing.{file_of, is_zero_box, row_records, vector_records, drift_count, point_records, input_count, guard_records};
ghost use Rattle.writer.specs.Inner.{Small};

use crate::encoding::put_six;
use reachability::model::Model;
use reachability::motion::rows_of;
use reachability::sets::{Set, Shape};
use text::Output;

// File 3. The kinds of the records that are written. Those of a set's points are counted from the part's.
const HEAD: u8 = 0x01;

const ROW: u8 = 0x02;

const DRIFT: u8 = 0x05;

const INITIAL: u8 = 0x10;

const INPUT: u8 = 0x20;

const DIRECTION: u8 = 0x30;

const GUARD: u8 = 0x40;

const END: u8 = 0xFF;

// A scaled row for each of the first n rows.
fn put_rows(out: &mut Output, n: usize, rows: &[i32; 36])
    requires { (n ≤ 6) × (out.old.at + 26 * n ≤ length out.old.bytes.now) }
    ensures { PutNext (26 * n) (row_records n rows.now) out.old out.new }
{
    for p in 0..n {
        out.put(&[ROW, p as u8]);
        put_six(out, rows, p);
    }
}

// A record for each of the first `count` rows of six, the first of one kind and the others of another.
fn put_vectors(out: &mut Output, first: u8, other: u8, count: usize, xs: &[i32])
    requires { (out.old.at + 25 * count ≤ length out.old.bytes.now) × (6 * count ≤ length xs.now) }
    ensures { PutNext (25 * count) (vector_records first other count xs.now) out.old out.new }
{
    for k in 0..count {
        let kind = if k == 0 { first } else { other };
        out.put(&[kind]);
        put_six(out, xs, k);
    }
}

// The first `count` points of a set. `part` is the kind of a lower corner.
fn put_points(out: &mut Output, part: u8, set: Set, count: usize)
    requires { (part ≤ 0x20) × (count ≤ 16) × (out.old.at + 25 * count ≤ length out.old.bytes.now) }
    ensures { PutNext (25 * count) (point_records part set count) out.old out.new }
{
    let (first, other) = match set.shape {
        Shape::Box => (part, part + 1),
        Shape::Zonotope => (part + 2, part + 3),
        Shape::Vertices => (part + 4, part + 4),
    };
    put_vectors(out, first, other, count, &set.points);
}

// A guard for each of the first `count`.
fn put_guards(out: &mut Output, count: usize, watched: &[usize; 16], levels: &[i64; 16])
    requires { (count ≤ 16) × (out.old.at + 10 * count ≤ length out.old.bytes.now) × Small count watched.now }
    ensures { PutNext (10 * count) (guard_records count watched.now levels.now) out.old out.new }
{
    for g in 0..count {
        out.put(&[GUARD, watched[g] as u8]);
        out.put(&levels[g].to_le_bytes());
    }
}

// Writing 2. The set is the stored box of zeros.
fn is_zero_box(set: Set) -> bool
    ensures { result ≡ is_zero_box set }
{
    match set.shape {
        Shape::Box => set.count == 2 && arrays::zero_outside(0, 0, &set.points),
        Shape::Zonotope => false,
        Shape::Vertices => false,
    }
}

// Writing 2. How many records are written of so many, none where they are left out.
fn unless_left_out(absent: bool, count: usize) -> usize
    ensures { result ≡ cond absent 0 count }
{
    if absent { 0 } else { count }
}

fn input_count(set: Set) -> usize
    ensures { result ≡ input_count set }
{
    unless_left_out(is_zero_box(set), set.count)
}

fn drift_count(drift: &[i32; 6]) -> usize
    ensures { result ≡ drift_count drift.now }
{
    unless_left_out(arrays::zero_outside(0, 0, drift), 1)
}

// The length of the file of a model.
// Kept: a fact and no type of accepted models, since a model that was read would have to be tested again.
pub(crate) fn size_of(model: Model) -> usize
    requires { accepted model ≡ true }
    ensures { result ≡ length (file_of model) }
{
    let drifts = drift_count(&model.drift);
    let inputs = input_count(model.input);
    let vectors = drifts + model.initial.count + inputs + model.questions.directions;
    4 + 26 * model.n + 25 * vectors + 10 * model.questions.guards + 1
}

// The file of a model, and its length.
pub(crate) fn put_model(out: &mut [u8], model: Model) -> usize
    requires { (accepted model ≡ true) × (length (file_of model) ≤ length out.old) }
    ensures { Put (length (file_of model)) 0 (file_of model) out.old out.new result }
{
    let asked = model.questions;
    let mut file = Output { bytes: out, at: 0 };
    file.put(&[HEAD, model.n as u8]);
    file.put(&(model.steps as u16).to_le_bytes());
    put_rows(&mut file, model.n, &rows_of(model.motion));
    put_vectors(
        &mut file,
        DRIFT,
        DRIFT,
        drift_count(&model.drift),
        &model.drift,
    );
    put_points(&mut file, INITIAL, model.initial, model.initial.count);
    put_points(&mut file, INPUT, model.input, input_count(model.input));
    put_vectors(
        &mut file,
        DIRECTION,
        DIRECTION,
        asked.directions,
        &asked.entries,
    );
    put_guards(&mut file, asked.guards, &asked.watched, &asked.levels);
    file.put(&[END]);
    file.at
}
