// Taking a whole record: the test of its values, Refusals 4 to 8 and 15 to 17, and the state behind it. Behind a refusal the state says
// nothing.
ghost use Rattle.std.specs.Prelude.{◌≡◌, false, ◌≤◌, ◌<◌, eqb};
ghost use Rattle.arrays.specs.Tests.{first_of};
ghost use Rattle.coefficients.specs.Rows.{row_refused, row_six};
ghost use Rattle.filling.specs.Models.{set_of};
ghost use Rattle.reader.specs.Models.{row_stored, with_head, with_row, with_drift, with_point, with_set_point, with_direction, with_guard};
ghost use Rattle.reader.specs.Values.{head_ok, row_number, drift_ok, corners_ok, point_number_of, direction_ok, guard_ok, unless, point_number, value_number};
ghost use Rattle.reader.specs.Refusals.{one_too_many, stored_in};
ghost use Rattle.reader.specs.Inner.{layout_number, Tested, Takes};

use crate::refusals::FileRefusal;
use crate::state::State;
use coefficients::rows::{RefusedRow, fitted_entries, scaled_entries};
use columns::{first_byte, fitted_row, six_at, unused_zero};
use filling::{input_at, put_row, set_of, shape_of, with_set};
use limits::{DIRECTION_LIMIT, LEAST_DIRECTION, MOST_STEPS};
use reachability::entering::entering_within;
use reachability::motion::{rows_of, with_rows};
use reachability::sets::{REACH_LIMIT, Set, reach_within};
use records::kinds::{FITTED_WIDTH, Layout, Part, Point};
use records::places::ROWS;
use stepping::MOST_COORDINATES;

// File 4: what steps of 0 stand for.
const USUAL_STEPS: usize = 120;

// Limits 11. The largest and the least entry of the drift.
const DRIFT_LIMIT: i32 = REACH_LIMIT as i32;

const LEAST_DRIFT: i32 = -DRIFT_LIMIT;

#[tactic(auto, unfolding(crate::specs::Models::with_head))]
fn take_head(state: &mut State, layout: Layout, body: &[u8]) -> Result<(), FileRefusal>
    ensures { Takes (unless (head_ok body.now) 4) (with_head state.old layout body.now) result state.new }
{
    let n = first_byte(body);
    let said = usize::from(numbers::u16_at(body, 1));
    if n < 1 || MOST_COORDINATES < n || MOST_STEPS < said {
        return Err(FileRefusal::Head);
    }
    state.model.n = n;
    state.model.steps = if said == 0 { USUAL_STEPS } else { said };
    state.rows = 0;
    state.place = layout.place;
    Ok(())
}

// One row more, where its number is that of the next row and no entry is refused. Its number stands above its entries.
fn store_row(
    state: &mut State,
    layout: Layout,
    row: usize,
    entries: Result<[i32; 6], RefusedRow>,
) -> Result<(), FileRefusal>
    requires { row < 256 }
    ensures { Takes (first_of (unless (eqb row state.old.rows) 5) (row_refused entries)) (row_stored state.old layout (row_six entries)) result state.new }
{
    if row != state.rows {
        return Err(FileRefusal::Row);
    }
    let six = entries?;
    let mut matrix = rows_of(state.model.motion);
    put_row(&mut matrix, row, &six);
    state.model.motion = with_rows(state.model.motion, matrix);
    state.rows = row + 1;
    state.place = if row + 1 < state.model.n {
        ROWS
    } else {
        layout.place
    };
    Ok(())
}

// A row, scaled or fitted. A fitted one is held until its number and its entries have passed (Forms 11).
fn take_row(state: &mut State, layout: Layout, body: &[u8]) -> Result<(), FileRefusal>
    ensures { Takes (row_number state.old layout body.now) (with_row state.old layout body.now) result state.new }
{
    let n = state.model.n;
    if layout.width == FITTED_WIDTH {
        let held = fitted_row(body, layout.first);
        store_row(state, layout, held.number, fitted_entries(n, held))
    } else {
        let entries = scaled_entries(n, six_at(body, layout.first));
        store_row(state, layout, first_byte(body), entries)
    }
}

// The drift.
#[tactic(auto, unfolding(crate::specs::Values::drift_ok, crate::specs::Models::with_drift))]
fn take_drift(state: &mut State, layout: Layout, body: &[u8]) -> Result<(), FileRefusal>
    ensures { Takes (unless (drift_ok layout body.now) 17) (with_drift state.old layout body.now) result state.new }
{
    let drift = six_at(body, layout.first);
    if !arrays::all_between(LEAST_DRIFT, DRIFT_LIMIT, &drift) {
        return Err(FileRefusal::Drift);
    }
    state.model.drift = drift;
    state.place = layout.place;
    Ok(())
}

// The corners of a box, once both are read, are in order.
fn corners_ok(n: usize, point: Option<Point>, points: &[i32; 96]) -> bool
    ensures { result ≡ corners_ok n point points.now }
{
    match point {
        Some(Point::Upper) => limits::corners_ordered(n, points),
        _ => true,
    }
}

// A set with its last point so far: 6 or, of the input set, 17. A reach that is within its limit with the drift is so by itself, so that
// it is taken once where nothing is refused.
#[tactic(auto, unfolding(crate::specs::Values::point_ok))]
fn test_point(
    input: bool,
    n: usize,
    point: Option<Point>,
    set: &Set,
    drift: &[i32; 6],
) -> Result<(), FileRefusal>
    ensures { Tested (point_number_of input n point set.now drift.now) result }
{
    if !corners_ok(n, point, &set.points) {
        return Err(FileRefusal::Point);
    }
    if input && entering_within(set.shape, set.count, &set.points, drift) {
        return Ok(());
    }
    if !reach_within(set.shape, set.count, &set.points) {
        return Err(FileRefusal::Point);
    }
    if input {
        Err(FileRefusal::Drift)
    } else {
        Ok(())
    }
}

// A set with one point more.
#[tactic(auto, unfolding(crate::specs::Models::with_point))]
fn with_point(mut set: Set, layout: Layout, body: &[u8]) -> Set
    requires { set.count < 16 }
    ensures { result ≡ with_point set layout body.now }
{
    set.shape = shape_of(layout.point);
    let count = set.count;
    put_row(&mut set.points, count, &six_at(body, layout.first));
    set.count = count + 1;
    set
}

// One point more of the initial set or, with `input`, of the input set.
#[tactic(auto, unfolding(crate::specs::Models::with_set_point))]
fn take_point(
    state: &mut State,
    input: bool,
    layout: Layout,
    body: &[u8],
) -> Result<(), FileRefusal>
    requires { (set_of input state.old.model).count < 16 }
    ensures { Takes (point_number input state.old layout body.now) (with_set_point input state.old layout body.now) result state.new }
{
    let set = with_point(set_of(input, state.model), layout, body);
    test_point(input, state.model.n, layout.point, &set, &state.model.drift)?;
    state.model = with_set(input, state.model, set);
    state.place = layout.place;
    Ok(())
}

#[tactic(auto, unfolding(crate::specs::Values::direction_ok, crate::specs::Models::with_direction))]
fn take_direction(state: &mut State, layout: Layout, body: &[u8]) -> Result<(), FileRefusal>
    requires { state.old.model.questions.directions < 16 }
    ensures { Takes (unless (direction_ok layout body.now) 7) (with_direction state.old layout body.now) result state.new }
{
    let six = six_at(body, layout.first);
    if !arrays::all_between(LEAST_DIRECTION, DIRECTION_LIMIT, &six)
        || arrays::zero_outside(0, 0, &six)
    {
        return Err(FileRefusal::Direction);
    }
    state.model.input = input_at(state.place, state.model);
    let directions = state.model.questions.directions;
    put_row(&mut state.model.questions.entries, directions, &six);
    state.model.questions.directions = directions + 1;
    state.place = layout.place;
    Ok(())
}

#[tactic(auto, unfolding(crate::specs::Models::with_guard))]
fn take_guard(state: &mut State, layout: Layout, body: &[u8]) -> Result<(), FileRefusal>
    requires { state.old.model.questions.guards < 16 }
    ensures { Takes (unless (guard_ok state.old body.now) 8) (with_guard state.old layout body.now) result state.new }
{
    let direction = first_byte(body);
    if state.model.questions.directions <= direction {
        return Err(FileRefusal::Guard);
    }
    let guards = state.model.questions.guards;
    state.model.questions.watched[guards] = direction;
    state.model.questions.levels[guards] = numbers::i64_at(body, 1);
    state.model.questions.guards = guards + 1;
    state.place = layout.place;
    Ok(())
}

fn take_part(state: &mut State, layout: Layout, body: &[u8]) -> Result<(), FileRefusal>
    requires few { one_too_many state.old layout ≡ false }
    requires most_bound { layout.most ≤ 16 }
    ensures { Takes (value_number layout.part state.old layout body.now) (stored_in layout.part state.old layout body.now) result state.new }
{
    match layout.part {
        Part::Head => take_head(state, layout, body),
        Part::Row => take_row(state, layout, body),
        Part::Drift => take_drift(state, layout, body),
        Part::Initial => take_point(state, false, layout, body),
        Part::Input => take_point(state, true, layout, body),
        Part::Direction => take_direction(state, layout, body),
        Part::Guard => take_guard(state, layout, body),
        Part::End => Ok(()),
    }
}

// The record is tested, and put into the state. Its kind has passed 3 and 9. What stands beyond n comes before its other values.
pub(crate) fn take(state: &mut State, layout: Layout, body: &[u8]) -> Result<(), FileRefusal>
    requires few { one_too_many state.old layout ≡ false }
    requires most_bound { layout.most ≤ 16 }
    ensures { Takes (layout_number state.old layout body.now) (stored_in layout.part state.old layout body.now) result state.new }
{
    if !unused_zero(state.model.n, layout, body) {
        return Err(FileRefusal::BeyondN);
    }
    take_part(state, layout, body)
}
