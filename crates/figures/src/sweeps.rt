// The sweep and the judge: the answer for a small model.
use crate::sets::set_of;
use crate::walks::matrix_of;
use cells::output::{answer, list, natural};
use cells::{count, entry};
use reachability::model::{Model, Questions};
use reachability::motion::Motion;
use reachability::refusals::CallRefusal;
use reachability::verdicts::Verdict;
use std::io;

// What the first guard watches.
fn watched_of(cells: &[i64; 258]) -> [usize; 16] {
    let mut watched = [0usize; 16];
    watched[0] = count(cells, 0x52);
    watched
}

// The level of the first guard.
fn levels_of(cells: &[i64; 258]) -> [i64; 16] {
    let mut levels = [0i64; 16];
    levels[0] = cells[0x53];
    levels
}

// The first two entries of the first direction.
fn entries_of(cells: &[i64; 258]) -> [i32; 96] {
    let mut entries = [0i32; 96];
    entries[0] = entry(cells, 0x21);
    entries[1] = entry(cells, 0x22);
    entries
}

// The first two coordinates of the drift.
fn drift_of(cells: &[i64; 258]) -> [i32; 6] {
    [entry(cells, 0x71), entry(cells, 0x72), 0, 0, 0, 0]
}

// The model of a row: one direction with two entries, and the first guard's direction and level.
fn model_of(cells: &[i64; 258]) -> Model {
    Model {
        n: count(cells, 0x02),
        steps: count(cells, 0x03),
        motion: Motion {
            matrix: matrix_of(cells),
        },
        drift: drift_of(cells),
        initial: set_of(cells, 0x30),
        input: set_of(cells, 0x40),
        questions: Questions {
            directions: 1,
            entries: entries_of(cells),
            guards: count(cells, 0x51),
            watched: watched_of(cells),
            levels: levels_of(cells),
        },
    }
}

fn told(rt: &impl Print, number: u64, verdict: u64, figure: u64) -> io::Result<()> {
    natural(rt, number)?;
    answer(rt, verdict, figure)
}

// The number, no verdict, and the step with growth.
fn refused(rt: &impl Print, refusal: CallRefusal) -> io::Result<()> {
    match refusal {
        CallRefusal::Invalid => told(rt, 11, 0, 0),
        CallRefusal::Missing => told(rt, 12, 0, 0),
        CallRefusal::WrongLength => told(rt, 13, 0, 0),
        CallRefusal::Growth(k) => told(rt, 14, 0, k as u64),
    }
}

// The number, no verdict, and the spare figure or the step.
fn swept(rt: &impl Print, a: Result<u32, CallRefusal>) -> io::Result<()> {
    match a {
        Ok(h) => told(rt, 0, 0, u64::from(h)),
        Err(refusal) => refused(rt, refusal),
    }
}

// The number, the verdict (0 none, 1 HIT, 2 UNKNOWN, 3 CLEAR), and the step.
fn judged(rt: &impl Print, a: Result<Verdict, CallRefusal>) -> io::Result<()> {
    match a {
        Ok(Verdict::Hit(k)) => told(rt, 0, 1, k as u64),
        Ok(Verdict::Unknown(k)) => told(rt, 0, 2, k as u64),
        Ok(Verdict::Clear) => told(rt, 0, 3, 0),
        Err(refusal) => refused(rt, refusal),
    }
}

// The lengths of the lists, and the first twelve numbers of each.
fn lists(rt: &impl Print, bounds: &[i64], slacks: &[i64]) -> io::Result<()> {
    answer(rt, bounds.len() as u64, slacks.len() as u64)?;
    list(rt, bounds, 12)?;
    list(rt, slacks, 12)
}

// The answer of a sweep, of a judge, or of a verdict by lists that no sweep filled; then the lists as they are left.
fn lend(
    rt: &impl Print,
    routine: u8,
    cells: &[i64; 258],
    bounds: &mut [i64],
    slacks: &mut [i64],
) -> io::Result<()> {
    match routine {
        b's' => {
            let a = reachability::sweep::sweep(model_of(cells), count(cells, 0x61), bounds, slacks);
            swept(rt, a)?;
        }
        b'j' => {
            let a = judge::judge(model_of(cells), count(cells, 0x61), bounds, slacks);
            judged(rt, a)?;
        }
        _ => judged(rt, judge::verdict(Ok(0), cells[0x53], bounds, slacks))?,
    }
    lists(rt, bounds, slacks)
}

// The same by lists with 7 in each bound and 9 in each slack.
pub fn run(rt: &impl Print, routine: u8, cells: &[i64; 258]) -> io::Result<()> {
    let mut bounds = [7i64; 258];
    let mut slacks = [9i64; 258];
    let b = count(cells, 0x62).min(bounds.len());
    let s = count(cells, 0x63).min(slacks.len());
    lend(rt, routine, cells, &mut bounds[..b], &mut slacks[..s])
}
