// The C interface, exported: each function of `pepperscarp` under its own name, with the same contract (C interface 2 to 12). The
// header `c/pepperscarp.h` is for callers. There is nothing else here.
// Kept: each contract twice, since an exported function has its own (C interface).
#![tactic(auto)]

ghost use Rattle.listing.specs.Listing.{ReplyLeaves};
ghost use Rattle.pepperscarp.specs.Replies.{StepReply, SweepReply, JudgeReply, WriteReply, CalmReply, LimitReply, WithinReply};

// C interface 2.
#[unsafe(no_mangle)]
pub extern "C" fn pepperscarp_step(
    n: usize,
    matrix: &[i32; 36],
    r: &mut [i64; 6],
    e: &mut [i64; 6],
) -> u64
    ensures { StepReply n matrix.now r.old e.old result r.new e.new }
{
    pepperscarp::pepperscarp_step(n, matrix, r, e)
}

// C interface 3, 5 and 7.
#[unsafe(no_mangle)]
pub extern "C" fn pepperscarp_sweep(
    file: &[u8],
    direction: usize,
    bounds: &mut [i64],
    slacks: &mut [i64],
) -> u64
    ensures { SweepReply file.now direction bounds.old slacks.old result bounds.new slacks.new }
{
    pepperscarp::pepperscarp_sweep(file, direction, bounds, slacks)
}

// C interface 4, 5 and 7.
#[unsafe(no_mangle)]
pub extern "C" fn pepperscarp_judge(
    file: &[u8],
    guard: usize,
    bounds: &mut [i64],
    slacks: &mut [i64],
) -> u64
    ensures { JudgeReply file.now guard bounds.old slacks.old result bounds.new slacks.new }
{
    pepperscarp::pepperscarp_judge(file, guard, bounds, slacks)
}

// C interface 6.
#[unsafe(no_mangle)]
pub extern "C" fn pepperscarp_listing(file: &[u8], out: &mut [u8]) -> usize
    ensures { ReplyLeaves file.now out.old out.new result }
{
    pepperscarp::pepperscarp_listing(file, out)
}

// C interface 9.
#[unsafe(no_mangle)]
pub extern "C" fn pepperscarp_write(file: &[u8], out: &mut [u8]) -> u64
    ensures { WriteReply file.now out.old result out.new }
{
    pepperscarp::pepperscarp_write(file, out)
}

// C interface 5 and 10.
#[unsafe(no_mangle)]
pub extern "C" fn pepperscarp_calm(file: &[u8]) -> u64
    ensures { CalmReply file.now result }
{
    pepperscarp::pepperscarp_calm(file)
}

// C interface 5 and 11.
#[unsafe(no_mangle)]
pub extern "C" fn pepperscarp_slack_limit(file: &[u8], step: usize) -> u64
    ensures { LimitReply file.now step result }
{
    pepperscarp::pepperscarp_slack_limit(file, step)
}

// C interface 5 and 12.
#[unsafe(no_mangle)]
pub extern "C" fn pepperscarp_steps_within(file: &[u8], slack: u64) -> u64
    ensures { WithinReply file.now slack result }
{
    pepperscarp::pepperscarp_steps_within(file, slack)
}
