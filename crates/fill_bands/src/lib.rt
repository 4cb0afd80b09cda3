// Band after band, from the goal. A band is one straight step wide: when it begins, all numbers below its end are
// settled. Its cells take all their steps, in whatever order; what they reach lies in the next band or, by a diagonal
// step, in the one after that. The goal's places take their steps first and are never queued, so that the queue has at
// most one cell fewer than the floor.
#![tactic(auto)]

ghost use Rattle.std.specs.Prelude.{◌≡◌, ◌<◌, ◌↔◌, IsTrue, length};
ghost use Rattle.fill_steps.specs.inner.Work.{at};
ghost use Rattle.fill_steps.specs.inner.Spreads.{Moved};
ghost use Rattle.fill_bands.specs.inner.Pass.{Places, FreshParted, StepsBegun, StepsLeft, PassBegun, PassLeft};
ghost use Rattle.fill_bands.specs.inner.Solved.{Loaded, Goals, GoalsDone, Solved};

use fill_steps::{STEP_STRAIGHT, Spread};

// Whether a cell is ready: its number is below the limit.
fn is_ready(spread: &Spread, cell: u32, limit: u32) -> bool
    requires { cell < length spread.now.work.now }
    ensures { IsTrue result ↔ (at spread.now.work.now cell < limit) }
{
    spread.work[cell as usize] < limit
}

// Brings the cells of queue[fresh..tail] that are ready, below the limit, before those that wait. Gives where the first
// one that waits stands. Which cells are ready is hard to foresee, so that each is swapped, without a test, to where
// the ready ones end, and counts there if it is one; the library's `swap` tests first whether the two are one, for
// which a fill takes 2.5 % more instructions. The first one stands there already: in a narrow aisle, where a band has
// one cell, nothing is moved.
fn ready_first(spread: &mut Spread, fresh: usize, limit: u32) -> usize
    requires { Places spread.old.work.now spread.old.queue.now fresh spread.old.tail }
    ensures { Moved spread.old spread.new (FreshParted fresh limit result) }
{
    if fresh == spread.tail {
        return fresh;
    }
    let mut top = fresh + usize::from(is_ready(spread, spread.queue[fresh], limit));
    for i in fresh + 1..spread.tail {
        let cell = spread.queue[i];
        spread.queue[i] = spread.queue[top];
        spread.queue[top] = cell;
        top += usize::from(is_ready(spread, cell, limit));
    }
    top
}

// The ready cells queue[mid..top] take their steps.
fn ready_steps(spread: &mut Spread, mid: usize, top: usize)
    requires { StepsBegun spread.old.work.now spread.old.queue.now mid top spread.old.tail }
    ensures { Moved spread.old spread.new (StepsLeft mid top) }
{
    for i in mid..top {
        let from = spread.queue[i] as usize;
        spread.cell_steps(from);
    }
}

// One band, which ends at limit, over the cells queue[mid..tail]: those below the limit take their steps, and the
// others wait, moved to the end of their part of the queue, so that they stand right before the cells that are reached
// now. Gives where the first one stands. A cell waits at most once: what was reached before a band lies less than one
// straight step past that band's end, and so below the end of the next one. So the cells that waited in the band
// before, queue[mid..fresh], are all ready, and only the fresh ones, which it reached, are parted.
fn one_band(spread: &mut Spread, mid: usize, fresh: usize, limit: u32) -> usize
    requires { PassBegun spread.old.work.now spread.old.queue.now mid fresh spread.old.tail limit }
    ensures { Moved spread.old spread.new (PassLeft mid fresh limit result) }
{
    let waiting = ready_first(spread, fresh, limit);
    ready_steps(spread, mid, waiting);
    waiting
}

// The goal's places take their steps.
fn goal_steps(spread: &mut Spread, goals: &[u32])
    requires begins { spread.old.tail ≡ 0 }
    requires loaded { Loaded spread.old.work.now spread.old.queue.now }
    requires goals { Goals spread.old.work.now goals.now }
    ensures { Moved spread.old spread.new (GoalsDone goals.now) }
{
    for from in goals {
        spread.cell_steps(*from as usize);
    }
}

// All bands from the goal's places: their own steps, and then band after band of what they reach.
pub fn all_bands(work: &mut [u32], queue: &mut [u32], goals: &[u32])
    requires loaded { Loaded work.old queue.old }
    requires goals { Goals work.old goals.now }
    ensures { Solved work.old work.new }
{
    let mut spread = Spread {
        work,
        queue,
        tail: 0,
    };
    goal_steps(&mut spread, goals);
    let mut mid = 0;
    let mut fresh = 0;
    let mut limit = 3 * STEP_STRAIGHT;
    // No `for`: how many bands there are shows as the queue ends.
    while mid < spread.tail {
        let tail = spread.tail;
        mid = one_band(&mut spread, mid, fresh, limit);
        fresh = tail;
        limit += STEP_STRAIGHT;
    }
}
