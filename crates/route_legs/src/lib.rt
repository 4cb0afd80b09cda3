// Reading a route from a table that keeps its promise: the first route and its legs.
#![tactic(auto)]

ghost use Rattle.std.specs.Prelude.{◌≡◌, ◌+◌, ◌*◌, ◌/◌, ◌%◌, ◌<◌, ◌≤◌, length, set};
ghost use Rattle.floor.specs.Floor.{cells};
ghost use Rattle.floor.specs.Lent.{floor_map};
ghost use Rattle.steps.specs.Step.{steps_of};
ghost use Rattle.steps.specs.Way.{Only};
ghost use Rattle.table_theory.specs.Filled.{Filled};
ghost use Rattle.steps.specs.inner.Ranking.{numbered};
ghost use Rattle.route_walker.specs.inner.Walkers.{Stands};
ghost use Rattle.route_legs.specs.inner.Reading.{ReadsRoute};
ghost use Rattle.route_legs.specs.inner.Ahead.{Counted, FewLegs, LegRoom, Wanted, LegsWritten};

use answers::Refusal;
use floor::Floor;
use lengths::Length;
use route_walker::{Walk, Walker};
use steps::Heading;
use table_theory::MARK;

// A way: its length and how many legs it has.
#[derive(Clone, Copy)]
pub struct Way {
    pub length: Length,
    pub legs: usize,
}

// The way ahead of a walker: its length from the start of the walk, and how many legs it has.
fn count_legs(walk: &Walk, start: Walker) -> Way
    requires { Stands (floor_map walk.now.floor) walk.now.table.now numbered start }
    ensures { Counted (floor_map walk.now.floor) walk.now.table.now numbered start result }
{
    let mut walker = start;
    let mut legs: usize = 0;
    while let Some(leg) = walk.leg(walker) {
        walker = leg.after;
        legs += 1;
    }
    Way {
        length: walker.length,
        legs,
    }
}

// A leg's two bytes, put at a place. The buffer stays bytes, as C lends it.
fn put_leg(legs: &mut [u8], at: usize, heading: Heading, count: usize)
    requires { (at + 2 ≤ length legs.old) × (count ≤ 127) }
    ensures { legs.new ≡ set (set legs.old at heading.number) (at + 1) count }
{
    legs[at] = heading.number as u8;
    legs[at + 1] = count as u8;
}

// The legs ahead, written from the front; bytes after the last leg keep their values. They are counted, and their
// length is summed, as in `count_legs`. One loop for both was no plainer: an iterator of the legs is a struct more, and
// each contract would say that its walk stays the same.
fn write_legs(walk: &Walk, start: Walker, legs: &mut [u8]) -> Way
    requires stands { Stands (floor_map walk.now.floor) walk.now.table.now numbered start }
    requires leg_room { LegRoom (floor_map walk.now.floor) walk.now.table.now numbered start legs.old }
    ensures counted { Counted (floor_map walk.now.floor) walk.now.table.now numbered start result }
    ensures legs_written { LegsWritten (floor_map walk.now.floor) walk.now.table.now numbered start
        legs.old legs.new }
{
    let mut walker = start;
    let mut count: usize = 0;
    while let Some(leg) = walk.leg(walker) {
        put_leg(legs, 2 * count, leg.heading, leg.count);
        walker = leg.after;
        count += 1;
    }
    Way {
        length: walker.length,
        legs: count,
    }
}

// The steps of a way, by the table's number: straight and diagonal ones.
fn steps_in(entry: u32) -> usize
    ensures { (result ≡ entry / 65536 + entry % 65536) × (result < 131072) }
{
    (entry / 65536 + entry % 65536) as usize
}

// How many legs a buffer of so many bytes is to be tested for: none if it has two bytes for each step, which is enough;
// else those ahead, which are counted. None is 0 and no case of its own: no buffer is too short for it.
fn legs_wanted(walk: &Walk, start: Walker, bytes: usize) -> usize
    requires stands { Stands (floor_map walk.now.floor) walk.now.table.now numbered start }
    requires few { FewLegs (floor_map walk.now.floor) walk.now.table.now numbered start }
    ensures { Wanted (floor_map walk.now.floor) walk.now.table.now numbered start bytes result }
{
    if 2 * steps_in(walk.table[start.cell]) <= bytes {
        return 0;
    }
    count_legs(walk, start).legs
}

// The first route from start to the goal, read from a table that keeps its promise. The goal is the table's: only the
// promise names it. Refusals: NoWay, LegsShort.
pub fn read_route(
    floor: &Floor,
    table: &[u32],
    start: usize,
    goal: usize,
    legs: &mut [u8],
) -> Result<Way, Refusal>
    requires start_bound { (start < cells (floor_map floor.now)) × (goal < cells (floor_map floor.now)) }
    requires filled { Filled (steps_of (floor_map floor.now)) (Only goal) (cells (floor_map floor.now)) table.now }
    ensures { ReadsRoute (steps_of (floor_map floor.now)) (Only goal) (λ h. h) start legs.old result legs.new }
{
    if table[start] == MARK {
        return Err(Refusal::NoWay);
    }
    let walk = Walk {
        floor: *floor,
        table,
    };
    let walker = walk.stand(start);
    let wanted = legs_wanted(&walk, walker, legs.len());
    if legs.len() < 2 * wanted {
        return Err(Refusal::LegsShort(wanted));
    }
    Ok(write_legs(&walk, walker, legs))
}
