// Routes: finding one, and reading one from a table that is checked first.
#![tactic(auto)]

ghost use Rattle.floor.specs.Floor.{cells};
ghost use Rattle.floor.specs.Lent.{given, floor_map};
ghost use Rattle.calls.specs.Calls.{route};
ghost use Rattle.steps.specs.Way.{Only};
ghost use Rattle.steps.specs.Step.{steps_of};
ghost use Rattle.table_theory.specs.Filled.{Filled};
ghost use Rattle.route_legs.specs.inner.Reading.{ReadsRoute};
ghost use Rattle.route.specs.Answers.{Finds, ReadsTable};

use answers::Refusal;
use calls::Ends;
use floor::{Map, Spot};
use route_legs::Way;

// The route of either call, read from a filled table. Refusals: 9 for no way, 10 with the leg count for too short a
// buffer.
fn read_from(ends: &Ends, table: &[u32], legs: &mut [u8]) -> Result<Way, Refusal>
    requires { Filled (steps_of (floor_map ends.now.goal.floor)) (Only ends.now.goal.cell)
        (cells (floor_map ends.now.goal.floor)) table.now }
    ensures { ReadsRoute (steps_of (floor_map ends.now.goal.floor)) (Only ends.now.goal.cell) (λ h. h)
        ends.now.start legs.old result legs.new }
{
    route_legs::read_route(&ends.goal.floor, table, ends.start, ends.goal.cell, legs)
}

// Finding a route from start to goal: the table is filled, and the legs are written. Refusals: 1 to 10.
pub fn find_route(
    map: &Map,
    start: Spot,
    goal: Spot,
    table: &mut [u32],
    legs: &mut [u8],
) -> Result<Way, Refusal>
    ensures { Finds (route (given map.now) start goal) table.old legs.old result table.new legs.new }
{
    let ends = calls::ends_of(map, start, goal, table.len())?;
    table::fill(map, goal, table)?;
    read_from(&ends, table, legs)
}

// A route from a table, which is checked first and only read. Refusals: 1 to 8, then 11, 9, 10.
pub fn route_from_table(
    map: &Map,
    start: Spot,
    goal: Spot,
    table: &[u32],
    legs: &mut [u8],
) -> Result<Way, Refusal>
    ensures { ReadsTable (route (given map.now) start goal) table.now legs.old result legs.new }
{
    let ends = calls::ends_of(map, start, goal, table.len())?;
    match table::check(map, goal, table) {
        Err(wrong) => Err(wrong),
        Ok(()) => read_from(&ends, table, legs),
    }
}
