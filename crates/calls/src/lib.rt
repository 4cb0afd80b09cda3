// What calls that take a table test: a call to a goal, and one from a start to a goal.
#![tactic(auto)]

ghost use Rattle.std.specs.Prelude.{◌≡◌, IfOk};
ghost use Rattle.answers.specs.Refusing.{outcome, first_refusal};
ghost use Rattle.floor.specs.Lent.{given};
ghost use Rattle.calls.specs.Calls.{to_goal, goal_tests, route, route_tests};
ghost use Rattle.calls.specs.inner.Tested.{Aimed, Placed};

use answers::Refusal;
use floor::{LARGEST_SIDE, Map, Spot, links};

mod ends;

pub use ends::{Ends, Goal};

// The goal of a call that fills or checks a table: 1, 2, 3, 4, 6, 8, in this order.
#[tactic(auto, unfolding(crate::specs::Calls::goal_tests, answers::specs::Refusing::first_refusal))]
pub fn goal_of<'a>(map: &Map<'a>, goal: Spot, entries: usize) -> Result<Goal<'a>, Refusal>
    ensures tested { outcome result ≡ first_refusal (goal_tests (to_goal (given map.now) goal) entries) }
    ensures aimed { IfOk result (Aimed (given map.now) goal entries) }
{
    let floor = links::floor_within(LARGEST_SIDE, map)?;
    floor.test_table(entries)?;
    floor.test_on(Refusal::GoalOffFloor, goal)?;
    floor.test_open(Refusal::GoalBlocked, goal)?;
    Ok(Goal {
        floor,
        cell: floor.cell_of(goal),
    })
}

// The ends of a call for a route: 1 to 8 as numbered.
#[tactic(auto, unfolding(crate::specs::Calls::route_tests, answers::specs::Refusing::first_refusal))]
pub fn ends_of<'a>(
    map: &Map<'a>,
    start: Spot,
    goal: Spot,
    entries: usize,
) -> Result<Ends<'a>, Refusal>
    ensures tested { outcome result ≡ first_refusal (route_tests (route (given map.now) start goal) entries) }
    ensures placed { IfOk result (Placed (given map.now) start goal entries) }
{
    let floor = links::floor_within(LARGEST_SIDE, map)?;
    floor.test_table(entries)?;
    floor.test_places(start, goal)?;
    let goal = Goal {
        floor,
        cell: floor.cell_of(goal),
    };
    Ok(Ends {
        goal,
        start: floor.cell_of(start),
    })
}
