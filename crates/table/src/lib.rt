// The length table: filling one, and checking one from anyone.
#![tactic(auto)]

ghost use Rattle.floor.specs.Lent.{given};
ghost use Rattle.calls.specs.Calls.{to_goal};
ghost use Rattle.table.specs.Answers.{Fills, Checks};

use answers::Refusal;
use floor::{Map, Spot};

// Filling: each entry becomes the shortest length from its cell to the goal, or the mark. Refusals: 1, 2, 3, 4, 6, 8.
pub fn fill(map: &Map, goal: Spot, table: &mut [u32]) -> Result<(), Refusal>
    ensures { Fills (to_goal (given map.now) goal) table.old result table.new }
{
    let goal = calls::goal_of(map, goal, table.len())?;
    fill_table::fill_table(&goal, table);
    Ok(())
}

// Checking: passed exactly if each entry is the shortest length or the mark, else the first cell that differs.
// Refusals: 1, 2, 3, 4, 6, 8, 11.
pub fn check(map: &Map, goal: Spot, table: &[u32]) -> Result<(), Refusal>
    ensures { Checks (to_goal (given map.now) goal) table.now result }
{
    let goal = calls::goal_of(map, goal, table.len())?;
    match check_table::first_wrong(&goal, table) {
        Some(cell) => Err(Refusal::TableWrong(cell)),
        None => Ok(()),
    }
}
