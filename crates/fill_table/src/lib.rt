// Filling a length table by bands, from the map's bytes to the table's entries: the map is loaded into a work array,
// all bands are passed, and the numbers that they leave are stored as entries.
#![tactic(auto)]

ghost use Rattle.std.specs.Prelude.{◌≡◌, ◌+◌, ◌*◌, ◌≤◌, length};
ghost use Rattle.floor.specs.Floor.{cells};
ghost use Rattle.floor.specs.Lent.{floor_map};
ghost use Rattle.steps.specs.Step.{steps_of};
ghost use Rattle.steps.specs.Way.{Only};
ghost use Rattle.table_theory.specs.Filled.{Filled};
ghost use Rattle.fill_steps.specs.inner.Work.{stride, largest};

use calls::Goal;

// The rows that the small scratch has room for, and the places of the small and of the large scratch.
const LOW: usize = 18;

const SMALL: usize = 2600;

const LARGE: usize = 16900;

// Fills the table over a scratch of so many places, enough for the floor and its border. The bands keep their queue in
// the lent table, until the entries are stored.
fn fill_over<const PLACES: usize>(goal: &Goal, table: &mut [u32])
    requires room { ((goal.now.floor.height + 2) * stride ≤ PLACES) × (PLACES ≤ largest) }
    requires table_len { length table.old ≡ cells (floor_map goal.now.floor) }
    ensures { Filled (steps_of (floor_map goal.now.floor)) (Only goal.now.cell)
        (cells (floor_map goal.now.floor)) table.new }
{
    let mut work = [0u32; PLACES];
    let floor = &goal.floor;
    fill_load::load_map(&mut work, floor);
    let place = (goal.cell / floor.width + 1) * fill_steps::STRIDE + goal.cell % floor.width + 1;
    work[place] = fill_steps::GOAL;
    fill_bands::all_bands(&mut work, table, &[place as u32]);
    fill_entries::store_table(&work, floor.width, floor.height, table);
}

// Fills the table: each entry is the shortest length from its cell to the goal, or the mark.
pub fn fill_table(goal: &Goal, table: &mut [u32])
    requires { length table.old ≡ cells (floor_map goal.now.floor) }
    ensures { Filled (steps_of (floor_map goal.now.floor)) (Only goal.now.cell)
        (cells (floor_map goal.now.floor)) table.new }
{
    if goal.floor.height <= LOW {
        fill_over::<SMALL>(goal, table);
    } else {
        fill_over::<LARGE>(goal, table);
    }
}
