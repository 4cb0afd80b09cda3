// The inner pass of checking a length table: the lowest cell whose entry is malformed, or not what its neighbours make
// it. One pass over the cells, in cell order, through a window of three rows of numbers, one number for each cell.
#![tactic(auto)]

ghost use Rattle.std.specs.Prelude.{◌≡◌, length};
ghost use Rattle.floor.specs.Floor.{cells};
ghost use Rattle.floor.specs.Lent.{floor_map};
ghost use Rattle.steps.specs.Step.{steps_of};
ghost use Rattle.steps.specs.Way.{Only};
ghost use Rattle.table_theory.specs.Made.{Right};
ghost use Rattle.table_theory.specs.inner.First.{FirstWrong};

use calls::Goal;
use check_rows::{Row, Window};
use checked::Checked;

mod cell_numbers;
mod checked;

// The lowest cell whose entry is malformed or not what its neighbours make it, where there is one. The window goes down
// the floor: when a row is judged, it shows that row between its neighbours.
pub fn first_wrong(goal: &Goal, table: &[u32]) -> Option<usize>
    requires { length table.now ≡ cells (floor_map goal.now.floor) }
    ensures { FirstWrong (Right (steps_of (floor_map goal.now.floor)) (Only goal.now.cell) table.now)
        (cells (floor_map goal.now.floor)) result }
{
    let floor = goal.floor;
    let checked = Checked {
        floor,
        entries: table,
    };
    let mut window = Window::walls();
    checked.show(0, &mut window, 1);
    for row in 0..floor.height {
        checked.show(row + 1, &mut window, 2);
        let first = row * floor.width;
        let wrong = window.first_wrong(Row {
            width: floor.width,
            first: first as u32,
            goal: goal.cell as u32,
        });
        if let Some(column) = wrong {
            return Some(first + column);
        }
        window.move_down();
    }
    None
}
