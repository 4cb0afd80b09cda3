// The eight headings, and the permitted steps.
#![tactic(auto)]

ghost use Rattle.std.specs.Prelude.{◌≡◌, ◌≤◌, ◌<◌};
ghost use Rattle.floor.specs.Floor.{cells};
ghost use Rattle.floor.specs.Lent.{floor_map};
ghost use Rattle.steps.specs.inner.Leading.{open_past, permitted as permitted_of, lead_of};

use floor::{Floor, Spot};

mod heading;

pub use heading::{Change, Heading};

// Whether the cell is open, its column and row counted from one further.
#[tactic(auto, unfolding(crate::specs::inner::Leading::open_past))]
fn open_past(floor: &Floor, column: usize, row: usize) -> bool
    ensures { result ≡ open_past (floor_map floor.now) column row }
{
    1 <= column && 1 <= row && floor.open_at(column - 1, row - 1)
}

// Whether the step from (column, row) by the changes is permitted: both ends and the two cells beside are open.
#[tactic(auto, unfolding(crate::specs::inner::Leading::permitted))]
fn permitted(floor: &Floor, change: Change, column: usize, row: usize) -> bool
    requires changes { (change.column ≤ 2) × (change.row ≤ 2) }
    requires place { (column < 128) × (row < 128) }
    ensures { result ≡ permitted_of (floor_map floor.now) change.column change.row column row }
{
    open_past(floor, column + 1, row + 1)
        && open_past(floor, column + change.column, row + change.row)
        && open_past(floor, column + 1, row + change.row)
        && open_past(floor, column + change.column, row + 1)
}

// Where a heading leads from a cell: to a cell by a permitted step, or nowhere.
pub fn lead_of(floor: &Floor, heading: Heading, cell: usize) -> Option<usize>
    requires { cell < cells (floor_map floor.now) }
    ensures { result ≡ lead_of (floor_map floor.now) heading.number cell }
{
    let change = heading.change();
    let column = cell % floor.width;
    let row = cell / floor.width;
    if !permitted(floor, change, column, row) {
        return None;
    }
    Some(floor.cell_of(Spot {
        column: column + change.column - 1,
        row: row + change.row - 1,
    }))
}
