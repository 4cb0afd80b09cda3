// What the neighbours make a cell, for a table from anyone, and the first cell that differs from it.
use crate::grid::{Cell, Floor, Grid};
use crate::reach::Lengths;
use crate::sizes;
use crate::sizes::Steps;

// A floor, the lengths that a table has for its cells, and the goal.
#[derive(Clone, Copy)]
struct Judge<'a> {
    grid: &'a Grid,
    lengths: &'a Lengths,
    goal: Cell,
}

impl Judge<'_> {
    // What its neighbours make a cell.
    fn made(&self, cell: Cell) -> Option<Steps> {
        if !self.grid.is_open(cell) {
            return None;
        }
        if cell == self.goal {
            return Some(Steps::ZERO);
        }
        self.lengths.least_over(self.grid, cell)
    }

    // Whether the entry of a cell is malformed, or not what its neighbours make it.
    fn is_wrong(&self, cell: Cell, entry: u32) -> bool {
        let is_malformed = entry != sizes::MARK && Steps::of_entry(entry).is_none();
        is_malformed || entry != sizes::entry_of(self.made(cell))
    }

    // The first cell whose entry is wrong, if there is one.
    fn first_wrong(&self, table: &[u32]) -> Option<usize> {
        let floor = self.grid.floor;
        table
            .iter()
            .enumerate()
            .position(|(n, entry)| self.is_wrong(floor.cell(n), *entry))
    }
}

// Lays a table out as lengths.
fn lay_table(floor: Floor, table: &[u32], lengths: &mut Lengths) {
    lengths.clear(floor, None);
    for (n, entry) in table.iter().enumerate() {
        lengths.set(floor.cell(n).place(), Steps::of_entry(*entry));
    }
}

// The first cell of a table that is wrong, if there is one; the lengths are left as the table has them.
pub fn first_wrong(grid: &Grid, table: &[u32], goal: Cell, lengths: &mut Lengths) -> Option<usize> {
    lay_table(grid.floor, table, lengths);
    let judge = Judge {
        grid,
        lengths,
        goal,
    };
    judge.first_wrong(table)
}
