// Lengths to a cell, or from it, by sweeping over the floor until nothing changes.
use crate::ask::ENTRIES;
use crate::grid::{Board, CELLS, Cell, Floor, Grid, Heading};
use crate::sizes;
use crate::sizes::Steps;

// The lengths of the cells of a floor; none where there is no way.
pub type Lengths = Board<Option<Steps>>;

impl Lengths {
    // The length over a step from an open cell, if there is one and the step leads there.
    pub fn over(&self, grid: &Grid, cell: Cell, heading: Heading) -> Option<Steps> {
        let there = self.at(cell.head(heading))?;
        if grid.leads(cell, heading) {
            return Some(there.plus(heading.step()));
        }
        None
    }

    // The least length over the steps from an open cell, the straight ones and then the diagonal ones: a loop over four
    // headings is unrolled. One chain over all eight, by `min_by_key`, takes nearly half as many instructions more.
    pub fn least_over(&self, grid: &Grid, cell: Cell) -> Option<Steps> {
        let mut least = None;
        for heading in Heading::STRAIGHT {
            least = sizes::shorter_of(least, self.over(grid, cell, heading));
        }
        for heading in Heading::DIAGONAL {
            least = sizes::shorter_of(least, self.over(grid, cell, heading));
        }
        least
    }

    // Shortens the length of a cell, if it is open and a step from it makes it shorter: whether one does.
    fn shorten(&mut self, grid: &Grid, cell: Cell) -> bool {
        if !grid.is_open(cell) {
            return false;
        }
        match (self.least_over(grid, cell), self.at(cell.place())) {
            (None, _) => false,
            (Some(least), Some(length)) if !least.is_shorter(length) => false,
            (least, _) => {
                self.set(cell.place(), least);
                true
            }
        }
    }

    // Sweeps over a row there and back: whether anything changed.
    fn sweep_row(&mut self, grid: &Grid, row: usize) -> bool {
        let width = grid.floor.sides.width;
        let mut changed = false;
        for column in (0..width).chain((0..width).rev()) {
            changed |= self.shorten(grid, Cell::new(column, row));
        }
        changed
    }

    // Sweeps over the floor from the first row to the last, or from the last to the first: whether anything changed.
    // Tried as one sweep there and back, with no flag: it took a quarter longer.
    fn sweep(&mut self, grid: &Grid, back: bool) -> bool {
        let height = grid.floor.sides.height;
        let mut changed = false;
        for i in 0..height {
            let row = if back { height - 1 - i } else { i };
            changed |= self.sweep_row(grid, row);
        }
        changed
    }

    // Finds the lengths to a cell, which are those from it, by as many sweeps as a way can have steps, and one that
    // finds nothing to change.
    pub fn spread(&mut self, grid: &Grid, cell: Cell) {
        self.clear(grid.floor, None);
        self.set(cell.place(), Some(Steps::ZERO));
        for i in 0..CELLS {
            if !self.sweep(grid, i % 2 == 1) {
                return;
            }
        }
    }

    // Writes the lengths of a floor's cells into a table.
    pub fn write(&self, floor: Floor, table: &mut [u32; ENTRIES]) {
        let entries = &mut table[..floor.cells()];
        for (n, entry) in entries.iter_mut().enumerate() {
            *entry = sizes::entry_of(self.at(floor.cell(n).place()));
        }
    }
}
