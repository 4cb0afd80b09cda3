// The room around a cell: up and down from the cell, then by whole columns to the left and to the right, as far as all
// is open.
use crate::ask::{Spot, VALUES};
use crate::grid::{Cell, Grid};

// Whether a column is open from a row to another.
fn is_clear(grid: &Grid, column: usize, top: usize, bottom: usize) -> bool {
    (top..=bottom).all(|row| grid.is_open(Cell::new(column, row)))
}

// The room around an open cell: its left, top, right and bottom.
pub fn room(grid: &Grid, around: Spot) -> [usize; VALUES] {
    let Spot { column, row } = around;
    let top = (0..row)
        .rev()
        .take_while(|above| is_clear(grid, column, *above, *above))
        .last()
        .unwrap_or(row);
    let bottom = (row..grid.floor.sides.height)
        .take_while(|below| is_clear(grid, column, *below, *below))
        .last()
        .unwrap_or(row);
    let left = (0..column)
        .rev()
        .take_while(|before| is_clear(grid, *before, top, bottom))
        .last()
        .unwrap_or(column);
    let right = (column..grid.floor.sides.width)
        .take_while(|after| is_clear(grid, *after, top, bottom))
        .last()
        .unwrap_or(column);
    [left, top, right, bottom]
}
