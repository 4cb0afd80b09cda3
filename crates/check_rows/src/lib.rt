// What judges the cells of a length table inside a window of three rows of numbers, one number for each cell: whether
// each cell of the middle row is as its neighbours make it.
#![tactic(auto)]

pub mod cell_numbers;
mod least;
mod rows;
mod window;

pub use rows::Row;
pub use window::{ACROSS, MIDDLE, Window};
