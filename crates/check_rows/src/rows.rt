// The cells of the window's middle row: whether each is as its neighbours make it, and the first that is not.
ghost use Rattle.std.specs.Prelude.{◌≡◌, ◌+◌, ◌≤◌, ◌<◌, false};
ghost use Rattle.table_theory.specs.inner.First.{FirstWrong};
ghost use Rattle.check_rows.specs.inner.Window.{differs_in, start_of, differs_at, differing};

use crate::cell_numbers::{NONE, WALL};
use crate::{MIDDLE, Window};

// The row of the floor that stands in the window's middle row: its width, its first cell, and the goal's cell. Cells
// are u32 here, as wide as the numbers of the window: with usize a check takes 7 % more instructions.
#[derive(Clone, Copy)]
pub struct Row {
    pub width: usize,
    pub first: u32,
    pub goal: u32,
    pub ghost narrow: { width ≤ 128 },
    pub ghost within: { first < 16384 },
}

impl Row {
    // What the cell at a column starts at: 0 if it is the goal's.
    fn start_at(self, column: usize) -> u32
        requires { column < 128 }
        ensures { result ≡ start_of self.goal (self.first + column) }
    {
        if self.first + column as u32 == self.goal {
            0
        } else {
            NONE
        }
    }
}

impl Window {
    // Whether the number at a column of the middle row is neither a wall nor the least.
    #[tactic(auto, unfolding(crate::specs::inner::Window::differs_in))]
    fn differs(&self, column: usize, start: u32) -> bool
        requires { column < 128 }
        ensures { result ≡ differs_in self.now.numbers column start }
    {
        let number = self.numbers[MIDDLE + column];
        number != self.least(column, start) && number != WALL
    }

    // Whether the cell at a column of the row is not as its neighbours make it.
    fn differs_at(&self, row: Row, column: usize) -> bool
        requires { column < 128 }
        ensures { result ≡ differs_at self.now.numbers row.goal row.first column }
    {
        self.differs(column, row.start_at(column))
    }

    // How many cells of the row differ. A sum over all of them, with no way out, is done for several at a time;
    // `filter` and `count` take twice as many instructions.
    #[tactic(auto, using(crate::proofs::OneMore::counting), unfolding(crate::specs::inner::Window::differing))]
    fn differing_in(&self, row: Row) -> u32
        ensures { result ≡ differing self.now.numbers row.goal row.first row.width }
    {
        let mut count: u32 = 0;
        for column in 0..row.width {
            count += u32::from(self.differs_at(row, column));
        }
        count
    }

    // The first column of the row whose cell differs: they are looked at one by one only where some cell does.
    pub fn first_wrong(&self, row: Row) -> Option<usize>
        ensures { FirstWrong (λ c. differs_at self.now.numbers row.goal row.first c ≡ false) row.width result }
    {
        if self.differing_in(row) == 0 {
            return None;
        }
        (0..row.width).find(|column| self.differs_at(row, *column))
    }
}
