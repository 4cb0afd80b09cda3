// The window: three rows of numbers, one below the other, with a border at each end of a row.
ghost use Rattle.check_rows.specs.inner.Window.{LowNumbers};

use crate::cell_numbers::WALL;

// A row's numbers: those of the most columns that a floor has, and a border at each end.
pub const ACROSS: usize = 130;

// The place of the first column in the middle row.
pub const MIDDLE: usize = ACROSS + 1;

// The numbers of three rows.
pub const NUMBERS: usize = 3 * ACROSS;

// Three rows of numbers. No number is above that of a blocked cell, so that a few of them can be added.
#[derive(Drop)]
pub struct Window {
    pub numbers: [u32; NUMBERS],
    pub ghost low: { LowNumbers numbers },
}

impl Window {
    ghost use Rattle.std.specs.Prelude.{◌≡◌, ◌+◌, ◌<◌, slice_index};
    ghost use Rattle.table_theory.specs.inner.Written.{Written};
    ghost use Rattle.check_rows.specs.inner.Window.{at, Walled};

    // Nothing but walls.
    pub fn walls() -> Self
        ensures { Walled result.numbers }
    {
        Window {
            numbers: [WALL; NUMBERS],
        }
    }

    // The number at a row and a column, the columns counted from the border on.
    pub(crate) fn at(&self, row: usize, column: usize) -> u32
        requires { (row < 3) × (column < 130) }
        ensures { result ≡ at self.now.numbers row column }
    {
        self.numbers[row * ACROSS + column]
    }

    // One row further down; the last row stays.
    pub fn move_down(&mut self)
        ensures { Written (λ i. slice_index self.old.numbers (i + 130)) 0 260 self.old.numbers self.new.numbers }
    {
        self.numbers.copy_within(ACROSS.., 0);
    }
}
