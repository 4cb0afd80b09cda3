// A table that is checked, beside its floor, and the numbers that the window shows of it.
ghost use Rattle.std.specs.Prelude.{◌≡◌, length};
ghost use Rattle.floor.specs.Floor.{map_of, cells};

use crate::cell_numbers;
use check_rows::cell_numbers::WALL;
use check_rows::{ACROSS, Window};
use floor::{Floor, Spot};

// A floor, and a table with an entry for each of its cells.
#[derive(Clone, Copy)]
pub struct Checked<'a> {
    pub floor: Floor<'a>,
    pub entries: &'a [u32],
    pub ghost size: { length entries.now ≡ cells (map_of floor.width floor.height floor.bytes.now) },
}

impl Checked<'_> {
    ghost use Rattle.std.specs.Prelude.{◌+◌, ◌*◌, ◌<◌, ◌≤◌};
    ghost use Rattle.floor.specs.Lent.{floor_map};
    ghost use Rattle.table_theory.specs.inner.Written.{Written};
    ghost use Rattle.check_table.specs.inner.Rows.{in_row, RowNumbers};

    // The number of a cell of the floor.
    #[tactic(auto, using(check_rows::proofs::CellNumbers::number_read))]
    fn number_at(&self, column: usize, row: usize) -> u32
        requires { (column < self.now.floor.width) × (row < self.now.floor.height) }
        ensures { result ≡ in_row (floor_map self.now.floor) self.now.entries.now row column }
    {
        let cell = self.floor.cell_of(Spot { column, row });
        cell_numbers::number_of(self.floor.blocked_at(column, row), self.entries[cell])
    }

    // The numbers of a row of the floor.
    fn load_row(&self, row: usize, numbers: &mut [u32])
        requires on { row < self.now.floor.height }
        requires room { length numbers.old ≡ self.now.floor.width }
        ensures { RowNumbers (floor_map self.now.floor) self.now.entries.now row numbers.new }
    {
        for (column, number) in numbers.iter_mut().enumerate() {
            *number = self.number_at(column, row);
        }
    }

    // The numbers of a row of the floor, or walls for the row below the last.
    #[tactic(auto, using(check_rows::proofs::CellNumbers::number_below))]
    fn next_row(&self, row: usize, numbers: &mut [u32])
        requires rows { row ≤ self.now.floor.height }
        requires room { length numbers.old ≡ self.now.floor.width }
        ensures { RowNumbers (floor_map self.now.floor) self.now.entries.now row numbers.new }
    {
        if row < self.floor.height {
            self.load_row(row, numbers);
        } else {
            numbers.fill(WALL);
        }
    }

    // Shows such a row in a row of the window.
    #[tactic(auto, using(std::proofs::lemmas::List::places, check_rows::proofs::CellNumbers::number_low))]
    pub fn show(&self, row: usize, window: &mut Window, at: usize)
        requires rows { row ≤ self.now.floor.height }
        requires at_bound { at < 3 }
        ensures { Written (in_row (floor_map self.now.floor) self.now.entries.now row) (at * 130 + 1)
            self.now.floor.width window.old.numbers window.new.numbers }
    {
        let from = at * ACROSS + 1;
        self.next_row(row, &mut window.numbers[from..from + self.floor.width]);
    }
}
