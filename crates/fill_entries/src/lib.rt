// The work array's numbers into the table.
#![tactic(auto)]

ghost use Rattle.std.specs.Prelude.{◌≡◌, ◌*◌, ◌/◌, ◌<◌, length};
ghost use Rattle.lengths.specs.inner.Keys.{straight_key};
ghost use Rattle.table_theory.specs.Entry.{pack};
ghost use Rattle.table_theory.specs.inner.Written.{Written};
ghost use Rattle.fill_entries.specs.inner.Entries.{entry_of, Settled, AllSettled, entry_in, entry_of_cell};

use fill_steps::{GOAL, STEP_STRAIGHT, STRIDE, UNREACHED};
use lengths::{DIAGONAL_KEY, STRAIGHT_KEY};
use table_theory::MARK;

// In a key 13860 diagonal steps weigh what 19601 straight ones do. A remainder of one is 5741 diagonal steps, and 8119
// straight ones fewer: 5741 * 19601 = 8119 * 13860 + 1.
const MORE: u32 = 5741;

const FEWER: u32 = 8119;

// How often 13860 goes into a number below twice that.
fn whole_of(number: u32) -> u32
    requires { number < 2 * straight_key }
    ensures { result ≡ number / straight_key }
{
    u32::from(STRAIGHT_KEY <= number)
}

// The table's entry for a number, by how far it is above the goal's: the remainder's diagonal steps are 5741 * rest, of
// which each 13860 are straight ones. How often 13860 goes into them is found nearly by a product, and then by one
// comparison, without a division, so that many entries are made at once.
fn entry_of(number: u32) -> u32
    requires { Settled number }
    ensures { result ≡ pack (entry_of number) }
{
    if number == 0 {
        return MARK;
    }
    if UNREACHED <= number {
        return MARK;
    }
    let above = number - GOAL;
    let rest = above % STEP_STRAIGHT;
    let near = rest * 27145 / 65536;
    let left = rest * MORE - near * STRAIGHT_KEY;
    let more = whole_of(left);
    let diagonal = left - more * STRAIGHT_KEY;
    let straight = above / STEP_STRAIGHT + DIAGONAL_KEY * (near + more) - FEWER * rest;
    straight * 65536 + diagonal
}

// The entries of one row. The width is a number of its own, not read from the lent floor, so that four entries are made
// at once: with the floor's width read at each entry a fill takes a sixth more instructions.
fn store_row(work: &[u32], width: usize, height: usize, table: &mut [u32], row: usize)
    requires all_settled { AllSettled width height work.now }
    requires row_lt_height { row < height }
    requires table_len { length table.old ≡ height * width }
    ensures { Written (entry_in work.now row) (row * width) width table.old table.new }
{
    for column in 0..width {
        table[row * width + column] = entry_of(work[(row + 1) * STRIDE + column + 1]);
    }
}

// The table of a work array that the bands have left.
pub fn store_table(work: &[u32], width: usize, height: usize, table: &mut [u32])
    requires all_settled { AllSettled width height work.now }
    requires table_len { length table.old ≡ height * width }
    ensures { Written (entry_of_cell width work.now) 0 (height * width) table.old table.new }
{
    for row in 0..height {
        store_row(work, width, height, table, row);
    }
}
