// The number that stands for a cell while its table is checked.
ghost use Rattle.std.specs.Prelude.{◌≡◌};
ghost use Rattle.check_rows.specs.inner.Level.{not_mark, open_number, number_of};

use check_rows::cell_numbers::{NONE, WALL};
use lengths::{DIAGONAL_KEY, STRAIGHT_KEY};
use table_theory::MARK;

// 1 for an entry that is not the mark, else 0.
fn not_mark(entry: u32) -> u32
    ensures { result ≡ not_mark entry }
{
    u32::from(entry != MARK)
}

// The number of an open cell with this entry.
#[tactic(auto, unfolding(check_rows::specs::inner::Level::open_number, lengths::specs::Answers::part_above))]
fn open_number(entry: u32) -> u32
    ensures { result ≡ open_number entry }
{
    let straight = entry / 65536;
    let diagonal = entry % 65536;
    if straight < 16384 && diagonal < 16384 {
        STRAIGHT_KEY * straight + DIAGONAL_KEY * diagonal
    } else {
        NONE + not_mark(entry)
    }
}

// The number of a cell with this entry.
#[tactic(auto, unfolding(check_rows::specs::inner::Level::number_of))]
pub fn number_of(blocked: bool, entry: u32) -> u32
    ensures { result ≡ number_of blocked entry }
{
    if blocked {
        WALL + not_mark(entry)
    } else {
        open_number(entry)
    }
}
