// The growth of a room: north and south along the column, then west and east by whole columns.
ghost use Rattle.std.specs.Prelude.{◌≡◌, ◌≤◌, ◌<◌};
ghost use Rattle.floor.specs.Floor.{open?};
ghost use Rattle.floor.specs.Lent.{floor_map};
ghost use Rattle.rooms.specs.Room.{column_open, room_of};
ghost use Rattle.rooms.specs.inner.Runs.{Counts};

use crate::Room;
use floor::{Floor, Spot};

// How many of the first numbers pass a test, up to the first that does not.
fn run<F: Fn(usize) -> bool>(most: usize, test: F) -> usize
    requires { (i : _) → i < most → F.pre test i }
    ensures within { result ≤ most }
    ensures counts { Counts (F.post test) most result }
{
    for i in 0..most {
        if !test(i) {
            return i;
        }
    }
    most
}

// Whether a cell of the floor is open: `open_at` would test the sides again for each.
fn is_open(floor: &Floor, column: usize, row: usize) -> bool
    requires { (column < floor.now.width) × (row < floor.now.height) }
    ensures { result ≡ open? (floor_map floor.now) column row }
{
    !floor.blocked_at(column, row)
}

// Whether the whole column from top to bottom is open.
fn column_open(floor: &Floor, top: usize, bottom: usize, column: usize) -> bool
    requires { (column < floor.now.width) × (bottom < floor.now.height) }
    ensures { result ≡ column_open (floor_map floor.now) top bottom column }
{
    for row in top..bottom + 1 {
        if !is_open(floor, column, row) {
            return false;
        }
    }
    true
}

// The room grown from a cell of the floor.
pub fn grown(floor: &Floor, spot: Spot) -> Room
    requires { (spot.column < floor.now.width) × (spot.row < floor.now.height) }
    ensures { result ≡ room_of (floor_map floor.now) spot.column spot.row }
{
    let Spot { column, row } = spot;
    let north = run(row, |i| is_open(floor, column, row - 1 - i));
    let below = floor.height - 1 - row;
    let south = run(below, |i| is_open(floor, column, row + 1 + i));
    let (top, bottom) = (row - north, row + south);
    let west = run(column, |i| column_open(floor, top, bottom, column - 1 - i));
    let past = floor.width - 1 - column;
    let east = run(past, |i| column_open(floor, top, bottom, column + 1 + i));
    Room {
        left: column - west,
        top,
        right: column + east,
        bottom,
    }
}
