// The map's bytes into the work array.
#![tactic(auto)]

ghost use Rattle.std.specs.Prelude.{◌≡◌, ◌+◌, ◌-◌, ◌*◌, ◌<◌};
ghost use Rattle.floor.specs.Floor.{bit};
ghost use Rattle.floor.specs.Lent.{floor_map};
ghost use Rattle.fill_steps.specs.inner.Work.{unreached};
ghost use Rattle.fill_load.specs.inner.Load.{ByteRun, Prefix};

use fill_steps::{STRIDE, UNREACHED};
use floor::Floor;

// The numbers of four cells, for each value of the four bits of their map, lowest bit first: UNREACHED where the bit is
// clear, else 0.
static FOURS: [[u32; 4]; 16] = [
    [UNREACHED, UNREACHED, UNREACHED, UNREACHED],
    [0, UNREACHED, UNREACHED, UNREACHED],
    [UNREACHED, 0, UNREACHED, UNREACHED],
    [0, 0, UNREACHED, UNREACHED],
    [UNREACHED, UNREACHED, 0, UNREACHED],
    [0, UNREACHED, 0, UNREACHED],
    [UNREACHED, 0, 0, UNREACHED],
    [0, 0, 0, UNREACHED],
    [UNREACHED, UNREACHED, UNREACHED, 0],
    [0, UNREACHED, UNREACHED, 0],
    [UNREACHED, 0, UNREACHED, 0],
    [0, 0, UNREACHED, 0],
    [UNREACHED, UNREACHED, 0, 0],
    [0, UNREACHED, 0, 0],
    [UNREACHED, 0, 0, 0],
    [0, 0, 0, 0],
];

// The number of a byte's cell: UNREACHED if its bit is clear, else 0.
fn number_of(byte: u8, place: usize) -> u32
    requires { place < 8 }
    ensures { result ≡ (1 - bit place byte) * unreached }
{
    FOURS[(byte as usize >> (place / 4 * 4)) % 16][place % 4]
}

// `Prefix` says how much is loaded, and grows with each byte and row, so it stays a clause of the three that load.

// The first cells of one map byte, as many as count says.
fn load_byte(work: &mut [u32], floor: &Floor, row: usize, column: usize, count: usize)
    requires byte_run { ByteRun (floor_map floor.now) row column count }
    requires prefix { Prefix (floor_map floor.now) column row work.old }
    ensures { Prefix (floor_map floor.now) (column + count) row work.new }
{
    let byte = floor.byte_at(column, row);
    let first = (row + 1) * STRIDE + column + 1;
    for i in 0..count {
        work[first + i] = number_of(byte, i);
    }
}

// The cells of one row, byte after byte: whole bytes, and the part of one that may be left.
fn load_row(work: &mut [u32], floor: &Floor, row: usize)
    requires row_on { row < floor.now.height }
    requires prefix { Prefix (floor_map floor.now) 0 row work.old }
    ensures { Prefix (floor_map floor.now) floor.now.width row work.new }
{
    let whole = floor.width / 8;
    for k in 0..whole {
        load_byte(work, floor, row, 8 * k, 8);
    }
    if 8 * whole < floor.width {
        load_byte(work, floor, row, 8 * whole, floor.width - 8 * whole);
    }
}

// The floor's cells, row after row; the border stays blocked.
pub fn load_map(work: &mut [u32], floor: &Floor)
    requires { Prefix (floor_map floor.now) 0 0 work.old }
    ensures { Prefix (floor_map floor.now) 0 floor.now.height work.new }
{
    for row in 0..floor.height {
        load_row(work, floor, row);
    }
}
