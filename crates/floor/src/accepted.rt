// An accepted floor, and reading its cells.
ghost use Rattle.std.specs.Prelude.{◌≡◌, ◌/◌, ◌^◌, ◌<◌, eqb};
ghost use Rattle.floor.specs.Floor.{map_of, bytes_per_row};
ghost use Rattle.floor.specs.inner.Ready.{SoundFloor};

use crate::Spot;

// A floor whose sides are 1 to 128, and whose map has the bytes of its rows.
#[derive(Clone, Copy)]
pub struct Floor<'a> {
    pub width: usize,
    pub height: usize,
    pub bytes: &'a [u8],
    pub ghost sound: { SoundFloor (map_of width height bytes.now) },
}

// The masks of the bits from a place on in a byte.
static PADDING: [u8; 8] = [255, 254, 252, 248, 240, 224, 192, 128];

// How many bytes a row of the map has.
pub fn row_bytes(width: usize) -> usize
    ensures { result ≡ bytes_per_row width }
{
    width.div_ceil(8)
}

// Whether no bit of the byte is set from place k on.
fn clear_from(byte: u8, k: usize) -> bool
    requires { k < 8 }
    ensures { result ≡ eqb (byte / 2 ^ k) 0 }
{
    byte & PADDING[k] == 0
}

// A column and a row are two numbers where a loop counts them one by one; a place that is named as a whole is a `Spot`.
impl Floor<'_> {
    ghost use Rattle.std.specs.Prelude.{◌+◌, ◌*◌, slice_index};
    ghost use Rattle.floor.specs.Floor.{blocked, open?, cells, spot_cell};
    ghost use Rattle.floor.specs.Refusals.{past_width};
    ghost use Rattle.floor.specs.Lent.{floor_map};

    // The byte of the map that a column stands in: eight cells of its row.
    pub fn byte_at(&self, column: usize, row: usize) -> u8
        requires { (column < self.now.width) × (row < self.now.height) }
        ensures { result ≡ slice_index self.now.bytes.now (row * bytes_per_row self.now.width + column / 8) }
    {
        self.bytes[row * row_bytes(self.width) + column / 8]
    }

    // Whether the cell's bit is set: bit 0, the least, is the leftmost of its byte's eight cells.
    pub fn blocked_at(&self, column: usize, row: usize) -> bool
        requires { (column < self.now.width) × (row < self.now.height) }
        ensures { result ≡ blocked (floor_map self.now) column row }
    {
        (self.byte_at(column, row) >> (column % 8)) & 1 == 1
    }

    // Whether the cell is on the floor and open.
    pub fn open_at(&self, column: usize, row: usize) -> bool
        ensures { result ≡ open? (floor_map self.now) column row }
    {
        if column < self.width && row < self.height {
            return !self.blocked_at(column, row);
        }
        false
    }

    // How many cells the floor has.
    pub fn cells(&self) -> usize
        ensures { result ≡ cells (floor_map self.now) }
    {
        self.height * self.width
    }

    // The number of a place's cell.
    pub fn cell_of(&self, spot: Spot) -> usize
        requires { (spot.column < self.now.width) × (spot.row < self.now.height) }
        ensures { result ≡ spot_cell (floor_map self.now) spot }
    {
        spot.row * self.width + spot.column
    }

    // 3: whether a bit past the width is set, in some row's last byte.
    pub fn past_width(&self) -> bool
        ensures { result ≡ past_width (floor_map self.now) }
    {
        let used = self.width % 8;
        if used == 0 {
            return false;
        }
        for row in 0..self.height {
            if !clear_from(self.byte_at(self.width - 1, row), used) {
                return true;
            }
        }
        false
    }
}
