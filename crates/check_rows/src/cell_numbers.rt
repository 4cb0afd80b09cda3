// Numbers that stand for a cell while its table is checked. Not an enum: they are added to and compared with lengths.

// An open cell with the mark.
pub const NONE: u32 = 805306368;

// A blocked cell with the mark, and a place off the floor.
pub const WALL: u32 = 1073741824;
