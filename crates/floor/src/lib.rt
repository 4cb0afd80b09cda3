// The floor: accepting one, reading its cells, and the tests of floors and places.
#![tactic(auto)]

ghost use Rattle.floor.specs.Lent.{given};
ghost use Rattle.floor.specs.Answers.{Accepts};

use answers::Refusal;

mod accepted;
pub mod links;

pub use accepted::Floor;

// The most columns, and the most rows, of a floor.
pub const LARGEST_SIDE: usize = 128;

// A map as a call is lent it: a floor's width and height, and the bytes with a bit for each cell. Any are taken.
#[derive(Clone, Copy)]
pub struct Map<'a> {
    pub width: usize,
    pub height: usize,
    pub bytes: &'a [u8],
}

// A column and a row.
#[derive(Clone, Copy, PartialEq, Eq)]
pub struct Spot {
    pub column: usize,
    pub row: usize,
}

// A floor's width and height, 1 to 128 each.
#[derive(Clone, Copy, PartialEq, Eq)]
pub struct Sides {
    pub width: usize,
    pub height: usize,
}

// Accepting a floor: 1, 2, 3, in this order.
pub fn accept(map: &Map) -> Result<Sides, Refusal>
    ensures { Accepts (given map.now) result }
{
    let floor = links::floor_within(LARGEST_SIDE, map)?;
    Ok(Sides {
        width: floor.width,
        height: floor.height,
    })
}
