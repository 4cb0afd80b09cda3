// Refusals 1 to 8, in their order.
use crate::ask::{Call, MAP, Refused, Sides, Spot};
use crate::grid;
use crate::grid::Floor;

// A refusal, if it is so.
fn refuse_if(so: bool, number: usize) -> Result<(), Refused> {
    if so {
        return Err(Refused::numbered(number));
    }
    Ok(())
}

// Whether a bit past the width is set in a row of the map.
fn spills(map: &[u8; MAP], sides: Sides, row: usize) -> bool {
    let column = sides.width;
    grid::byte_at(map, sides, Spot { column, row }) >> (column % 8) != 0
}

// Whether a bit past the width is set.
fn is_spilt(map: &[u8; MAP], sides: Sides) -> bool {
    sides.width % 8 != 0 && (0..sides.height).any(|row| spills(map, sides, row))
}

// Accepting a floor: 1, 2, 3.
fn of_floor(call: Call, map: &[u8; MAP]) -> Result<Floor, Refused> {
    let sides = call.sides;
    let floor = Floor::new(sides).ok_or(Refused::numbered(1))?;
    refuse_if(call.bytes != sides.bytes(), 2)?;
    refuse_if(is_spilt(map, sides), 3)?;
    Ok(floor)
}

// Whether a spot is off the floor.
fn is_off(sides: Sides, spot: Spot) -> bool {
    sides.width <= spot.column || sides.height <= spot.row
}

// The table's length and the places of a call: 4 to 8.
fn of_places(call: Call, map: &[u8; MAP]) -> Result<(), Refused> {
    let sides = call.sides;
    let has_start = call.kind.has_start();
    let has_goal = call.kind.has_goal();
    refuse_if(has_goal && call.entries != sides.cells(), 4)?;
    refuse_if(has_start && is_off(sides, call.start), 5)?;
    refuse_if(has_goal && is_off(sides, call.goal), 6)?;
    refuse_if(has_start && grid::is_set(map, sides, call.start), 7)?;
    refuse_if(has_goal && grid::is_set(map, sides, call.goal), 8)
}

// A call on a floor: its floor; 1 to 8.
pub fn of_call(call: Call, map: &[u8; MAP]) -> Result<Floor, Refused> {
    let floor = of_floor(call, map)?;
    of_places(call, map)?;
    Ok(floor)
}
