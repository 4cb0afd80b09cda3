// Rooms: the room around a cell, as a rectangle of open cells.
#![tactic(auto)]

ghost use Rattle.floor.specs.Lent.{given};
ghost use Rattle.rooms.specs.Answers.{Rooms};

use answers::Refusal;
use floor::{LARGEST_SIDE, Map, Spot, links};

mod growth;

// A room: its first and last columns and rows.
#[derive(Clone, Copy)]
pub struct Room {
    pub left: usize,
    pub top: usize,
    pub right: usize,
    pub bottom: usize,
}

// The room around a cell: 1, 2, 3, 5, 7, in this order.
#[tactic(auto, unfolding(crate::specs::Answers::room_tests, answers::specs::Refusing::first_refusal))]
pub fn room_around(map: &Map, spot: Spot) -> Result<Room, Refusal>
    ensures { Rooms (given map.now) spot result }
{
    let floor = links::floor_within(LARGEST_SIDE, map)?;
    floor.test_on(Refusal::StartOffFloor, spot)?;
    floor.test_open(Refusal::StartBlocked, spot)?;
    Ok(growth::grown(&floor, spot))
}
