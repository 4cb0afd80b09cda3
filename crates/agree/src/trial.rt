// What is tried on a floor: the floor itself, rooms, and for each goal a table, true and altered, checked and read, and
// routes to the goal with leg buffers of several lengths.
ghost use Rattle.std.specs.Prelude.{◌≤◌};

use crate::measures;
use try_calls::alter::Alteration;
use try_calls::{Bench, Trial};
use try_floors::random::Random;
use try_solver::ask::{Call, Kind, Length, Sides, Spot};

// The spot of a cell of a floor, or just off it.
fn spot_of(sides: Sides, cell: usize) -> Spot {
    let width = sides.width.max(1);
    Spot {
        column: cell % width,
        row: cell / width,
    }
}

// A call from a cell.
pub fn from(call: Call, cell: usize) -> Call {
    Call {
        start: spot_of(call.sides, cell),
        ..call
    }
}

// A call to a cell.
pub fn to(call: Call, cell: usize) -> Call {
    Call {
        goal: spot_of(call.sides, cell),
        ..call
    }
}

// A call on a floor, over its whole map and table: accepting it.
pub fn on_floor(sides: Sides) -> Call {
    let spot = Spot { column: 0, row: 0 };
    let length = Length {
        straight: 0,
        diagonal: 0,
    };
    Call {
        kind: Kind::Floors,
        sides,
        bytes: sides.bytes(),
        entries: sides.cells(),
        room: 0,
        start: spot,
        goal: spot,
        size: 0,
        length,
        other: length,
    }
}

// The bytes that so many legs take, or 16,384 of them.
fn bytes_of(legs: usize) -> usize
    ensures { result ≤ 32768 }
{
    2 * legs.min(16384)
}

// Asks for the room around a cell.
fn try_room(bench: &mut Bench, call: Call, cell: usize) {
    let call = Call {
        kind: Kind::Rooms,
        ..from(call, cell)
    };
    bench.attempt(call);
}

// Fills the goal's table, checks it after it is altered in each way, and reads a route from it as it then stands.
fn try_table(bench: &mut Bench, call: Call, seed: Random) {
    let fill = Call {
        kind: Kind::Tables,
        ..call
    };
    let check = Call {
        kind: Kind::Checks,
        ..call
    };
    let read = Call {
        kind: Kind::ReadRoutes,
        room: bytes_of(call.entries),
        ..call
    };
    for alteration in Alteration::ALL {
        bench.attempt(fill);
        bench.alter(alteration, call.entries, seed);
        bench.attempt_trial(Trial {
            line: alteration.line(),
            ..Trial::from(check)
        });
        bench.attempt(read);
    }
}

// Tries a call with leg buffers of several lengths.
fn try_buffers(bench: &mut Bench, call: Call, rooms: &[usize]) {
    for room in rooms {
        bench.attempt(Call {
            room: *room,
            ..call
        });
    }
}

// A route found with more room than it can take, and its distance; then, with room for a little more than its legs
// take, for as much, for one byte less and for none, the route read from the table so filled, and found, of which only
// the first is tried if not thoroughly.
fn try_between(bench: &mut Bench, call: Call, is_thorough: bool) {
    let find = Call {
        kind: Kind::FoundRoutes,
        room: bytes_of(call.entries),
        ..call
    };
    let read = Call {
        kind: Kind::ReadRoutes,
        ..call
    };
    let found = bench.attempt(find);
    if let Some(Ok(values)) = found {
        measures::try_spoken(bench, values[0], values[1]);
    }
    let bytes = bytes_of(found.map_or(0, try_calls::legs_of));
    let rooms = [bytes + 3, bytes, bytes.saturating_sub(1), 0];
    if is_thorough {
        try_buffers(bench, read, &rooms);
        try_buffers(bench, find, &rooms);
    } else {
        try_buffers(bench, read, &rooms[..1]);
    }
}

// Tries the table of a goal, and the routes to it from every cell and from the first off the floor.
fn try_starts(bench: &mut Bench, call: Call, seed: Random, is_thorough: bool) {
    try_table(bench, from(call, 0), seed);
    for start in 0..=call.entries {
        try_between(bench, from(call, start), is_thorough);
    }
}

// Tries every goal and start of a floor, and the first off it.
fn try_goals(bench: &mut Bench, call: Call, seed: Random, is_thorough: bool) {
    for goal in 0..=call.entries {
        try_starts(bench, to(call, goal), seed, is_thorough);
    }
}

// Tries every room, goal and start of a floor, and the first off it; of floors of up to 3 by 3 cells thoroughly.
pub fn try_every(bench: &mut Bench, sides: Sides, seed: Random) {
    let call = on_floor(sides);
    bench.attempt(call);
    for cell in 0..=call.entries {
        try_room(bench, call, cell);
    }
    try_goals(bench, call, seed, sides.width <= 3 && sides.height <= 3);
}

// Tries some rooms, a goal and some starts of a floor, the first start thoroughly, unless the floor is large.
pub fn try_some(bench: &mut Bench, sides: Sides, seed: Random, is_large: bool) {
    let call = on_floor(sides);
    let [goal, first, second, third] = [3, 8, 13, 18].map(|n| seed.later(n).pick(call.entries));
    bench.attempt(call);
    for cell in [goal, first, second] {
        try_room(bench, call, cell);
    }
    let call = to(call, goal);
    try_table(bench, from(call, first), seed);
    try_between(bench, from(call, first), !is_large);
    try_between(bench, from(call, second), false);
    try_between(bench, from(call, third), false);
}

// Tries a goal and a start.
pub fn try_given(bench: &mut Bench, sides: Sides, start: usize, goal: usize) {
    let call = from(to(on_floor(sides), goal), start);
    try_table(bench, call, Random(17));
    try_between(bench, call, true);
}
