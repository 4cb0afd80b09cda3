// The library's calls, and what they say in the form of the trials: the only place that knows the library's answers.
// Functions make the one of the other, since both types of each are of other crates.
use crate::fitting::Fitting;
use answers::Refusal;
use floor::{Map, Spot};
use lengths::Length;
use route_legs::Way;
use try_solver::ask;
use try_solver::ask::{Call, ENTRIES, Kind, MAP, ROOM, Refused, Said, VALUES};

// A refusal, with its place.
fn refused(refusal: Refusal) -> Refused {
    Refused {
        number: refusal.number(),
        place: refusal.place(),
    }
}

// A spot, as the library takes it.
fn spot_of(spot: ask::Spot) -> Spot {
    Spot {
        column: spot.column,
        row: spot.row,
    }
}

// A length, as the library takes it.
fn length_of(length: ask::Length) -> Length {
    Length {
        straight: length.straight,
        diagonal: length.diagonal,
    }
}

// The values that a way gives: its length and how many legs it has.
fn of_way(way: Way) -> [usize; VALUES] {
    let Length { straight, diagonal } = way.length;
    [straight as usize, diagonal as usize, way.legs, 0]
}

// The values that a call gives, or its refusal.
fn given(
    call: Call,
    map: &Map,
    table: &mut [u32],
    lent: &[u32],
    legs: &mut [u8],
) -> Result<[usize; VALUES], Refusal> {
    let start = spot_of(call.start);
    let goal = spot_of(call.goal);
    let length = length_of(call.length);
    match call.kind {
        Kind::Floors => {
            let sides = floor::accept(map)?;
            Ok([sides.width, sides.height, 0, 0])
        }
        Kind::Rooms => {
            let room = rooms::room_around(map, start)?;
            Ok([room.left, room.top, room.right, room.bottom])
        }
        Kind::Comparisons => {
            let is_shorter = lengths::compare(length, length_of(call.other))?;
            Ok([usize::from(is_shorter), 0, 0, 0])
        }
        Kind::Distances => {
            let centimetres = lengths::distance_spoken(call.size, length)?;
            Ok([centimetres as usize, 0, 0, 0])
        }
        Kind::Tables => table::fill(map, goal, table).map(|_| [0; VALUES]),
        Kind::Checks => table::check(map, goal, lent).map(|_| [0; VALUES]),
        Kind::FoundRoutes => route::find_route(map, start, goal, table, legs).map(of_way),
        Kind::ReadRoutes => route::route_from_table(map, start, goal, lent, legs).map(of_way),
    }
}

// What a call says, over its part of each buffer: it fills the table, and checks and reads the one that is lent.
pub fn answer(
    fitting: Fitting,
    map: &[u8; MAP],
    table: &mut [u32; ENTRIES],
    lent: &[u32; ENTRIES],
    legs: &mut [u8; ROOM],
) -> Said {
    let call = fitting.call;
    let map = Map {
        width: call.sides.width,
        height: call.sides.height,
        bytes: &map[..call.bytes],
    };
    let table = &mut table[..call.entries];
    let lent = &lent[..call.entries];
    let legs = &mut legs[..call.room];
    given(call, &map, table, lent, legs).map_err(refused)
}
