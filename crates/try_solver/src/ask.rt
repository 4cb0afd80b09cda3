// What is asked, and what is said to it, in one form for every call.
ghost use Rattle.std.specs.Prelude.{◌≤◌};

// How many bytes a map has room for, how many entries a table, and how many bytes a buffer of legs.
pub const MAP: usize = 2100;

pub const ENTRIES: usize = 16400;

pub const ROOM: usize = 33000;

// The kinds of calls: accepting a floor, the room around a cell, comparing two lengths, speaking a distance, filling a
// table, checking one, finding a route, and reading one from a table.
#[derive(Clone, Copy, PartialEq, Eq)]
pub enum Kind {
    Floors,
    Rooms,
    Comparisons,
    Distances,
    Tables,
    Checks,
    FoundRoutes,
    ReadRoutes,
}

impl Kind {
    // Every kind, in the order in which they are counted.
    pub const ALL: [Kind; 8] = [
        Kind::Floors,
        Kind::Rooms,
        Kind::Comparisons,
        Kind::Distances,
        Kind::Tables,
        Kind::Checks,
        Kind::FoundRoutes,
        Kind::ReadRoutes,
    ];

    // Whether a kind of call has a start.
    pub fn has_start(self) -> bool {
        matches!(self, Kind::Rooms | Kind::FoundRoutes | Kind::ReadRoutes)
    }

    // Whether a kind of call has a goal and a table.
    pub fn has_goal(self) -> bool {
        matches!(
            self,
            Kind::Tables | Kind::Checks | Kind::FoundRoutes | Kind::ReadRoutes
        )
    }
}

// A product of two numbers up to 130; 0 if one is above.
pub fn times(one: usize, other: usize) -> usize
    ensures { result ≤ 16900 }
{
    if 130 < one || 130 < other {
        return 0;
    }
    one * other
}

// The width and the height of a floor, which may be any.
#[derive(Clone, Copy, PartialEq, Eq)]
pub struct Sides {
    pub width: usize,
    pub height: usize,
}

impl Sides {
    // The sides, but 0 for one that is above its limit, 128.
    pub fn within_limits(self) -> Sides
        ensures { (result.width ≤ 128) × (result.height ≤ 128) }
    {
        Sides {
            width: if self.width <= 128 { self.width } else { 0 },
            height: if self.height <= 128 { self.height } else { 0 },
        }
    }

    // How many cells a floor has; 0 if a side is above 130.
    pub fn cells(self) -> usize
        ensures { result ≤ 16900 }
    {
        times(self.height, self.width)
    }

    // How many bytes a row of the map takes.
    pub fn bytes_across(self) -> usize {
        self.width.div_ceil(8)
    }

    // Which byte of the map has the bit of a spot.
    pub fn byte_of(self, spot: Spot) -> usize {
        times(spot.row, self.bytes_across()) + spot.column / 8
    }

    // How many bytes the map takes; 0 if it has more than 130 rows or bytes to a row.
    pub fn bytes(self) -> usize
        ensures { result ≤ 16900 }
    {
        times(self.height, self.bytes_across())
    }
}

// A place on a floor or off it.
#[derive(Clone, Copy, PartialEq, Eq)]
pub struct Spot {
    pub column: usize,
    pub row: usize,
}

// So many straight steps, and so many diagonal ones.
#[derive(Clone, Copy, PartialEq, Eq)]
pub struct Length {
    pub straight: u32,
    pub diagonal: u32,
}

// A call: its kind and its numbers, of which a kind takes some. It is made over so many bytes of the map, entries of a
// table, and bytes of room for legs. A room is asked for around the start. A distance is that of the length, in cells
// of the size; a comparison is of the length with the other one.
#[derive(Clone, Copy)]
pub struct Call {
    pub kind: Kind,
    pub sides: Sides,
    pub bytes: usize,
    pub entries: usize,
    pub room: usize,
    pub start: Spot,
    pub goal: Spot,
    pub size: u32,
    pub length: Length,
    pub other: Length,
}

// How many values an answer has room for.
pub const VALUES: usize = 4;

// A refusal: its number, and its place, which is 0 where it has none. The number of the document stays a number here:
// an enum would be the library's again, with which this solver shares no definition.
#[derive(Clone, Copy, PartialEq, Eq)]
pub struct Refused {
    pub number: usize,
    pub place: usize,
}

impl Refused {
    // A refusal with no place.
    pub fn numbered(number: usize) -> Refused {
        Refused { number, place: 0 }
    }
}

// What a call said: the values that it gives, those that it has none for being 0, or a refusal.
pub type Said = Result<[usize; VALUES], Refused>;
