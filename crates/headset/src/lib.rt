// The library as a headset links it: every entry point as a C function on numbers, slices and plain structs. A slice
// is a pointer and then a length, a refusal is its number, and what belongs together is passed apart, as C has it. Each
// function promises what its Rattle function promises, told by the struct's fields, and asks nothing of its caller.
#![tactic(auto)]

ghost use Rattle.floor.specs.Floor.{map_of, spot_of};
ghost use Rattle.calls.specs.Calls.{to_goal_of, route_of};
ghost use Rattle.lengths.specs.Answers.{Compares, Speaks};
ghost use Rattle.table.specs.Answers.{Fills, Checks};
ghost use Rattle.route.specs.Answers.{Finds, ReadsTable};
ghost use Rattle.rooms.specs.Answers.{Rooms};
ghost use Rattle.plan.specs.Reads.{Reads, Asks};
ghost use Rattle.headset.specs.Shown.{Shows, length_of, compare_answer, distance_answer, number_of, check_answer};
ghost use Rattle.headset.specs.Shown.{route_answer, room_answer, plan_answer, query_answer};

use floor::{Map, Spot};
use lengths::Length;

mod structs;

// Comparing: 1 for first shorter, 0 for first not shorter.
#[repr(C)]
#[derive(Clone, Copy, Default)]
pub struct CompareAnswer {
    pub number: usize,
    pub shorter: usize,
}

// The distance spoken.
#[repr(C)]
#[derive(Clone, Copy, Default)]
pub struct DistanceAnswer {
    pub number: usize,
    pub centimetres: usize,
}

// Checking a table: the first cell that differs.
#[repr(C)]
#[derive(Clone, Copy, Default)]
pub struct CheckAnswer {
    pub number: usize,
    pub cell: usize,
}

// A route: its length and leg count; or a refusal's place, the leg count of 10 and the first cell that differs of 11.
#[repr(C)]
#[derive(Clone, Copy, Default)]
pub struct RouteAnswer {
    pub number: usize,
    pub place: usize,
    pub straight: usize,
    pub diagonal: usize,
    pub legs: usize,
}

// A room: its first and last columns and rows.
#[repr(C)]
#[derive(Clone, Copy, Default)]
pub struct RoomAnswer {
    pub number: usize,
    pub left: usize,
    pub top: usize,
    pub right: usize,
    pub bottom: usize,
}

// A plan: what it holds and where, or the offset of the break.
#[repr(C)]
#[derive(Clone, Copy, Default)]
pub struct PlanAnswer {
    pub number: usize,
    pub offset: usize,
    pub width: usize,
    pub height: usize,
    pub size: usize,
    pub map_at: usize,
    pub map_length: usize,
    pub queries: usize,
    pub first_query: usize,
}

// A query of a plan: the start's column and row, and the goal's.
#[repr(C)]
#[derive(Clone, Copy, Default)]
pub struct QueryAnswer {
    pub number: usize,
    pub start_column: usize,
    pub start_row: usize,
    pub goal_column: usize,
    pub goal_row: usize,
}

// Whether the first length is shorter than the second.
#[unsafe(no_mangle)]
pub extern "C" fn ways_compare(
    first_straight: u32,
    first_diagonal: u32,
    second_straight: u32,
    second_diagonal: u32,
) -> CompareAnswer
    ensures { Shows compare_answer (Compares (length_of first_straight first_diagonal)
        (length_of second_straight second_diagonal)) result }
{
    let first = Length {
        straight: first_straight,
        diagonal: first_diagonal,
    };
    let second = Length {
        straight: second_straight,
        diagonal: second_diagonal,
    };
    lengths::compare(first, second).into()
}

// The distance spoken, in centimetres.
#[unsafe(no_mangle)]
pub extern "C" fn ways_distance(size: u32, straight: u32, diagonal: u32) -> DistanceAnswer
    ensures { Shows distance_answer (Speaks size (length_of straight diagonal)) result }
{
    lengths::distance_spoken(size, Length { straight, diagonal }).into()
}

// Filling a length table for the goal at a column and a row.
#[unsafe(no_mangle)]
pub extern "C" fn ways_fill(
    width: usize,
    height: usize,
    map: &[u8],
    column: usize,
    row: usize,
    table: &mut [u32],
) -> usize
    ensures { Shows number_of (λ a. Fills (to_goal_of width height map.now column row) table.old a table.new) result }
{
    let map = Map {
        width,
        height,
        bytes: map,
    };
    structs::number_of(table::fill(&map, Spot { column, row }, table))
}

// Checking a table from anyone for the goal at a column and a row.
#[unsafe(no_mangle)]
pub extern "C" fn ways_check(
    width: usize,
    height: usize,
    map: &[u8],
    column: usize,
    row: usize,
    table: &[u32],
) -> CheckAnswer
    ensures { Shows check_answer (Checks (to_goal_of width height map.now column row) table.now) result }
{
    let map = Map {
        width,
        height,
        bytes: map,
    };
    table::check(&map, Spot { column, row }, table).into()
}

// Finding a route; the table is filled for its goal.
#[unsafe(no_mangle)]
pub extern "C" fn ways_find_route(
    width: usize,
    height: usize,
    map: &[u8],
    from_column: usize,
    from_row: usize,
    column: usize,
    row: usize,
    table: &mut [u32],
    legs: &mut [u8],
) -> RouteAnswer
    ensures { Shows route_answer (λ a. Finds (route_of width height map.now from_column from_row column row)
        table.old legs.old a table.new legs.new) result }
{
    let map = Map {
        width,
        height,
        bytes: map,
    };
    let start = Spot {
        column: from_column,
        row: from_row,
    };
    route::find_route(&map, start, Spot { column, row }, table, legs).into()
}

// A route from a table, which is checked first and only read.
#[unsafe(no_mangle)]
pub extern "C" fn ways_route_from_table(
    width: usize,
    height: usize,
    map: &[u8],
    from_column: usize,
    from_row: usize,
    column: usize,
    row: usize,
    table: &[u32],
    legs: &mut [u8],
) -> RouteAnswer
    ensures { Shows route_answer (λ a. ReadsTable (route_of width height map.now from_column from_row column row)
        table.now legs.old a legs.new) result }
{
    let map = Map {
        width,
        height,
        bytes: map,
    };
    let start = Spot {
        column: from_column,
        row: from_row,
    };
    route::route_from_table(&map, start, Spot { column, row }, table, legs).into()
}

// The room around a cell.
#[unsafe(no_mangle)]
pub extern "C" fn ways_room(
    width: usize,
    height: usize,
    map: &[u8],
    column: usize,
    row: usize,
) -> RoomAnswer
    ensures { Shows room_answer (Rooms (map_of width height map.now) (spot_of column row)) result }
{
    let map = Map {
        width,
        height,
        bytes: map,
    };
    rooms::room_around(&map, Spot { column, row }).into()
}

// What the bytes are as a plan.
#[unsafe(no_mangle)]
pub extern "C" fn ways_read_plan(bytes: &[u8]) -> PlanAnswer
    ensures { Shows plan_answer (Reads bytes.now) result }
{
    plan::read(bytes).into()
}

// The query whose record begins at an offset; 14 where the bytes end before the record does.
#[unsafe(no_mangle)]
pub extern "C" fn ways_query(bytes: &[u8], at: usize) -> QueryAnswer
    ensures { Shows query_answer (Asks bytes.now at) result }
{
    plan::ask_query(bytes, at).into()
}
