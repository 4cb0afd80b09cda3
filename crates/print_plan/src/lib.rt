// What "ways" prints for any input bytes: its lines, as bytes in a lent buffer.
#![tactic(auto)]

ghost use Rattle.std.specs.Prelude.{◌≡◌, ◌<◌, ◌≤◌, Ok};
ghost use Rattle.io.specs.Counts.{IsPrefixLen};
ghost use Rattle.floor.specs.Lent.{floor_map};
ghost use Rattle.print_text.specs.inner.Page.{HasRoom};
ghost use Rattle.print_line.specs.LineRoom.{line_room};
ghost use Rattle.print_line.specs.inner.Written.{Writes};
ghost use Rattle.print_plan.specs.Lines.{Heads, count_of, LineAt};
ghost use Rattle.print_plan.specs.Shown.{Shown};
ghost use Rattle.print_plan.specs.inner.Parts.{QueryLine};

use answers::Refusal;
use floor::{Floor, Map, Spot};
use plan::{Plan, Query};
use print_line::CellSize;
use print_text::Page;

mod heads;

// Room for any line, which is a clause here as in `print_line`: a query's line has 16,383 legs at most.
const LINE_ROOM: usize = 131190;

// What was printed into a buffer that was lent: how many bytes, how many lines, and how many lines are left to print.
#[derive(Clone, Copy)]
pub struct Printed {
    pub length: usize,
    pub lines: usize,
    pub left: usize,
}

// What queries are answered in: a table and a leg buffer that are large enough for every floor.
#[derive(Drop)]
struct Work {
    table: [u32; 16384],
    legs: [u8; 32766],
}

// Writes the line of a query. The table is lent with an entry for each cell. Table and legs come apart: the proof of a
// function that is lent a `Work` and lends both its parts in one call did not close. Map and spots are made here, since
// they and what they are made of are types of other crates.
fn put_query(
    page: &mut Page<'_>,
    number: usize,
    size: CellSize,
    floor: &Floor,
    query: Query,
    table: &mut [u32; 16384],
    legs: &mut [u8; 32766],
)
    requires { HasRoom line_room page.old }
    ensures { Writes (QueryLine (floor_map floor.now) size.centimetres number query) page.old page.new }
{
    let map = Map {
        width: floor.width,
        height: floor.height,
        bytes: floor.bytes,
    };
    let start = Spot {
        column: query.start_col,
        row: query.start_row,
    };
    let goal = Spot {
        column: query.goal_col,
        row: query.goal_row,
    };
    let cells = floor.cells();
    let answer = route::find_route(&map, start, goal, &mut table[..cells], legs);
    print_line::put_answer(page, number, size, answer, legs)
}

// Writes the line of query `number`, from 1.
fn put_numbered(page: &mut Page<'_>, input: &[u8], plan: Plan, number: usize, work: &mut Work)
    requires room { HasRoom line_room page.old }
    requires heads { Heads input.now (Ok plan) }
    requires number_in_plan { (0 < number) × (number ≤ plan.queries) }
    ensures { Writes (LineAt input.now number) page.old page.new }
{
    let query = plan::query_at(input, plan.first_query + 12 * (number - 1));
    let end = plan.map_at + plan.map_len;
    let floor = Floor {
        width: plan.width,
        height: plan.height,
        bytes: &input[plan.map_at..end],
    };
    let size = CellSize {
        centimetres: plan.size as u32,
    };
    let Work { table, legs } = work;
    put_query(page, number, size, &floor, query, table, legs)
}

// Writes line `index`, from 0.
fn put_line(
    page: &mut Page<'_>,
    input: &[u8],
    head: Result<Plan, Refusal>,
    index: usize,
    work: &mut Work,
)
    requires room { HasRoom line_room page.old }
    requires heads { Heads input.now head }
    requires index_in_bounds { index < count_of head }
    ensures { Writes (LineAt input.now index) page.old page.new }
{
    if index == 0 {
        return print_line::put_head(page, head);
    }
    match head {
        Err(_) => unreachable!(),
        Ok(plan) => put_numbered(page, input, plan, index, work),
    }
}

// Writes the lines from number `from` on to an empty page.
fn print_with(page: &mut Page<'_>, input: &[u8], from: usize, work: &mut Work) -> Printed
    requires { page.old.at ≡ 0 }
    ensures shown { Shown input.now from page.old.out.now result page.new.out.now }
    ensures length { result.length ≡ page.new.at }
    ensures lines_bound { result.lines ≤ 65 }
    ensures same_buffer { page.new.out.ghost_name ≡ page.old.out.ghost_name }
{
    let head = heads::head_of(input);
    let total = heads::count_of(head);
    for next in from..total {
        if page.room() < LINE_ROOM {
            return Printed {
                length: page.at,
                lines: next - from,
                left: total - next,
            };
        }
        put_line(page, input, head, next, work);
    }
    Printed {
        length: page.at,
        lines: total.saturating_sub(from),
        left: 0,
    }
}

// Writes the lines that are printed for the input, from number `from` on, as many as surely fit, and answers what it
// wrote.
pub fn print_lines(input: &[u8], from: usize, out: &mut [u8]) -> Printed
    ensures shown { Shown input.now from out.old result out.new }
    ensures prefix_len { IsPrefixLen result.length out.new }
    ensures lines_bound { result.lines ≤ 65 }
{
    let mut work = Work {
        table: [0; 16384],
        legs: [0; 32766],
    };
    let mut page = Page::new(out);
    print_with(&mut page, input, from, &mut work)
}
