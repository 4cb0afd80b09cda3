// The lines that "ways" prints, each written to a page: what the first line says, and the line of a
// query's answer.
#![tactic(auto)]

ghost use Rattle.std.specs.Prelude.{Ok, Err};
ghost use Rattle.lengths.specs.Distance.{Spoken};
ghost use Rattle.lengths.specs.inner.AtMost.{Within};
ghost use Rattle.print_text.specs.Text.{line};
ghost use Rattle.print_text.specs.inner.Page.{HasRoom};
ghost use Rattle.print_line.specs.Head.{head_line};
ghost use Rattle.print_line.specs.LineRoom.{line_room};
ghost use Rattle.print_line.specs.inner.Written.{PutLine, Writes, WayFits, Fits, way_numbers, AnswerLine};

use answers::Refusal;
use plan::Plan;
use print_text::Page;
use route_legs::Way;

mod cell_size;

pub use cell_size::CellSize;

// Only some pages have room for a line, so that is a clause of each function that writes one.

// Writes the line "floor", width, height, cell size.
fn put_floor(page: &mut Page<'_>, plan: Plan)
    requires { HasRoom line_room page.old }
    ensures { PutLine page.old (head_line (Ok plan)) page.new }
{
    page.put_word(b"floor ");
    page.put_line(&[plan.width, plan.height, plan.size]);
}

// Writes the line of a way: the query's number, 0, straight, diagonal, centimetres, leg count, then heading and count
// of each leg. The legs come as they were lent: how many there are stands in the way.
fn put_way(page: &mut Page<'_>, number: usize, centimetres: u32, way: Way, legs: &[u8])
    requires room { HasRoom line_room page.old }
    requires way_fits { WayFits way legs.now }
    ensures { PutLine page.old (line (way_numbers number centimetres way legs.now)) page.new }
{
    let straight = way.length.straight as usize;
    let diagonal = way.length.diagonal as usize;
    page.put_numbers(&[
        number,
        0,
        straight,
        diagonal,
        centimetres as usize,
        way.legs,
    ]);
    page.put_fields(&legs[..2 * way.legs]);
    page.put_newline();
}

// The centimetres of a length.
fn centimetres_of(size: CellSize, way: Way) -> u32
    requires { Within way.length }
    ensures { Spoken size.centimetres way.length result }
{
    lengths::distance_spoken(size.centimetres, way.length).unwrap()
}

// Writes the line of a query's answer.
pub fn put_answer(
    page: &mut Page<'_>,
    number: usize,
    size: CellSize,
    answer: Result<Way, Refusal>,
    legs: &[u8],
)
    requires room { HasRoom line_room page.old }
    requires fits { Fits answer legs.now }
    ensures { Writes (AnswerLine size.centimetres number legs.now answer) page.old page.new }
{
    match answer {
        Ok(way) => put_way(page, number, centimetres_of(size, way), way, legs),
        Err(refusal) => page.put_line(&[number, refusal.number()]),
    }
}

// Writes the line of a refusal: its number, and with 14 the offset.
fn put_refusal(page: &mut Page<'_>, refusal: Refusal)
    requires { HasRoom line_room page.old }
    ensures { PutLine page.old (head_line (Err refusal)) page.new }
{
    match refusal {
        Refusal::PlanBroken(offset) => page.put_line(&[refusal.number(), offset]),
        _ => page.put_line(&[refusal.number()]),
    }
}

// Writes the first line: a refusal, or the floor.
pub fn put_head(page: &mut Page<'_>, head: Result<Plan, Refusal>)
    requires { HasRoom line_room page.old }
    ensures { PutLine page.old (head_line head) page.new }
{
    match head {
        Ok(plan) => put_floor(page, plan),
        Err(refusal) => put_refusal(page, refusal),
    }
}
