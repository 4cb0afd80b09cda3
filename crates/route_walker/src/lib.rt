// The walker: it reads its next heading from a table, and walks step by step and leg by leg.
#![tactic(auto)]

ghost use Rattle.std.specs.Prelude.{◌≡◌, ◌+◌, ◌<◌, ◌≤◌, length, MatchOption};
ghost use Rattle.lengths.specs.Order.{◌⊕◌, steps};
ghost use Rattle.floor.specs.Floor.{map_of, cells};
ghost use Rattle.floor.specs.Lent.{floor_map};
ghost use Rattle.steps.specs.Heading.{weight};
ghost use Rattle.steps.specs.inner.Ranking.{numbered};
ghost use Rattle.steps.specs.inner.Leading.{lead_of};
ghost use Rattle.route_walker.specs.inner.Walkers.{cost, fits, next, taken};
ghost use Rattle.route_walker.specs.inner.Walkers.{Readable, past, Differ, InWidth, Stands, Starts, Stepped, Leads};

use floor::Floor;
use lengths::Length;
use steps::Heading;
use table_theory::MARK;

// A floor, and a table for it that can be read.
#[derive(Clone, Copy)]
pub struct Walk<'a> {
    pub floor: Floor<'a>,
    pub table: &'a [u32],
    pub ghost readable: { Readable (map_of floor.width floor.height floor.bytes.now) table.now },
}

// A walker: the cell it stands on, the length so far, and the heading it takes next, none at the goal. That it stands
// on a walk (`Stands`), and its cell on the walk's floor, stays a clause of each step: as an invariant of a walker that
// holds its walk, each contract would say that the walk stays the same.
#[derive(Clone, Copy)]
pub struct Walker {
    pub cell: usize,
    pub length: Length,
    pub next: Option<Heading>,
}

// A leg that was walked: its heading, its steps, and the walker after it.
#[derive(Clone, Copy)]
pub struct WalkedLeg {
    pub heading: Heading,
    pub count: usize,
    pub after: Walker,
}

// What a step by the heading adds to a table's number. Checking has its own, in keys: one function for both would take
// the two numbers that it chooses from.
fn cost_of(heading: Heading) -> u64
    ensures { (result ≡ cost heading.number) × (result ≤ 65536) }
{
    if heading.is_diagonal() { 1 } else { 65536 }
}

// The length with one step by the heading more.
fn one_more(length: Length, heading: Heading) -> Length
    requires { steps length + 1 < 4294967296 }
    ensures { result ≡ length ⊕ weight heading.number }
{
    if heading.is_diagonal() {
        Length {
            diagonal: length.diagonal + 1,
            ..length
        }
    } else {
        Length {
            straight: length.straight + 1,
            ..length
        }
    }
}

impl Walk<'_> {
    // Where a heading leads from a cell, counted a row and a column further, so that it is a whole number.
    #[tactic(auto, using(crate::proofs::Past::near))]
    fn past_step(&self, cell: usize, heading: Heading) -> usize
        requires { cell < cells (floor_map self.now.floor) }
        ensures { (result ≡ past self.now.floor.width cell heading.number) × (result ≤ 16642) }
    {
        let change = heading.change();
        cell + change.row * self.floor.width + change.column
    }

    // Whether the heading leads to a cell of the table, and the numbers of the two cells differ by the step.
    // What is off the table to the north wraps and is large.
    fn fits_numbers(&self, cell: usize, heading: Heading) -> bool
        requires { cell < cells (floor_map self.now.floor) }
        ensures { Differ self.now.floor.width self.now.table.now cell heading.number result }
    {
        let to = self
            .past_step(cell, heading)
            .wrapping_sub(self.floor.width + 1);
        let Some(there) = self.table.get(to) else {
            return false;
        };
        u64::from(self.table[cell]) == u64::from(*there) + cost_of(heading)
    }

    // Whether the heading leads from the cell to a column of the floor, not past an end of the row.
    #[tactic(auto, using(steps::proofs::Headings::changes_of))]
    fn in_width(&self, cell: usize, heading: Heading) -> bool
        ensures { InWidth self.now.floor.width cell heading.number result }
    {
        let column = cell % self.floor.width + heading.change().column;
        1 <= column && column <= self.floor.width
    }

    // Whether the step is permitted and the numbers of its ends differ by it. The numbers are compared first: they
    // seldom do; and where they differ by a straight step, both ends are open.
    #[tactic(auto, using(crate::proofs::Past::fitting))]
    fn fits_step(&self, cell: usize, heading: Heading) -> bool
        requires { cell < cells (floor_map self.now.floor) }
        ensures { result ≡ fits (lead_of (floor_map self.now.floor)) self.now.table.now cell heading.number }
    {
        if !self.fits_numbers(cell, heading) {
            return false;
        }
        if heading.is_diagonal() {
            return steps::lead_of(&self.floor, heading, cell).is_some();
        }
        self.in_width(cell, heading)
    }

    // The lowest heading whose step fits the table; none at the goal.
    #[tactic(auto, using(crate::proofs::Searching::seeking), unfolding(crate::specs::inner::Walkers::next))]
    fn next_heading(&self, cell: usize) -> Option<Heading>
        requires { cell < cells (floor_map self.now.floor) }
        ensures { taken result ≡ next (lead_of (floor_map self.now.floor)) self.now.table.now numbered.at cell }
    {
        for number in 0..8 {
            let heading = Heading { number };
            if self.fits_step(cell, heading) {
                return Some(heading);
            }
        }
        None
    }

    // A walker at a cell, before its first step.
    pub fn stand(&self, cell: usize) -> Walker
        requires { cell < cells (floor_map self.now.floor) }
        ensures { Starts (floor_map self.now.floor) self.now.table.now numbered cell result }
    {
        // A number is at most the mark, so the walker's counts have room for the steps that are left.
        prove!(self.table[cell] <= MARK);
        Walker {
            cell,
            length: Length {
                straight: 0,
                diagonal: 0,
            },
            next: self.next_heading(cell),
        }
    }

    // The walker moved by one step; at the goal the same.
    fn step(&self, walker: Walker) -> Walker
        requires { Stands (floor_map self.now.floor) self.now.table.now numbered walker }
        ensures { Stepped (floor_map self.now.floor) self.now.table.now numbered walker result }
    {
        let Some(heading) = walker.next else {
            return walker;
        };
        let cell = self.past_step(walker.cell, heading) - (self.floor.width + 1);
        Walker {
            cell,
            length: one_more(walker.length, heading),
            next: self.next_heading(cell),
        }
    }

    // The leg ahead, the longest run of the walker's next heading; none at the goal.
    pub fn leg(&self, walker: Walker) -> Option<WalkedLeg>
        requires { Stands (floor_map self.now.floor) self.now.table.now numbered walker }
        ensures { MatchOption result (walker.next ≡ None)
            (Leads (floor_map self.now.floor) self.now.table.now numbered walker) }
    {
        let heading = walker.next?;
        let mut after = walker;
        let mut count: usize = 0;
        // No `for`: the run ends where the heading changes.
        while after.next == Some(heading) {
            after = self.step(after);
            count += 1;
        }
        Some(WalkedLeg {
            heading,
            count,
            after,
        })
    }
}
