// What the headings offer a cell of the window's middle row, and the least of it.
ghost use Rattle.std.specs.Prelude.{◌≡◌, ◌≤◌, ◌<◌};
ghost use Rattle.lengths.specs.inner.Keys.{key};
ghost use Rattle.steps.specs.Heading.{weight};
ghost use Rattle.check_rows.specs.inner.Window.{shut_of, offered_in, offer_in, least_in};

use crate::Window;
use crate::cell_numbers::WALL;
use lengths::{DIAGONAL_KEY, STRAIGHT_KEY};
use steps::{Change, Heading};

// What a cell beside a step adds: nothing if it is open.
fn shut(number: u32) -> u32
    ensures { result ≡ shut_of number }
{
    number / WALL * WALL
}

// The key of a heading's step.
fn step_key(heading: Heading) -> u32
    ensures { result ≡ key (weight heading.number) }
{
    if heading.is_diagonal() {
        DIAGONAL_KEY
    } else {
        STRAIGHT_KEY
    }
}

// A column is below 128 as the loop over a row's width counts it, so the bound stays a clause, here and in `rows`: a
// struct round the number would be made and taken apart at each call.
impl Window {
    // What a step offers the cell at a column of the middle row: the number where it leads, its key, and what the two
    // cells beside add.
    #[tactic(auto, unfolding(crate::specs::inner::Window::offered_in))]
    fn offered(&self, column: usize, change: Change, key: u32) -> u32
        requires places { (column < 128) × (change.column ≤ 2) × (change.row ≤ 2) }
        requires key_bound { key ≤ 19601 }
        ensures { result ≡ offered_in self.now.numbers column change.column change.row key }
    {
        let to = self.at(change.row, column + change.column);
        let side = self.at(change.row, column + 1);
        let other = self.at(1, column + change.column);
        to + key + shut(side) + shut(other)
    }

    // What a heading offers it.
    #[tactic(auto, using(steps::proofs::Headings::changes_of))]
    fn offer(&self, column: usize, heading: Heading) -> u32
        requires { column < 128 }
        ensures { result ≡ offer_in self.now.numbers column heading.number }
    {
        self.offered(column, heading.change(), step_key(heading))
    }

    // The least of the start and what the eight headings offer.
    #[tactic(auto, using(crate::proofs::OneMore::least_more), unfolding(crate::specs::inner::Window::least_in))]
    pub(crate) fn least(&self, column: usize, start: u32) -> u32
        requires { column < 128 }
        ensures { result ≡ least_in self.now.numbers column start 8 }
    {
        let mut least = start;
        for number in 0..8 {
            least = least.min(self.offer(column, Heading { number }));
        }
        least
    }
}
