// Steps out of a cell, for the bands that fill a length table. The work array has a number for each cell of the floor
// and of a border of blocked cells around it: the cell in column c and row r stands at (r + 1) * 130 + c + 1. 0:
// blocked, or off the floor. UNREACHED: open, and not reached. Else the length found: lengths are ordered by their
// keys, 13860 * straight + 19601 * diagonal; with one straight step more a key is 13860 * q + r, r < 13860, and the
// number is 16384 * q + r + 73. So number / 16384 is the band that reaches the cell, to take a number apart needs no
// division but by powers of two, and whether a diagonal step leads past the next band is one bit of the number: r +
// 5741 >= 13860 is r + 73 >= 8192. A step out of a cell offers the cell that it leads to a number, its own and what the
// step adds; the lesser number stays.
#![tactic(auto)]

ghost use Rattle.std.specs.Prelude.{◌≡◌, ◌+◌, ◌<◌, ◌≤◌, ◌↔◌, IsTrue, length};
ghost use Rattle.fill_steps.specs.inner.Work.{unreached, stride, largest, highest, stepped, target, QueueRoom};
ghost use Rattle.fill_steps.specs.inner.Taken.{MaskRead, PastSides};

use steps::Heading;

// The number of an open cell that is not reached.
pub const UNREACHED: u32 = 2147483648;

// What a straight step adds to a number: one band.
pub const STEP_STRAIGHT: u32 = 16384;

// What every remainder has more, so that the late ones are those from half a band on.
const RAISE: u32 = 73;

// The goal's number: length (0, 0), one straight step, and the raise.
pub const GOAL: u32 = STEP_STRAIGHT + RAISE;

// What a diagonal step adds, which weighs 19601 - 13860 = 5741 more than a straight one: 16384 + 5741 out of an early
// cell. Out of a late one, whose remainder is 13860 - 5741 + 73 = 8192 or more, the remainder would be 13860 + 73 or
// more: it has 13860 less, and the number one band more.
const EARLY: u32 = 22125;

const LATE: u32 = 24649;

const HALF: u32 = 8192;

// How far apart the rows of the work array are: 128 cells and the border.
pub const STRIDE: usize = 130;

// Whether a cell that was not reached now is, by its number before and after: whether their highest bits differ. With
// two comparisons in the place of the `xor` a fill takes a sixth more instructions.
fn is_new(before: u32, after: u32) -> bool
    requires { after ≤ before }
    ensures { IsTrue result ↔ (unreached ≤ before) × (after < unreached) }
{
    UNREACHED <= before ^ after
}

// Where a heading leads from a place.
#[tactic(auto, using(steps::proofs::Headings::read_of))]
fn place_of(from: usize, heading: Heading) -> usize
    requires { (stride + 1 ≤ from) × (from < largest) }
    ensures { result ≡ target from heading.number }
{
    let change = heading.change();
    from + change.row * STRIDE + change.column - (STRIDE + 1)
}

// The mask of a cell with this number: UNREACHED if the cell is blocked, else 0. Only 0, less one, wraps to what is not
// below UNREACHED. With bools in the place of masks a fill takes a tenth more instructions.
fn mask_of(number: u32) -> u32
    ensures { MaskRead number result }
{
    number.wrapping_sub(1) / UNREACHED * UNREACHED
}

// What is offered past two side cells with these masks: too much to count if one is blocked.
fn past(number: u32, side: u32, other: u32) -> u32
    ensures { PastSides number side other result }
{
    number | (side | other)
}

// What a diagonal step makes of a number. Whether it is late is one bit.
#[tactic(auto, unfolding(crate::specs::inner::Work::late_of, crate::specs::inner::Work::stepped))]
fn diagonal_of(number: u32) -> u32
    requires { number < highest }
    ensures { result ≡ stepped 1 number }
{
    if number / HALF % 2 == 0 {
        number + EARLY
    } else {
        number + LATE
    }
}

// What spreads over the work array: the cells' numbers, and the queue of the cells that were reached, which ends at the
// tail and has room for all that wait. No heap: the queue is the lent table, and a place is written in it before it
// counts.
#[derive(Drop)]
pub struct Spread<'a> {
    pub work: &'a mut [u32],
    pub queue: &'a mut [u32],
    pub tail: usize,
    pub ghost room: { QueueRoom work.now queue.now tail },
}

// That a place is off the border is a fact of the place in this array, so it stays a clause: a struct of both would
// hold the spread's own array.
impl Spread<'_> {
    ghost use Rattle.fill_steps.specs.inner.Work.{at, OffBorder};
    ghost use Rattle.fill_steps.specs.inner.Taken.{Lowered, OfferMade, SideStep, SideAfter, TakenLeft};
    ghost use Rattle.fill_steps.specs.inner.Spreads.{Moved};

    // Lowers the number of a place, if this one is less, and puts the place behind the queue, where it stays if the
    // tail moves on. Gives the number before.
    fn lower(&mut self, place: usize, number: u32) -> u32
        requires { place < length self.old.work.now }
        ensures { Moved self.old self.new (Lowered place number result) }
    {
        let before = self.work[place];
        self.work[place] = number.min(before);
        self.queue[self.tail] = place as u32;
        before
    }

    // Offers a place a number; a cell that was not reached is put behind the queue.
    fn offer(&mut self, place: usize, number: u32)
        requires { place < length self.old.work.now }
        ensures { Moved self.old self.new (OfferMade place number) }
    {
        let before = self.lower(place, number);
        self.tail += usize::from(is_new(before, number.min(before)));
    }

    // A straight step. Its number always counts, so a cell that was not reached now is. A blocked cell stays blocked
    // and an open one open, so that its mask, which is given back, is read once, for the diagonal steps on both sides
    // of it. The mask is made before the tail moves on: made after it, a fill takes 3 % more instructions.
    fn side_step(&mut self, from: usize, heading: Heading, number: u32) -> u32
        requires off_border { OffBorder self.old.work.now from }
        requires counts { number < unreached }
        ensures { Moved self.old self.new (SideStep from heading.number number result) }
    {
        let before = self.lower(place_of(from, heading), number);
        let mask = mask_of(before);
        self.tail += usize::from(UNREACHED <= before);
        mask
    }

    // The straight step after a diagonal heading. After the last one that is north, which was the first step taken.
    fn side_after(&mut self, from: usize, heading: Heading, number: u32, north: u32) -> u32
        requires off_border { OffBorder self.old.work.now from }
        requires counts { number < unreached }
        ensures { Moved self.old self.new (SideAfter from heading.number number north result) }
    {
        if heading.number == 7 {
            return north;
        }
        let next = Heading {
            number: heading.number + 1,
        };
        self.side_step(from, next, number)
    }

    // All steps out of a cell: north, and then each diagonal one after the straight one behind it.
    pub fn cell_steps(&mut self, from: usize)
        requires off_border { OffBorder self.old.work.now from }
        requires from_bound { at self.old.work.now from < highest }
        ensures { Moved self.old self.new (TakenLeft from) }
    {
        let number = self.work[from];
        let straight = number + STEP_STRAIGHT;
        let diagonal = diagonal_of(number);
        let north = self.side_step(from, Heading { number: 0 }, straight);
        let mut side = north;
        for diagonally in [1, 3, 5, 7] {
            let heading = Heading { number: diagonally };
            let other = self.side_after(from, heading, straight, north);
            self.offer(place_of(from, heading), past(diagonal, side, other));
            side = other;
        }
    }
}
