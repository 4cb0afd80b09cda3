// The tests that calls string together: the floor's three, and what is asked of a table and of a place.
ghost use Rattle.std.specs.Prelude.{◌≡◌, IfOk};
ghost use Rattle.answers.specs.Refusing.{refuse, outcome};
ghost use Rattle.floor.specs.Lent.{given, floor_map};
ghost use Rattle.floor.specs.Refusals.{sides_outside, wrong_table, off_floor, closed};
ghost use Rattle.floor.specs.Tests.{floor_tested, places_tested};
ghost use Rattle.floor.specs.inner.Ready.{Low};

use crate::accepted::row_bytes;
use crate::{Floor, Map, Spot};
use answers::Refusal;

// 1: whether width or height is outside 1 to the limit.
#[tactic(auto, unfolding(crate::specs::Refusals::sides_outside))]
fn sides_outside(limit: usize, map: &Map) -> bool
    ensures { result ≡ sides_outside limit map.now.width map.now.height }
{
    map.width < 1 || limit < map.width || map.height < 1 || limit < map.height
}

// The accepted floor: 1, 2, 3, in this order, for a call that takes sides up to the limit.
#[tactic(auto, unfolding(crate::specs::Tests::floor_tested, answers::specs::Refusing::first_refusal))]
pub fn floor_within<'a>(limit: usize, map: &Map<'a>) -> Result<Floor<'a>, Refusal>
    requires { Low limit }
    ensures tested { outcome result ≡ floor_tested limit (given map.now) }
    ensures same { IfOk result (λ f. floor_map f ≡ given map.now) }
{
    answers::refuse(Refusal::SidesOutside, sides_outside(limit, map))?;
    let long = map.height * row_bytes(map.width);
    answers::refuse(Refusal::MapLength, map.bytes.len() != long)?;
    let floor = Floor {
        width: map.width,
        height: map.height,
        bytes: map.bytes,
    };
    answers::refuse(Refusal::BitPastWidth, floor.past_width())?;
    Ok(floor)
}

impl Floor<'_> {
    // 4: a table has width × height entries.
    #[tactic(auto, unfolding(crate::specs::Refusals::wrong_table))]
    pub fn test_table(&self, entries: usize) -> Result<(), Refusal>
        ensures { result ≡ refuse Refusal.TableLength (wrong_table self.now.width self.now.height entries) }
    {
        answers::refuse(Refusal::TableLength, entries != self.cells())
    }

    // 5, 6: a place is on the floor.
    #[tactic(auto, unfolding(crate::specs::Refusals::off_floor))]
    pub fn test_on(&self, refusal: Refusal, spot: Spot) -> Result<(), Refusal>
        ensures { result ≡ refuse refusal (off_floor self.now.width self.now.height spot) }
    {
        answers::refuse(
            refusal,
            !(spot.column < self.width && spot.row < self.height),
        )
    }

    // 7, 8: a place is open.
    pub fn test_open(&self, refusal: Refusal, spot: Spot) -> Result<(), Refusal>
        ensures { result ≡ refuse refusal (closed (floor_map self.now) spot) }
    {
        answers::refuse(refusal, !self.open_at(spot.column, spot.row))
    }

    // 5, 6, 7, 8, in this order.
    #[tactic(auto, unfolding(crate::specs::Tests::places_tested, answers::specs::Refusing::first_refusal))]
    pub fn test_places(&self, start: Spot, goal: Spot) -> Result<(), Refusal>
        ensures { result ≡ places_tested (floor_map self.now) start goal }
    {
        self.test_on(Refusal::StartOffFloor, start)?;
        self.test_on(Refusal::GoalOffFloor, goal)?;
        self.test_open(Refusal::StartBlocked, start)?;
        self.test_open(Refusal::GoalBlocked, goal)
    }
}
