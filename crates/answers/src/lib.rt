// What the calls share: why one is refused, and the test that refuses.
#![tactic(auto)]

ghost use Rattle.std.specs.Prelude.{◌≡◌};
ghost use Rattle.answers.specs.Numbers.{number_of, place_of};
ghost use Rattle.answers.specs.Refusing.{refuse};

// Why a call is refused. Three refusals come with a place: how many legs the way has, the first cell that differs, and
// the offset at which a plan breaks.
#[derive(Clone, Copy, PartialEq, Eq)]
pub enum Refusal {
    SidesOutside,
    MapLength,
    BitPastWidth,
    TableLength,
    StartOffFloor,
    GoalOffFloor,
    StartBlocked,
    GoalBlocked,
    NoWay,
    LegsShort(usize),
    TableWrong(usize),
    LengthAbove,
    SizeOutside,
    PlanBroken(usize),
}

impl Refusal {
    // The number given back for it.
    pub fn number(self) -> usize
        ensures { result ≡ number_of self }
    {
        match self {
            Refusal::SidesOutside => 1,
            Refusal::MapLength => 2,
            Refusal::BitPastWidth => 3,
            Refusal::TableLength => 4,
            Refusal::StartOffFloor => 5,
            Refusal::GoalOffFloor => 6,
            Refusal::StartBlocked => 7,
            Refusal::GoalBlocked => 8,
            Refusal::NoWay => 9,
            Refusal::LegsShort(_) => 10,
            Refusal::TableWrong(_) => 11,
            Refusal::LengthAbove => 12,
            Refusal::SizeOutside => 13,
            Refusal::PlanBroken(_) => 14,
        }
    }

    // The leg count, cell or offset that comes with it, else 0.
    pub fn place(self) -> usize
        ensures { result ≡ place_of self }
    {
        match self {
            Refusal::LegsShort(place) | Refusal::TableWrong(place) | Refusal::PlanBroken(place) => {
                place
            }
            _ => 0,
        }
    }
}

// A test: it refuses where the condition holds.
#[tactic(auto, unfolding(crate::specs::Refusing::refuse))]
pub fn refuse(refusal: Refusal, holds: bool) -> Result<(), Refusal>
    ensures { result ≡ refuse refusal holds }
{
    if holds {
        return Err(refusal);
    }
    Ok(())
}
