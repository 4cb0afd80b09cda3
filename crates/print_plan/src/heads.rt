// What the first line says: the first refusal of a plan, or its floor, and so how many lines there are.
ghost use Rattle.std.specs.Prelude.{◌≡◌, ◌≤◌};
ghost use Rattle.answers.specs.Refusing.{first_refusal};
ghost use Rattle.floor.specs.Floor.{map_of};
ghost use Rattle.print_plan.specs.Lines.{plan_tests, Heads, count_of};

use answers::Refusal;
use floor::{LARGEST_SIDE, Map, links};
use plan::Plan;

// The most bytes of a plan that is read.
const MOST_BYTES: usize = 4096;

// 1, 2, 3, 13, in this order.
#[tactic(auto, unfolding(answers::specs::Refusing::first_refusal))]
fn test_plan(plan: Plan, bytes: &[u8]) -> Result<(), Refusal>
    ensures { result ≡ first_refusal (plan_tests (map_of plan.width plan.height bytes.now) plan.size) }
{
    let map = Map {
        width: plan.width,
        height: plan.height,
        bytes,
    };
    links::floor_within(LARGEST_SIDE, &map)?;
    lengths::test_size(plan.size)
}

// What the first line says. Refusals: 14 of too many bytes and of a broken plan, then 1, 2, 3, 13.
pub fn head_of(input: &[u8]) -> Result<Plan, Refusal>
    ensures { Heads input.now result }
{
    answers::refuse(Refusal::PlanBroken(MOST_BYTES), MOST_BYTES < input.len())?;
    let plan = plan::read(input)?;
    let end = plan.map_at + plan.map_len;
    test_plan(plan, &input[plan.map_at..end])?;
    Ok(plan)
}

// How many lines there are.
pub fn count_of(head: Result<Plan, Refusal>) -> usize
    requires { count_of head ≤ 65 }
    ensures { result ≡ count_of head }
{
    match head {
        Ok(plan) => 1 + plan.queries,
        Err(_) => 1,
    }
}
