// Lengths: comparing two, and the distance spoken. A length is a pair, straight and diagonal steps, and stands for
// straight + diagonal × √2; it is compared and rounded exactly, over whole numbers.
#![tactic(auto)]

ghost use Rattle.std.specs.Prelude.{◌≡◌, ◌*◌, ◌≤◌};
ghost use Rattle.answers.specs.declared.Refusal.TheVariants.{LengthAbove, SizeOutside};
ghost use Rattle.answers.specs.Refusing.{refuse};
ghost use Rattle.lengths.specs.Order.{over, shorter as shorter_of};
ghost use Rattle.lengths.specs.Distance.{Nearest};
ghost use Rattle.lengths.specs.Answers.{way_part, part_above, size_outside, Compares, Speaks};
ghost use Rattle.lengths.specs.inner.AtMost.{Within};

use answers::Refusal;

// A length: straight steps, diagonal steps.
#[derive(Clone, Copy)]
pub struct Length {
    pub straight: u32,
    pub diagonal: u32,
}

// The most steps of a kind that a length has.
const WAY_PART: u32 = 16383;

// What a straight and a diagonal step weigh in a key, one number for a length that orders lengths as their exact
// values do.
pub const STRAIGHT_KEY: u32 = 13860;

pub const DIAGONAL_KEY: u32 = 19601;

// 12: whether a part is above `WAY_PART`.
#[tactic(auto, unfolding(crate::specs::Answers::part_above))]
fn test_parts(l: Length) -> Result<(), Refusal>
    ensures { result ≡ refuse LengthAbove (part_above way_part l) }
{
    answers::refuse(
        Refusal::LengthAbove,
        WAY_PART < l.straight || WAY_PART < l.diagonal,
    )
}

// The cell size is 1 to 1,000.
#[tactic(auto, unfolding(crate::specs::Answers::size_outside))]
pub fn test_size(size: usize) -> Result<(), Refusal>
    ensures { result ≡ refuse SizeOutside (size_outside size) }
{
    answers::refuse(Refusal::SizeOutside, size < 1 || 1000 < size)
}

// What a has over b.
#[tactic(auto, unfolding(crate::specs::Order::over))]
fn excess(a: Length, b: Length) -> u64
    requires { Within a }
    ensures { result ≡ over a b }
{
    let p = a.straight.saturating_sub(b.straight) as u64;
    let q = a.diagonal.saturating_sub(b.diagonal) as u64;
    p * p + 2 * (q * q)
}

// Whether a is shorter than b. Not an `Ord`: only lengths within the limit have an order, since the squares of others
// would overflow.
pub fn shorter(a: Length, b: Length) -> bool
    requires first_within { Within a }
    requires second_within { Within b }
    ensures { result ≡ shorter_of a b }
{
    excess(a, b) < excess(b, a)
}

// Comparing: whether the first is shorter. Refusal: LengthAbove.
pub fn compare(a: Length, b: Length) -> Result<bool, Refusal>
    ensures { Compares a b result }
{
    test_parts(a)?;
    test_parts(b)?;
    Ok(shorter(a, b))
}

// The whole number nearest to m√2: what the keys' ratio gives, rounded down, or one more; of a straight way 0 at once.
// Not by the library's `isqrt`, which takes many times as long.
fn nearest(m: u64) -> u64
    requires { m ≤ 1000 * way_part }
    ensures { (Nearest m result) × (result ≤ 2 * m) }
{
    if m == 0 {
        return 0;
    }
    let below = m * DIAGONAL_KEY as u64 / STRAIGHT_KEY as u64;
    let odd = 2 * below + 1;
    if odd * odd < 8 * (m * m) {
        below + 1
    } else {
        below
    }
}

// The distance spoken: the whole number of centimetres nearest to the exact length. Refusals: LengthAbove, SizeOutside,
// in this order.
pub fn distance_spoken(size: u32, l: Length) -> Result<u32, Refusal>
    ensures { Speaks size l result }
{
    test_parts(l)?;
    test_size(size as usize)?;
    let part = nearest(size as u64 * l.diagonal as u64);
    Ok(size * l.straight + part as u32)
}
