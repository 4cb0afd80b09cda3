// The plan reader (REFERENCE, "Plans"): any bytes are read as a chain of records, and the answer is what a
// sound plan holds and where, or the place of the break.
#![tactic(auto)]

ghost use Rattle.std.specs.Prelude.{◌≡◌, ◌+◌, ◌≤◌, length, drop, IfSome};
ghost use Rattle.plan.specs.Records.{number_in};
ghost use Rattle.plan.specs.Reads.{Reads, query_at, Asks};
ghost use Rattle.plan.specs.inner.Steps.{kind_number, record_at, fixed_record_at, count_from, Lies};

use answers::Refusal;

// What a sound plan holds, and where its map and its queries lie: offsets, which C reads. The numbers are not judged.
#[derive(Clone, Copy)]
pub struct Plan {
    pub width: usize,
    pub height: usize,
    pub size: usize,
    pub map_at: usize,
    pub map_len: usize,
    pub queries: usize,
    pub first_query: usize,
}

// A query: the start's column and row, and the goal's, four numbers as the record has them: this crate knows no floor.
#[derive(Clone, Copy)]
pub struct Query {
    pub start_col: usize,
    pub start_row: usize,
    pub goal_col: usize,
    pub goal_row: usize,
}

// The kinds of records, with their numbers.
#[derive(Clone, Copy)]
enum Kind {
    Floor = 1,
    Map = 2,
    Size = 3,
    Query = 4,
}

impl Kind {
    // The number that a record's header states for it.
    fn number(self) -> usize
        ensures { result ≡ kind_number self }
    {
        self as usize
    }
}

// A record's content: where it begins, how long it is, and where the next record begins.
#[derive(Clone, Copy)]
struct Content {
    at: usize,
    len: usize,
    next: usize,
}

// The most queries of a plan.
const MOST_QUERIES: usize = 64;

// Bytes and offset stay two parameters below: of a reader that moves each contract would also say that its bytes stay,
// and where it stands.

// The number in the 2 bytes at an offset, little-endian.
#[tactic(auto, using(crate::proofs::Numbers::number_there))]
fn number_at(bytes: &[u8], at: usize) -> usize
    requires { at + 2 ≤ length bytes.now }
    ensures { result ≡ number_in (drop at bytes.now) }
{
    u16::from_le_bytes([bytes[at], bytes[at + 1]]) as usize
}

// The record of a kind that begins at an offset; None where it is missing, cut off or of another kind.
fn record_at(bytes: &[u8], at: usize, kind: Kind) -> Option<Content>
    requires { at ≤ length bytes.now }
    ensures value { result ≡ record_at bytes.now at (kind_number kind) }
    ensures within { IfSome result (λ c. Lies bytes.now at c) }
{
    let left = bytes.len() - at;
    if left < 4 {
        return None;
    }
    let len = number_at(bytes, at);
    if left - 4 < len || number_at(bytes, at + 2) != kind.number() {
        return None;
    }
    Some(Content {
        at: at + 4,
        len,
        next: at + 4 + len,
    })
}

// The same of a kind whose content has a fixed length; None also where it has another.
fn fixed_record_at(bytes: &[u8], at: usize, kind: Kind, len: usize) -> Option<Content>
    requires { at ≤ length bytes.now }
    ensures value { result ≡ fixed_record_at bytes.now at (kind_number kind) len }
    ensures within { IfSome result (λ c. (c.len ≡ len) × Lies bytes.now at c) }
{
    let content = record_at(bytes, at, kind)?;
    if content.len != len {
        return None;
    }
    Some(content)
}

// How many queries stand one after another from an offset, up to the most that a plan has.
fn count_queries(bytes: &[u8], first: usize) -> usize
    requires { first ≤ length bytes.now }
    ensures value { result ≡ count_from bytes.now 64 first }
    ensures few { result ≤ 64 }
{
    let mut at = first;
    for count in 0..MOST_QUERIES {
        let Some(query) = fixed_record_at(bytes, at, Kind::Query, 8) else {
            return count;
        };
        at = query.next;
    }
    MOST_QUERIES
}

// The query whose record begins at an offset.
pub fn query_at(bytes: &[u8], at: usize) -> Query
    requires { at + 12 ≤ length bytes.now }
    ensures { result ≡ query_at bytes.now at }
{
    Query {
        start_col: number_at(bytes, at + 4),
        start_row: number_at(bytes, at + 6),
        goal_col: number_at(bytes, at + 8),
        goal_row: number_at(bytes, at + 10),
    }
}

// The query whose record, of 12 bytes, begins at an offset. Refusal: PlanBroken, where the bytes end before the record
// does; it comes with no place.
pub fn ask_query(bytes: &[u8], at: usize) -> Result<Query, Refusal>
    ensures { Asks bytes.now at result }
{
    answers::refuse(Refusal::PlanBroken(0), bytes.len().saturating_sub(at) < 12)?;
    Ok(query_at(bytes, at))
}

// What the bytes are as a plan. Refusal: PlanBroken, with the offset of the break.
pub fn read(bytes: &[u8]) -> Result<Plan, Refusal>
    ensures { Reads bytes.now result }
{
    let floor = fixed_record_at(bytes, 0, Kind::Floor, 4).ok_or(Refusal::PlanBroken(0))?;
    let map = record_at(bytes, floor.next, Kind::Map).ok_or(Refusal::PlanBroken(floor.next))?;
    let size = fixed_record_at(bytes, map.next, Kind::Size, 2).ok_or(Refusal::PlanBroken(
        map.next,
    ))?;
    let queries = count_queries(bytes, size.next);
    let end = size.next + 12 * queries;
    answers::refuse(Refusal::PlanBroken(end), end < bytes.len())?;
    Ok(Plan {
        width: number_at(bytes, floor.at),
        height: number_at(bytes, floor.at + 2),
        size: number_at(bytes, size.at),
        map_at: map.at,
        map_len: map.len,
        queries,
        first_query: size.next,
    })
}
