// What trials are made of: numbers that look random, floors laid from numbers, and altered entries.
//
// Nothing is promised of what is made, but that every function ends, with no index out of range and no number that
// wraps.
#![tactic(auto)]

pub mod entries;
pub mod floors;
pub mod random;
