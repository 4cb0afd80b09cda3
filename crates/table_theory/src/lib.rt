// The entries of a length table: what they say, and what its neighbours make a cell. The definitions stand in specs/,
// and the theorem that ties the two together in proofs/. This crate has no function of its own.
#![tactic(auto)]

// The mark: a blocked cell, or an open one without a way to the goal. An entry is the number that C lends: straight
// steps times 65536, and diagonal ones. A type for it would be made and taken apart at each cell.
pub const MARK: u32 = 4294967295;
