// The worked cases that are proved: the list stands in specs/, and the proof that every case of it holds in proofs/.
#![tactic(auto)]
