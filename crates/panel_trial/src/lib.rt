// The trial of a panel and of a range for it, on its entries and the numbers in its places.
#![tactic(auto)]

pub mod decisions; // decisions.rt: which refusal a range gets, or where it goes
pub mod heads; // heads.rt: whether a panel is one
pub mod tallies; // tallies.rt: counts and sums
