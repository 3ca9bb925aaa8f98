// What the test programs share. No function here asks anything of its caller.
#![tactic(auto)]

pub mod lists; // lists.rt: entries and first entries of lists
pub mod shapes; // shapes.rt: long traces by formula
pub mod telling; // telling.rt: digests, and what stands in slices after a call
pub mod trials; // trials.rt: trials as lines of text
