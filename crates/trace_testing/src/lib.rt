// What the programs over Read and Write share. No function here asks anything of its caller.
#![tactic(auto)]

pub mod making; // making.rt: trace files
pub mod reading; // reading.rt: a call of Read, and what is written of its answer
pub mod telling; // telling.rt: answers, and digests of slices
