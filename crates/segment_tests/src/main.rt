// Segment on the trials of standard input and on long traces by formula: for each its segments, and whether the slices
// past them are as they were. A digest stands for all numbers of all segments, as of a long answer only some are written.
// The stored output was found by brute force; `compare/run --answers segment <crates/segment_tests/stdin` prints it.
#![tactic(auto)]

mod answers; // answers.rt: a call of Segment, and what is written of its answer
mod long; // long.rt: traces by formula
mod rows; // rows.rt: the eleven numbers of a segment
mod trials; // trials.rt: traces from text

fn main(rt: HostRuntime) {
    let mut text = io::large_buffer();
    let n = io::read_full(0, &mut text);
    trials::all(&rt, &text[..n]);
    long::all(&rt);
}
