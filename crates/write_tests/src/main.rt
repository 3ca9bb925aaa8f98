// Write on lists made here: a line for each trial, with the answer and the lent bytes after it, and what is read back.
// A digest stands for the bytes, so that one that should not have changed shows.
#![tactic(auto)]

mod answers; // answers.rt: a call of Write, what is written of its answer, and what is read back
mod lists; // lists.rt: lists and slices of different lengths
mod values; // values.rt: values at the ends of their spans, and past them

use definitions::limits::WRITE_ROOM;

// The trials before the last fill the same bytes: what one left in them shows in the next.
fn main(rt: HostRuntime) {
    let mut file = [170u8; WRITE_ROOM];
    lists::most(&rt, &mut file);
    values::all(&rt, &mut file);
    lists::cut(&rt, &mut file);
    lists::falling(&rt, &mut file);
    lists::stepped(&rt, &mut file);
    lists::falling_stepped(&rt, &mut file);
    lists::lengths(&rt);
}
