// Read on files made here: a line for each trial, with the answer and the lent lists after it.
// A digest stands for the lists, so that an entry that should not have changed shows.
#![tactic(auto)]

mod addresses; // addresses.rt: the address field with each length and each fault
mod alone; // alone.rt: a file read into lists of its own
mod changes; // changes.rt: the sample, and each change of a byte in a table
mod directions; // directions.rt: the direction field with each fault
mod logger_readings; // logger_readings.rt: readings of a logger
mod sizes; // sizes.rt: files and lists of other lengths
mod steps; // steps.rt: the step field with each fault

fn main(rt: HostRuntime) {
    changes::sample(&rt);
    addresses::all(&rt);
    directions::all(&rt);
    steps::all(&rt);
    logger_readings::all(&rt);
    sizes::files(&rt);
    sizes::lists(&rt);
}
