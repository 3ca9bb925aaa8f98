// Readings of loggers in IEEE 754 binary32: a value times 256, where that is a whole number within the span of lows and highs.
// Nothing here asks anything of its caller.
#![tactic(auto)]

pub mod floats; // floats.rt: the float of four bytes
pub mod conversion; // conversion.rt: a value and a reading in 256ths
pub mod trials; // trials.rt: the reading in the body of a field, tried and taken
