// The fit of one run of ranges: how far a run goes, and its polygon.
#![tactic(auto)]

mod chain; // chain.rt: what a new end leaves of the chains
pub mod cut; // cut.rt: the polygon with one more range
pub mod ends; // ends.rt: ranges by value, and their ends in the chains and as points
pub mod last_run; // last_run.rt: the segment then running after some ranges
pub mod points; // points.rt: points, and the lines through them
pub mod polygon; // polygon.rt: the polygon of a fit as two chains and two lines
pub mod run; // run.rt: the run that begins at a range
