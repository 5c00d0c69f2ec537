// The press: where a block's X and Y lie, and hits and stops, judged by refusals 14 to 17.
#![tactic(auto)]

pub mod entries; // an entry of the list, and a stop
pub mod hits; // a hit
pub mod moves; // blocks that name a position
