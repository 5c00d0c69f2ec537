// A whole program, line after line.
#![tactic(auto)]

pub mod lines; // the lines of a text
