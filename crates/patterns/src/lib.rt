// Patterns: where their hits lie, and carrying them out; pattern memory.
#![tactic(auto)]

mod places; // where the hits lie
pub mod runs; // carrying a pattern out, and pattern memory
mod series; // the hits of each kind of pattern, in turn
mod sizes; // how many hits a grid has, how far a pattern reaches, and refusal 18
