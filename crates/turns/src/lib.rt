// Blocks outside bodies that need no stored bodies: what they leave, and what comes next.
#![tactic(auto)]

mod origins; // G93 and G98
pub mod outside; // blocks that stand only outside bodies
pub mod turn; // what blocks leave, and what comes next
