// G66: whether its numbers fit together (refusal 18), how many hits it makes, and where they lie.
#![tactic(auto)]

mod fractions; // an axis of a hit, as a fraction that is rounded once
pub mod numbers; // refusal 18, and the steps
pub mod places; // where the hits lie
