// The validator: whether an image is good and a capture short enough, and else by which number and at which place it is refused.
// What is refused is defined in image/specs/Refusals.antt, since whatever runs a machine relies on it.
#![tactic(auto)]

pub mod check;
pub mod rule_check;
