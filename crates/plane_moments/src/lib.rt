// The factor of one plane seen by frames: building it, and the calls on it.
#![tactic(auto)]

pub mod accumulate;
pub mod build;
pub mod linearize;
