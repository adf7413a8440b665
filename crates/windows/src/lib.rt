// Response windows: what a kept table says of a plan's own runs.
#![tactic(auto)]

pub mod read;
pub mod window;
