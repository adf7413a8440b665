// The listing of a plan: its response windows, as text.
#![tactic(auto)]

pub mod export;
mod finish;
mod lines;
pub mod list;
mod page;
pub mod part;
