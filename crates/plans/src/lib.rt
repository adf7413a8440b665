// Plans: up to eight tasks with their streams, made by their numbers or from records.
#![tactic(auto)]

pub mod build;
pub mod field;
pub mod limits;
pub mod plan;
pub mod record;
