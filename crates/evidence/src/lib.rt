// Evidence: records as bytes, and tables kept through bytes.
// Table, system and rows go into each call one by one: of rows held in a struct no call could refuse another number.
#![tactic(auto)]

pub mod keep;
pub mod open;
pub mod read;
pub mod wire;
