// The answers of the calls as structs of numbers, which C and Rust take: a refusal's number in each, and the numbers of document 01 for what an
// enum says.
#![tactic(auto)]

pub mod checks;
pub mod hubs;
pub mod joins;
pub mod plans;
pub mod tickets;
