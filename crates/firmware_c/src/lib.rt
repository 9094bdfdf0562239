// The exports for C and Rust: include/dockplan.h declares them. Each makes the call of crates/firmware that has its name, and its contract is
// that call's. A slice crosses as a pointer and a count, an answer as a struct of numbers.
#![tactic(auto)]

pub mod checks;
pub mod hubs;
pub mod joins;
pub mod plans;
pub mod savers;
pub mod tickets;
pub mod version;
