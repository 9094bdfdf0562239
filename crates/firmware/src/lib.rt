// The planner's calls for C and Rust, with slices, and structs of numbers for answers. Each call makes the call of the crates below that its
// name says, and its contract is that call's. crates/firmware_c exports them as the static library that include/dockplan.h declares.
#![tactic(auto)]

pub mod checks;
pub mod hubs;
pub mod joins;
pub mod plans;
pub mod savers;
pub mod tickets;
pub mod version;
