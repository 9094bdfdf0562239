// Runs document 01's cases and boundaries, and every refusal through every call that gives it, and prints inputs and results.
// The cases stand in tables, which the program reads from standard input: the file `stdin` beside src/. `tables` says how they are written.
#![tactic(auto)]

mod checks;
mod counts;
mod docks;
mod hub_plans;
mod hubs;
mod joins;
mod library;
mod long_hubs;
mod long_joins;
mod long_lists;
mod output;
mod plans;
mod printed;
mod savers;
mod tables;
mod tickets;
mod turned_down;
mod walks;

use std::io;

// Tables that do not fit into the buffer would be missing from what is printed.
fn main(rt: HostRuntime) -> io::Result<()> {
    let mut buffer = [0u8; 32768];
    tables::each(&rt, standard_input::read_full(&rt, &mut buffer)?)
}
