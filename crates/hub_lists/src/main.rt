// The hub's compiled code against definitions written anew from request 2026-06, for all short lists of cameras: the answer, every card and the
// places behind them; and for tickets of these cards, planned as a read and as a save, T against the load of the fullest card. Writes what was
// covered and what differed.
#![tactic(auto)]

mod compare;
mod lists;
mod report;
mod rules;
mod tickets;

use lists::Lists;
use report::Counts;
use std::io;

// For so many cameras, all lists of a number of frames from one up to another, in runs of so many of one camera, each with so many choices of patterns.
fn main(rt: HostRuntime) -> io::Result<()> {
    let mut counts = Counts::default();
    report::heading(&rt)?;
    for lists in [
        Lists::new(1, 0, 24, 1, 8),
        Lists::new(2, 0, 12, 1, 64),
        Lists::new(3, 0, 9, 1, 64),
        Lists::new(4, 0, 6, 1, 64),
        Lists::new(5, 0, 5, 1, 64),
        Lists::new(6, 0, 5, 1, 64),
        Lists::new(2, 16, 16, 1, 16),
        Lists::new(4, 24, 24, 4, 64),
        Lists::new(6, 24, 24, 8, 64),
    ] {
        compare::compare_all(&rt, &mut counts, lists)?;
    }
    report::summary(&rt, &counts)
}
