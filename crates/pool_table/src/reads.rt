// The pools of a read plan, from the table of how many frames have a cycle up to each cycle.
// The lowest overfull frame is ahead of all earlier ones, and there what it needs, a buffer for itself and one for each frame that counts, is a
// difference of the table's entry and its position.
ghost use Rattle.std.specs.Prelude.{◌≡◌, false};
ghost use Rattle.pool_counts.specs.Pools.{roomy_of, peak_among};
ghost use Rattle.pool_table.specs.Table.{Table};

use counting::Cycle;
use pool_counts::{Room, plans};

// Goes through the frames, up to the first that is overfull.
pub(crate) fn roomy(plan: &[u16], top: Cycle, table: &[u16], m: u16) -> Room
    requires { Table plan.now table.now top.0 }
    ensures roomy { result.roomy ≡ roomy_of false m plan.now }
    ensures peak { result.peak ≡ peak_among plan.now result.roomy }
{
    // i is below 4,096: a `try_from` would answer a Result that is never an Err
    plans::roomy_read(plan, m, |i, c| table[c] - i as u16)
}
