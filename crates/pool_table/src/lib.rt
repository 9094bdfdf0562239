// The pools of a plan whose cycles are up to 4,096, in one pass over its frames and without counting for each: how many frames have room, up
// to the first that has not, and the peak of a read.
#![tactic(auto)]

ghost use Rattle.std.specs.Prelude.{◌≡◌, ◌≤◌, length};
ghost use Rattle.pool_counts.specs.Pools.{roomy_of, peak_of};
ghost use Rattle.pool_table.specs.Table.{Low};

mod reads;
mod saves;
mod table;

use counting::Cycle;
use header::limits;
use pool_counts::Room;

// The pools of a plan whose cycles are up to `top`. docs/PROMISES.md names this call and its clauses, so its premises stay, and so does the flag
// `save`: it picks one of two passes, once a call, and the clauses speak of it. Below, a type with `Low` would be made here for `fill` and `add_up`
// alone. Where a pool is counted with, a NonZeroU16 in the place of `1 ≤ m` would be taken apart again.
pub fn pools(save: bool, plan: &[u16], top: Cycle, m: u16) -> Room
    requires { Low plan.now top.0 × (1 ≤ m) }
    ensures roomy { result.roomy ≡ roomy_of save m plan.now }
    ensures peak { result.roomy ≡ length plan.now → result.peak ≡ peak_of save plan.now }
{
    let mut table = [0u16; limits::FRAMES + 1];
    if save {
        let found = saves::roomy(plan, m, &mut table);
        return Room {
            roomy: found,
            peak: 0,
        };
    }
    table::fill(plan, top, &mut table);
    reads::roomy(plan, top, &table, m)
}
