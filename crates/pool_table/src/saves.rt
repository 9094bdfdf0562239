// The pools of a save plan, frame by frame in list order.
ghost use Rattle.std.specs.Prelude.{◌≡◌, true, ◌≤◌};
ghost use Rattle.header.specs.Limits.{max_frames};
ghost use Rattle.pool_counts.specs.Pools.{roomy_of};
ghost use Rattle.pool_table.specs.Table.{Zeroed, Low};

// Goes through the frames, up to the first that is overfull. The table is lent with zeros in it. `Low` and `1 ≤ m` are the premises of `pools`, and
// src/lib.rt says why they have no type.
//   due[c]   how many frames so far have cycle c
//   full     how many cycles, from 0 on, are full: of the frames so far, m or more are in each of them or after it
//   above    how many frames so far are after the full cycles
pub(crate) fn roomy(plan: &[u16], m: u16, due: &mut [u16]) -> usize
    requires { Zeroed due.old × Low plan.now max_frames × (1 ≤ m) }
    ensures { result ≡ roomy_of true m plan.now }
{
    // A count is as wide as an index: with 16 bits the loop takes a fifth more time on some plans.
    let pool = usize::from(m);
    let mut full: usize = 0;
    let mut above: usize = 0;
    for (i, cycle) in plan.iter().enumerate() {
        // As many turns as cycles are full now, which no range tells beforehand.
        while pool <= above {
            above -= usize::from(due[full]);
            full += 1;
        }
        let c = usize::from(*cycle);
        if c < full {
            return i;
        }
        due[c] += 1;
        above += 1;
    }
    plan.len()
}
