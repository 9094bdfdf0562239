// The table of how many frames of a plan have a cycle up to each cycle. `Low` is the premise of `pools`, and src/lib.rt says why it has no type.
ghost use Rattle.header.specs.Limits.{max_frames};
ghost use Rattle.pool_table.specs.Table.{Zeroed, Low, Tallied, Table};

use counting::Cycle;

// Counts the frames of each cycle.
fn tally(plan: &[u16], table: &mut [u16])
    requires { Zeroed table.old × Low plan.now max_frames }
    ensures { Tallied plan.now table.new }
{
    for cycle in plan {
        table[usize::from(*cycle)] += 1;
    }
}

// Adds the counts up, to the largest cycle.
fn add_up(plan: &[u16], top: Cycle, table: &mut [u16])
    requires { Tallied plan.now table.old × Low plan.now top.0 }
    ensures { Table plan.now table.new top.0 }
{
    let mut sum: u16 = 0;
    for count in table[..=usize::from(top)].iter_mut() {
        sum += *count;
        *count = sum;
    }
}

// Fills a table of zeros with how many frames have a cycle up to each cycle.
pub(crate) fn fill(plan: &[u16], top: Cycle, table: &mut [u16])
    requires { Zeroed table.old × Low plan.now top.0 }
    ensures { Table plan.now table.new top.0 }
{
    tally(plan, table);
    add_up(plan, top, table);
}
