// The plan of a list that is read, for each mode, from one pass. The planner and the printed plan are made of it.
#![tactic(auto)]

ghost use Rattle.schedule.specs.Greedy.{greedy_writing, save_and_keep, lazy_prefetching};
ghost use Rattle.greedy_pass.specs.Pass.{Asked};
ghost use Rattle.mode_plans.specs.Filled.{Filled};
ghost use Rattle.mode_plans.specs.Plans.{plan_for};

use counting::Cycle;
use header::limits;

// The list, the pool and the buffer stay parameters with one fact, `Asked`: they are those of `pass` and of `fill`, whose contracts other crates
// may call by (docs/DECISIONS.md).

// A read is the save of the list from its back, turned round: cycle c of a schedule of T cycles becomes T − c + 1.
fn read_plan(cards: &[u8], m: u16, out: &mut [u16]) -> Cycle
    requires { Asked m cards.now out.old }
    ensures { Filled (lazy_prefetching m cards.now) out.old out.new result.0 }
{
    let turned = greedy_pass::pass(cards, m, true, out);
    for cycle in &mut out[..cards.len()] {
        *cycle = turned.all.0 - *cycle + 1;
    }
    turned.all
}

fn save_plan(cards: &[u8], m: u16, out: &mut [u16]) -> Cycle
    requires { Asked m cards.now out.old }
    ensures { Filled (greedy_writing m cards.now) out.old out.new result.0 }
{
    greedy_pass::pass(cards, m, false, out).all
}

// Save and keep shows 0 for a cycle that is not made, since the frame then stays in the pool.
fn keep_plan(cards: &[u8], m: u16, out: &mut [u16]) -> Cycle
    requires { Asked m cards.now out.old }
    ensures { Filled (save_and_keep m cards.now) out.old out.new result.0 }
{
    let kept = greedy_pass::pass(cards, m, false, out);
    for shown in &mut out[..cards.len()] {
        *shown = if *shown <= kept.made.0 { *shown } else { 0 };
    }
    kept.made
}

// Fills the first places with the plan of the list, and answers T.
pub fn fill(mode: u8, cards: &[u8], m: u16, out: &mut [u16]) -> Cycle
    requires { Asked m cards.now out.old }
    ensures { Filled (plan_for mode m cards.now) out.old out.new result.0 }
{
    match mode {
        limits::MODE_READ => read_plan(cards, m, out),
        limits::MODE_SAVE => save_plan(cards, m, out),
        _ => keep_plan(cards, m, out),
    }
}
