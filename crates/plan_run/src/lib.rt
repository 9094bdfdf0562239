// A plan's run on the dock: its list of steps, driven from the empty dock of a ticket's list and pool.
#![tactic(auto)]

ghost use Rattle.std.specs.Prelude.{◌≡◌, take};
ghost use Rattle.refusals.specs.Numbers.{told};
ghost use Rattle.ticket.specs.Ticket.{accepted, parse};
ghost use Rattle.ticket.specs.Grounds.{Fits};
ghost use Rattle.plan_run.specs.Numbers.{numbers_of};
ghost use Rattle.plan_run.specs.Run.{ran_of};

mod answers;
mod chain;
mod cycle;

use counting::Cycle;
use cycle::Plan;
use header::{Header, limits};
use refusals::Refusal;

// A plan's run: whether it broke off, frames handed over, cycles ended, cycles needed to hand all frames over if that was done, and the peak.
#[derive(Clone, Copy, Debug, PartialEq, Eq)]
pub struct Run {
    pub broken: bool,
    pub delivered: u16,
    pub ended: Cycle,
    pub needed: Option<Cycle>,
    pub peak: u16,
}

// Runs a plan on the dock of a list that is read: the cards of its frames stand at the front of `memory`.
// `Fits` is asked here and has no type: clause `reads` of `ticket::read` has header and cards apart, and the cards become the dock's memory.
fn run_list(h: Header, plan: &[u16], memory: &mut [u8]) -> Result<Run, Refusal>
    requires { Fits h (take h.frames memory.old) }
    ensures { told result ≡ ran_of (accepted h (take h.frames memory.old)) plan.now }
{
    let n = usize::from(h.frames);
    if plan.len() != n {
        return Err(Refusal::PlanLength);
    }
    let p = run_progress::at_start(h.frames, h.pool);
    let last = schedule::cycles_in(plan);
    let q = chain::all_cycles(p, Plan { cycles: plan }, last, memory);
    Ok(answers::answer(q))
}

// Runs a plan on the dock of a ticket's list and pool, whatever the ticket's mode.
pub fn run_plan(ticket: &[u8], plan: &[u16]) -> Result<Run, Refusal>
    ensures answer { told result ≡ ran_of (parse ticket.now) plan.now }
    ensures numbers { numbers_of (told result) ≡ numbers_of (ran_of (parse ticket.now) plan.now) }
{
    let mut card = [0u8; limits::FRAMES];
    let h = ticket::read(ticket, &mut card)?;
    run_list(h, plan, &mut card)
}
