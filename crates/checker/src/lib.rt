// The checker: whether a plan that anyone made for a ticket meets the paper's conditions, and if not, where.
#![tactic(auto)]

ghost use Rattle.std.specs.Prelude.{◌≡◌, take};
ghost use Rattle.refusals.specs.Numbers.{told};
ghost use Rattle.ticket.specs.Ticket.{accepted, parse};
ghost use Rattle.ticket.specs.Grounds.{Fits};
ghost use Rattle.checker.specs.Check.{check_of};
ghost use Rattle.checker.specs.Numbers.{numbers_of};
ghost use Rattle.checker.specs.Exact.{Exact};

mod verdicts;

use counting::{Cycle, Position};
use header::{Header, limits};
use refusals::Refusal;

// A valid plan has T and, for a read, the peak of its run on a dock with a buffer for every frame: the buffers that it needs, so that it is valid
// for every pool from there on. Otherwise the lowest position at fault is named with the first of its faults.
#[derive(Clone, Copy, Debug, PartialEq, Eq)]
pub enum Verdict {
    Valid(Cycle, u16),
    NoCycle(Position),
    SharedCard(Position),
    Overfull(Position),
}

// Checks a plan for a list that is read: the cards of its frames stand at the front of `card`.
// `Fits` is asked here and has no type: clause `reads` of `ticket::read` has header and cards apart, so a type would be made for this one call.
fn check_list(h: Header, card: &[u8], plan: &[u16]) -> Result<Verdict, Refusal>
    requires { Fits h (take h.frames card.now) }
    ensures { told result ≡ check_of (accepted h (take h.frames card.now)) plan.now }
{
    if h.mode == limits::MODE_SAVE_AND_KEEP {
        return Err(Refusal::KeepNotChecked);
    }
    let n = usize::from(h.frames);
    if plan.len() != n {
        return Err(Refusal::PlanLength);
    }
    Ok(verdicts::verdict(h.mode == limits::MODE_SAVE, &card[..n], plan, h.pool))
}

// Checks a plan for a ticket. `exact` is demand 2's last sentence, that a plan is called valid exactly when it meets the paper's conditions;
// that a fault is named as document 01 says: the lowest position at fault, and of its faults the first; and what the peak tells (request 2026-05).
pub fn check(ticket: &[u8], plan: &[u16]) -> Result<Verdict, Refusal>
    ensures answer { told result ≡ check_of (parse ticket.now) plan.now }
    ensures numbers { numbers_of (told result) ≡ numbers_of (check_of (parse ticket.now) plan.now) }
    ensures exact { Exact ticket.now plan.now (numbers_of (told result)).verdict (numbers_of (told result)).position.0 (numbers_of (told result)).peak }
{
    let mut card = [0u8; limits::FRAMES];
    let h = ticket::read(ticket, &mut card)?;
    check_list(h, &card, plan)
}
