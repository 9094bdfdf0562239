// The planner: a ticket and a lent buffer become a plan with the fewest cycles there are.
#![tactic(auto)]

ghost use Rattle.std.specs.Prelude.{◌≡◌, length, take};
ghost use Rattle.refusals.specs.Numbers.{told};
ghost use Rattle.ticket.specs.Ticket.{accepted, parse};
ghost use Rattle.ticket.specs.Grounds.{Fits};
ghost use Rattle.planner.specs.Plan.{plan_of, buffer_after, Answered};
ghost use Rattle.planner.specs.Numbers.{numbers_of};
ghost use Rattle.planner.specs.Demand3.{Demand3};

use counting::Cycle;
use header::{Header, limits};
use refusals::Refusal;

// Plans a list that is read: the cards of its frames stand at the front of `card`.
// `Fits` is asked here and has no type: clause `reads` of `ticket::read` has header and cards apart.
fn plan_list(h: Header, card: &[u8], out: &mut [u16]) -> Result<Cycle, Refusal>
    requires { Fits h (take h.frames card.now) }
    ensures { Answered (accepted h (take h.frames card.now)) out.old out.new (told result) }
{
    let n = usize::from(h.frames);
    if out.len() < n {
        return Err(Refusal::NoRoom);
    }
    Ok(mode_plans::fill(h.mode, &card[..n], h.pool, out))
}

// Plans a ticket: fills the first places of the buffer with each frame's cycle and answers T; later places keep their content.
// A refusal changes nothing. `demand` is demand 3, about the T answered and the plan that now stands in the buffer.
pub fn plan(ticket: &[u8], out: &mut [u16]) -> Result<Cycle, Refusal>
    ensures answer { told result ≡ plan_of (parse ticket.now) (length out.old) }
    ensures buffer { out.new ≡ buffer_after (parse ticket.now) out.old }
    ensures numbers { numbers_of (told result) ≡ numbers_of (plan_of (parse ticket.now) (length out.old)) }
    ensures demand { Demand3 ticket.now (numbers_of (told result)).refusal (numbers_of (told result)).cycles.0 out.new }
{
    let mut card = [0u8; limits::FRAMES];
    let h = ticket::read(ticket, &mut card)?;
    plan_list(h, &card, out)
}
