// The plan of a ticket, as numbers and as text.
ghost use Rattle.std.specs.Prelude.{◌≡◌, length};
ghost use Rattle.ticket.specs.Ticket.{parse};
ghost use Rattle.planner.specs.Plan.{plan_of, buffer_after};
ghost use Rattle.planner.specs.Numbers.{numbers_of};
ghost use Rattle.planner.specs.Demand3.{Demand3};
ghost use Rattle.print_lines.specs.Put.{bytes_in, buffer_after as text_after};
ghost use Rattle.printing.specs.Printed.{printed};
ghost use Rattle.plain_answers.specs.Answers.{plan_answer};

use plain_answers::plans::{PlanAnswer, plan_answer};

// Fills the first places of `plan`. `demand` is demand 3, about the T answered and the plan that now stands there.
pub fn dockplan_plan(ticket: &[u8], plan: &mut [u16]) -> PlanAnswer
    ensures answer { result ≡ plan_answer (numbers_of (plan_of (parse ticket.now) (length plan.old))) }
    ensures buffer { plan.new ≡ buffer_after (parse ticket.now) plan.old }
    ensures demand { Demand3 ticket.now result.refusal result.cycles.0 plan.new }
{
    plan_answer(planner::plan(ticket, plan))
}

// Prints over the front of `text` and answers how many bytes; 0, and nothing changes, where the whole text has no room.
pub fn dockplan_print(ticket: &[u8], text: &mut [u8]) -> usize
    ensures answer { result ≡ bytes_in (printed ticket.now) (length text.old) }
    ensures buffer { text.new ≡ text_after (printed ticket.now) text.old }
{
    printing::print(ticket, text)
}
