// A plan that anyone made: its verdict, and its run on the dock.
ghost use Rattle.std.specs.Prelude.{◌≡◌};
ghost use Rattle.ticket.specs.Ticket.{parse};
ghost use Rattle.checker.specs.Numbers.{numbers_of};
ghost use Rattle.checker.specs.Check.{check_of};
ghost use Rattle.checker.specs.Exact.{Exact};
ghost use Rattle.plan_run.specs.Numbers.{numbers_of as numbers_of_run};
ghost use Rattle.plan_run.specs.Run.{ran_of};
ghost use Rattle.plain_answers.specs.Answers.{check_answer, run_answer};

use plain_answers::checks;
use plain_answers::checks::{CheckAnswer, RunAnswer};

// `exact` is demand 2's last sentence: a plan is called valid exactly when it meets the paper's conditions; and what the peak tells (request 2026-05).
pub fn dockplan_check(ticket: &[u8], plan: &[u16]) -> CheckAnswer
    ensures answer { result ≡ check_answer (numbers_of (check_of (parse ticket.now) plan.now)) }
    ensures exact { Exact ticket.now plan.now result.verdict result.position.0 result.peak }
{
    checks::check_answer(checker::check(ticket, plan))
}

pub fn dockplan_run_plan(ticket: &[u8], plan: &[u16]) -> RunAnswer
    ensures { result ≡ run_answer (numbers_of_run (ran_of (parse ticket.now) plan.now)) }
{
    checks::run_answer(plan_run::run_plan(ticket, plan))
}
