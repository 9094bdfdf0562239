// A plan's T.
ghost use Rattle.std.specs.Prelude.{◌≡◌};
ghost use Rattle.refusals.specs.Numbers.{told};
ghost use Rattle.planner.specs.Numbers.{numbers_of};
ghost use Rattle.plain_answers.specs.Answers.{plan_answer};

use counting::Cycle;
use refusals::Refusal;

// A plan of so many cycles.
#[repr(C)]
#[derive(Clone, Copy)]
pub struct PlanAnswer {
    // C has no Result: a refusal's number stands beside the answer, 0 for none, in this struct as in the others.
    pub refusal: u8,
    pub cycles: Cycle,
}

pub fn plan_answer(answer: Result<Cycle, Refusal>) -> PlanAnswer
    ensures { result ≡ plan_answer (numbers_of (told answer)) }
{
    match answer {
        Ok(cycles) => PlanAnswer { refusal: 0, cycles },
        Err(refusal) => PlanAnswer {
            refusal: u8::from(refusal),
            cycles: Cycle(0),
        },
    }
}
