// A verdict, and a plan's run.
ghost use Rattle.std.specs.Prelude.{◌≡◌};
ghost use Rattle.refusals.specs.Numbers.{told};
ghost use Rattle.checker.specs.Numbers.{numbers_of};
ghost use Rattle.plan_run.specs.Numbers.{numbers_of as numbers_of_run};
ghost use Rattle.plain_answers.specs.Answers.{check_answer, run_answer};

use checker::Verdict;
use counting::{Cycle, Position};
use plan_run::Run;
use refusals::Refusal;

// A verdict by its number, as C has it; 0 beside a refusal, so that no cleared answer says valid.
const VALID: u8 = 1;

const NO_CYCLE: u8 = 2;

const SHARED_CARD: u8 = 3;

const OVERFULL: u8 = 4;

#[repr(C)]
#[derive(Clone, Copy)]
pub struct CheckAnswer {
    pub refusal: u8,
    pub verdict: u8,
    pub position: Position,
    pub cycles: Cycle,
    pub peak: u16,
}

// A plan's run: whether it broke off, whether all frames were handed over, how many were, the cycles that ended, the cycles needed if
// complete, and the peak.
#[repr(C)]
#[derive(Clone, Copy)]
pub struct RunAnswer {
    pub refusal: u8,
    pub broken: bool,
    pub complete: bool,
    pub delivered: u16,
    pub ended: Cycle,
    pub needed: Cycle,
    pub peak: u16,
}

fn fault(verdict: u8, p: Position) -> CheckAnswer
    ensures { result ≡ record { refusal = 0; verdict = verdict; position = p; cycles = record { 0 = 0 }; peak = 0 } }
{
    CheckAnswer {
        refusal: 0,
        verdict,
        position: p,
        cycles: Cycle(0),
        peak: 0,
    }
}

pub fn check_answer(answer: Result<Verdict, Refusal>) -> CheckAnswer
    ensures { result ≡ check_answer (numbers_of (told answer)) }
{
    match answer {
        Ok(Verdict::Valid(cycles, peak)) => CheckAnswer {
            refusal: 0,
            verdict: VALID,
            position: Position(0),
            cycles,
            peak,
        },
        Ok(Verdict::NoCycle(p)) => fault(NO_CYCLE, p),
        Ok(Verdict::SharedCard(p)) => fault(SHARED_CARD, p),
        Ok(Verdict::Overfull(p)) => fault(OVERFULL, p),
        Err(refusal) => CheckAnswer {
            refusal: u8::from(refusal),
            verdict: 0,
            position: Position(0),
            cycles: Cycle(0),
            peak: 0,
        },
    }
}

pub fn run_answer(answer: Result<Run, Refusal>) -> RunAnswer
    ensures { result ≡ run_answer (numbers_of_run (told answer)) }
{
    match answer {
        Ok(run) => RunAnswer {
            refusal: 0,
            broken: run.broken,
            complete: run.needed.is_some(),
            delivered: run.delivered,
            ended: run.ended,
            needed: run.needed.unwrap_or(Cycle(0)),
            peak: run.peak,
        },
        Err(refusal) => RunAnswer {
            refusal: u8::from(refusal),
            broken: false,
            complete: false,
            delivered: 0,
            ended: Cycle(0),
            needed: Cycle(0),
            peak: 0,
        },
    }
}
