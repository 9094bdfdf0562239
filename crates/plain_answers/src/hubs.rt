// How many cards the hub gave.
ghost use Rattle.std.specs.Prelude.{◌≡◌};
ghost use Rattle.refusals.specs.Numbers.{told};
ghost use Rattle.hub.specs.Numbers.{numbers_of};
ghost use Rattle.plain_answers.specs.Answers.{hub_answer};

use refusals::Refusal;

// So many cards given.
#[repr(C)]
#[derive(Clone, Copy)]
pub struct HubAnswer {
    pub refusal: u8,
    pub frames: u16,
}

pub fn hub_answer(answer: Result<u16, Refusal>) -> HubAnswer
    ensures { result ≡ hub_answer (numbers_of (told answer)) }
{
    match answer {
        Ok(frames) => HubAnswer { refusal: 0, frames },
        Err(refusal) => HubAnswer {
            refusal: u8::from(refusal),
            frames: 0,
        },
    }
}
