// A joined ticket's bytes.
ghost use Rattle.std.specs.Prelude.{◌≡◌};
ghost use Rattle.refusals.specs.Numbers.{told};
ghost use Rattle.join.specs.Numbers.{numbers_of};
ghost use Rattle.plain_answers.specs.Answers.{join_answer};

use refusals::Refusal;

// A joined ticket of so many bytes.
#[repr(C)]
#[derive(Clone, Copy)]
pub struct JoinAnswer {
    pub refusal: u8,
    pub bytes: usize,
}

pub fn join_answer(answer: Result<usize, Refusal>) -> JoinAnswer
    ensures { result ≡ join_answer (numbers_of (told answer)) }
{
    match answer {
        Ok(bytes) => JoinAnswer { refusal: 0, bytes },
        Err(refusal) => JoinAnswer {
            refusal: u8::from(refusal),
            bytes: 0,
        },
    }
}
