// What a ticket says: its header, the line at a position, and the frames of each card.
ghost use Rattle.std.specs.Prelude.{◌≡◌};
ghost use Rattle.refusals.specs.Numbers.{told, number_or_0};
ghost use Rattle.header.specs.Numbers.{numbers_of};
ghost use Rattle.plain_answers.specs.Answers.{ticket_answer};

use header::{Header, limits};
use refusals::Refusal;

// What the header of a ticket says.
#[repr(C)]
#[derive(Clone, Copy)]
pub struct TicketAnswer {
    pub refusal: u8,
    pub edition: u8,
    pub mode: u8,
    pub cards: u8,
    pub pool: u16,
    pub frames: u16,
}

// A part of the caller's ticket: so many bytes from byte `offset` on.
#[repr(C)]
#[derive(Clone, Copy)]
pub struct Part {
    pub offset: usize,
    pub length: usize,
}

// How many frames each of the 32 cards has.
#[repr(C)]
#[derive(Clone, Copy)]
pub struct CountsAnswer {
    pub refusal: u8,
    pub frames: [u16; limits::CARDS],
}

pub fn ticket_answer(answer: Result<Header, Refusal>) -> TicketAnswer
    ensures { result ≡ ticket_answer (numbers_of (told answer)) }
{
    match answer {
        Ok(h) => TicketAnswer {
            refusal: 0,
            edition: h.edition,
            mode: h.mode,
            cards: h.cards,
            pool: h.pool,
            frames: h.frames,
        },
        Err(refusal) => TicketAnswer {
            refusal: u8::from(refusal),
            edition: 0,
            mode: 0,
            cards: 0,
            pool: 0,
            frames: 0,
        },
    }
}

// A refusal's number, 0 where there is none.
pub fn refusal_number(refusal: Option<Refusal>) -> u8
    ensures { result ≡ number_or_0 refusal }
{
    refusal.map_or(0, u8::from)
}
