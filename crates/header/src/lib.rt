// The header of a ticket: refusals 1 to 6.
#![tactic(auto)]

ghost use Rattle.std.specs.Prelude.{◌≡◌};
ghost use Rattle.refusals.specs.Numbers.{told};
ghost use Rattle.header.specs.Heading.{within_limits, header_answer, heading};
ghost use Rattle.header.specs.Numbers.{numbers_of};

pub mod editions;
pub mod limits;

use refusals::Refusal;
use text::read::Digits;

// What stands in the header.
#[derive(Clone, Copy)]
pub struct Header {
    pub edition: u8,
    pub mode: u8,
    pub cards: u8,
    pub pool: u16,
    pub frames: u16,
}

// Refusals 3 to 6.
fn within_limits(h: Header) -> Result<Header, Refusal>
    ensures { told result ≡ within_limits h }
{
    if limits::MODE_SAVE_AND_KEEP < h.mode {
        return Err(Refusal::UnknownMode);
    }
    if h.cards < 1 {
        return Err(Refusal::CardCount);
    }
    if limits::MAX_CARDS < h.cards {
        return Err(Refusal::CardCount);
    }
    if h.pool < 1 {
        return Err(Refusal::PoolSize);
    }
    if limits::MAX_POOL < h.pool {
        return Err(Refusal::PoolSize);
    }
    if limits::MAX_FRAMES < h.frames {
        return Err(Refusal::TooManyFrames);
    }
    Ok(h)
}

// Refusals 2 to 6.
fn header_answer(h: Header) -> Result<Header, Refusal>
    ensures { told result ≡ header_answer h }
{
    if editions::known(h.edition) {
        return within_limits(h);
    }
    Err(Refusal::UnknownEdition)
}

// The same as `heading`, with the table of digits lent.
fn read_heading(digits: &Digits, t: &[u8]) -> Result<Header, Refusal>
    ensures { told result ≡ heading t.now }
{
    if digits.is_line(t, 0, 14) {
        // Two digits fit in a u8 and four in a u16: a `try_from` would answer a Result that is never an Err.
        header_answer(Header {
            edition: digits.number(t, 0, 2) as u8,
            mode: digits.number(t, 2, 2) as u8,
            cards: digits.number(t, 4, 2) as u8,
            pool: digits.number(t, 6, 4) as u16,
            frames: digits.number(t, 10, 4) as u16,
        })
    } else {
        Err(Refusal::NoHeader)
    }
}

// What the first 15 bytes of a ticket say, or refusal 1 to 6.
pub fn heading(t: &[u8]) -> Result<Header, Refusal>
    ensures answer { told result ≡ heading t.now }
    ensures numbers { numbers_of (told result) ≡ numbers_of (heading t.now) }
{
    let digits = Digits::new();
    read_heading(&digits, t)
}
