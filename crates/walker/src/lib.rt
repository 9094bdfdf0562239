// The ticket walker: a ticket's lines one after another, each a part of the caller's ticket.
// A walker that has no line left, or was refused, gives the empty part, which says "end". The ticket is read once, when a walker starts.
#![tactic(auto)]

ghost use Rattle.std.specs.Prelude.{◌≡◌};
ghost use Rattle.ticket.specs.Part.{address};
ghost use Rattle.ticket.specs.Ticket.{line_of, line_place};
ghost use Rattle.walker.specs.Walk.{opened, has_line, line_at, place_at, next_at, WalksOn, moved_to, gives, gives_from, stepped};

use counting::Position;
use header::limits;

// What a walker carries: the bytes that it goes through, and the position of the line that it gives next.
#[derive(Clone, Copy)]
pub struct Walker<'a> {
    pub ticket: &'a [u8],
    pub next: Position,
}

// What a step gives: a line, or the empty part at the end, and the walker after it.
// No Option: document 01 has the empty part for the end (`line_not_end`).
#[derive(Clone, Copy)]
pub struct Stepped<'a> {
    pub line: &'a [u8],
    pub walker: Walker<'a>,
}

// The bytes that a walker goes through: the ticket where it is accepted, the empty part where it is refused.
pub fn opened(ticket: &[u8]) -> &[u8]
    ensures { (result.now ≡ opened ticket.now) × (result.ref_ptr ≡ ticket.entry.ref_ptr) }
{
    match ticket::refusal(ticket) {
        None => ticket,
        Some(_) => &ticket[0..0],
    }
}

// Whether such bytes have a line at a position.
fn has_line(bytes: &[u8], p: Position) -> bool
    ensures { result ≡ has_line bytes.now p.0 }
{
    if limits::MAX_FRAMES <= p.0 {
        return false;
    }
    ticket::line_start(bytes, p) + ticket::line_digits(bytes) < bytes.len()
}

// That line, empty where there is none.
pub fn line_at(bytes: &[u8], p: Position) -> &[u8]
    ensures { (result.now ≡ line_at bytes.now p.0)
        × (result.ref_ptr ≡ address bytes.entry.ref_ptr (place_at bytes.now p.0)) }
{
    if has_line(bytes, p) {
        let at = ticket::line_start(bytes, p);
        let digits = ticket::line_digits(bytes);
        return &bytes[at..at + digits];
    }
    &bytes[0..0]
}

// The position after it, or the same where there is none.
pub fn next_at(bytes: &[u8], p: Position) -> Position
    ensures { result.0 ≡ next_at bytes.now p.0 }
{
    if has_line(bytes, p) {
        return Position(p.0 + 1);
    }
    p
}

impl<'a> Walker<'a> {
    // A walker at the ticket's first line. With a refused ticket it is at its end; `ticket::refusal` gives the number.
    pub fn start(ticket: &'a [u8]) -> Walker<'a>
        ensures { WalksOn ticket.now 0 result × (result.ticket.ref_ptr ≡ ticket.entry.ref_ptr) }
    {
        Walker {
            ticket: opened(ticket),
            next: Position(0),
        }
    }

    // The walker at another position, to go on from where an earlier walk came to.
    pub fn at(self, p: Position) -> Walker<'a>
        ensures { result ≡ moved_to self.entry p }
    {
        Walker {
            ticket: self.ticket,
            next: p,
        }
    }

    // The next line, empty at the end, and the walker after it.
    pub fn step(self) -> Stepped<'a>
        ensures { (result.line.now ≡ gives self.entry)
            × (result.line.ref_ptr ≡ address self.entry.ticket.ref_ptr (gives_from self.entry))
            × (result.walker ≡ stepped self.entry) }
    {
        Stepped {
            line: line_at(self.ticket, self.next),
            walker: Walker {
                ticket: self.ticket,
                next: next_at(self.ticket, self.next),
            },
        }
    }
}

// The line that a walker gives at a position of a ticket: the reader's line there. A caller of this function holds no walker.
pub fn nth(ticket: &[u8], p: Position) -> &[u8]
    ensures { (result.now ≡ line_of ticket.now p.0)
        × (result.ref_ptr ≡ address ticket.entry.ref_ptr (line_place ticket.now p.0)) }
{
    Walker::start(ticket).at(p).step().line
}
