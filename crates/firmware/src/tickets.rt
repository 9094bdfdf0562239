// What a ticket says: its header, the line at a position, and the frames of each card.
ghost use Rattle.std.specs.Prelude.{◌≡◌, take, drop};
ghost use Rattle.ticket.specs.Ticket.{parse, numbers_in, line_refusal_of, line_of};
ghost use Rattle.plain_answers.specs.Answers.{ticket_answer, line_part, counts_answer};

use counting::Position;
use header::limits;
use plain_answers::tickets::{CountsAnswer, Part, TicketAnswer, refusal_number, ticket_answer};

// Reads the whole ticket, its lines too.
pub fn dockplan_parse(ticket: &[u8]) -> TicketAnswer
    ensures { result ≡ ticket_answer (numbers_in (parse ticket.now)) }
{
    let mut card = [0u8; limits::FRAMES];
    ticket_answer(ticket::read(ticket, &mut card))
}

pub fn dockplan_line(ticket: &[u8], p: Position) -> Part
    ensures part { result ≡ line_part ticket.now p.0 }
    ensures line { take result.length (drop result.offset ticket.now) ≡ line_of ticket.now p.0 }
{
    let line = ticket::line(ticket, p);
    let n = line.len();
    if n == 0 {
        return Part {
            offset: 0,
            length: 0,
        };
    }
    Part {
        offset: ticket::line_start(ticket, p),
        length: n,
    }
}

// The number that goes with the line.
// A number, 0 for none: C has no Option.
pub fn dockplan_line_refusal(ticket: &[u8], p: Position) -> u8
    ensures { result ≡ line_refusal_of (parse ticket.now) p.0 }
{
    refusal_number(ticket::line_refusal(ticket, p))
}

pub fn dockplan_counts(ticket: &[u8]) -> CountsAnswer
    ensures { result ≡ counts_answer (parse ticket.now) }
{
    CountsAnswer {
        refusal: refusal_number(ticket::refusal(ticket)),
        frames: ticket::counts(ticket),
    }
}
