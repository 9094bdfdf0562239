// What a ticket says: its header, the line at a position, and the frames of each card.
ghost use Rattle.std.specs.Prelude.{◌≡◌, take, drop};
ghost use Rattle.ticket.specs.Ticket.{parse, numbers_in, line_refusal_of, line_of};
ghost use Rattle.plain_answers.specs.Answers.{ticket_answer, line_part, counts_answer};

use counting::Position;
use plain_answers::tickets::{CountsAnswer, Part, TicketAnswer};

// Reads the whole ticket, its lines too.
#[unsafe(no_mangle)]
pub extern "C" fn dockplan_parse(ticket: &[u8]) -> TicketAnswer
    ensures { result ≡ ticket_answer (numbers_in (parse ticket.now)) }
{
    firmware::tickets::dockplan_parse(ticket)
}

#[unsafe(no_mangle)]
pub extern "C" fn dockplan_line(ticket: &[u8], p: Position) -> Part
    ensures part { result ≡ line_part ticket.now p.0 }
    ensures line { take result.length (drop result.offset ticket.now) ≡ line_of ticket.now p.0 }
{
    firmware::tickets::dockplan_line(ticket, p)
}

// The number that goes with the line.
// A number, 0 for none: C has no Option.
#[unsafe(no_mangle)]
pub extern "C" fn dockplan_line_refusal(ticket: &[u8], p: Position) -> u8
    ensures { result ≡ line_refusal_of (parse ticket.now) p.0 }
{
    firmware::tickets::dockplan_line_refusal(ticket, p)
}

#[unsafe(no_mangle)]
pub extern "C" fn dockplan_counts(ticket: &[u8]) -> CountsAnswer
    ensures { result ≡ counts_answer (parse ticket.now) }
{
    firmware::tickets::dockplan_counts(ticket)
}
