// Tickets: the header's fields, the cards of the frames, the frames of each card, the lines and the capture seconds.
use crate::output;
use counting::Position;
use header::Header;
use header::limits::FRAMES;
use plain_answers::tickets::refusal_number;
use refusals::Refusal;
use std::io;
use ticket::Ticket;

// The five fields of a header.
fn fields(rt: &impl Print, h: Header) -> io::Result<()> {
    print!(rt;
        "{:7}{:7}{:7}{:7}{:7}",
        h.edition, h.mode, h.cards, h.pool, h.frames
    )
}

// The fields, or the number of a refusal.
fn answer(rt: &impl Print, a: Result<Header, Refusal>) -> io::Result<()> {
    match a {
        Ok(h) => fields(rt, h),
        Err(refusal) => print!(rt; "{:35}", u8::from(refusal)),
    }
}

// The cards of a ticket that is read, zeros beside a refusal.
pub(crate) fn cards(ticket: Result<Ticket, Refusal>) -> [u8; FRAMES] {
    match ticket {
        Ok(ticket) => ticket.card,
        Err(_) => [0; FRAMES],
    }
}

// What heading, parse and counts say of a ticket.
pub(crate) fn accepted(rt: &impl Print, t: &[u8]) -> io::Result<()> {
    output::ticket(rt, t)?;
    answer(rt, header::heading(t))?;
    let ticket = ticket::parse(t);
    answer(rt, ticket.map(|ticket| ticket.header))?;
    output::list(rt, &cards(ticket), 5, 3)?;
    output::of_cards(rt, &ticket::counts(t), 0)
}

// The number beside a ticket, and the capture second at the first four positions and at the largest number.
pub(crate) fn seconds(rt: &impl Print, t: &[u8]) -> io::Result<()> {
    output::ticket(rt, t)?;
    let rest = 50usize.saturating_sub(t.len().max(32));
    print!(rt; "{:rest$}{:8}", "", refusal_number(ticket::refusal(t)))?;
    for p in [0, 1, 2, 3, 65535] {
        print!(rt; "{:11}", ticket::second(t, Position(p)))?;
    }
    Ok(())
}

// The line at a position, and the number beside it.
fn line(rt: &impl Print, t: &[u8], p: Position) -> io::Result<()> {
    output::ticket(rt, t)?;
    print!(rt;
        "{:9}{:9}  \"",
        p.0,
        refusal_number(ticket::line_refusal(t, p))
    )?;
    rt.write_all(ticket::line(t, p))?;
    rt.print("\"\n")
}

// The lines at the first four positions, and at the largest number.
pub(crate) fn lines(rt: &impl Print, t: &[u8]) -> io::Result<()> {
    for p in [0, 1, 2, 3, 65535] {
        line(rt, t, Position(p))?;
    }
    Ok(())
}
