// An empty dock for a ticket's list and pool, with the list in lent memory.
#![tactic(auto)]

ghost use Rattle.std.specs.Prelude.{◌≡◌, ◌++◌, ◌≤◌, length, take, drop};
ghost use Rattle.refusals.specs.Numbers.{told};
ghost use Rattle.ticket.specs.Ticket.{accepted, parse};
ghost use Rattle.ticket.specs.Grounds.{Fits};
ghost use Rattle.dock_start.specs.Start.{start_of, memory_started};

use dock::Dock;
use header::{Header, limits};
use refusals::Refusal;

// An empty dock for a list that is read: the cards of its frames stand at the front of `card`, and then of memory, none held.
// `Fits` is asked here and has no type: clause `reads` of `ticket::read` has header and cards apart.
fn start_list(h: Header, card: &[u8], memory: &mut [u8]) -> Result<Dock, Refusal>
    requires { Fits h (take h.frames card.now) }
    ensures answer { told result ≡ start_of (accepted h (take h.frames card.now)) (length memory.old) }
    ensures memory { memory.new ≡ memory_started (accepted h (take h.frames card.now)) memory.old }
{
    let n = usize::from(h.frames);
    if memory.len() < n {
        return Err(Refusal::NoRoom);
    }
    memory[..n].copy_from_slice(&card[..n]);
    Ok(dock::empty(h.pool, h.frames))
}

// An empty dock for the list and the pool of a ticket; memory gets a byte for each frame.
pub fn start(ticket: &[u8], memory: &mut [u8]) -> Result<Dock, Refusal>
    ensures answer { told result ≡ start_of (parse ticket.now) (length memory.old) }
    ensures memory { memory.new ≡ memory_started (parse ticket.now) memory.old }
{
    let mut card = [0u8; limits::FRAMES];
    let h = ticket::read(ticket, &mut card)?;
    start_list(h, &card, memory)
}
