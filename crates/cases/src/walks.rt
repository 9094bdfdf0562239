// The ticket walker: what its steps give, and what `nth` gives at some positions.
use crate::long_lists::{self, Layout};
use crate::output;
use counting::Position;
use plain_answers::tickets::refusal_number;
use std::io;

// A line that a walker gave, or "end" for the empty part.
fn part(rt: &impl Print, line: &[u8]) -> io::Result<()> {
    if line.is_empty() {
        return rt.print("  end");
    }
    rt.print("   ")?;
    rt.write_all(line)
}

// The position at which a walk stands after n steps; what the first few of them give is shown.
fn steps(rt: &impl Print, bytes: &[u8], n: u16, shown: u16) -> io::Result<Position> {
    let mut here = Position(0);
    for i in 0..n {
        if i < shown {
            part(rt, walker::line_at(bytes, here))?;
        }
        here = walker::next_at(bytes, here);
    }
    Ok(here)
}

// What `nth` gives at some positions.
fn nths(rt: &impl Print, t: &[u8], positions: &[u16]) -> io::Result<()> {
    for p in positions {
        part(rt, walker::nth(t, Position(*p)))?;
    }
    Ok(())
}

// The number beside a walk, its first five steps, and the line at some positions.
pub(crate) fn walked(rt: &impl Print, t: &[u8]) -> io::Result<()> {
    output::ticket(rt, t)?;
    print!(rt; "{:9}", refusal_number(ticket::refusal(t)))?;
    steps(rt, walker::opened(t), 5, 5)?;
    rt.print("   ")?;
    nths(rt, t, &[0, 2, 3, 65535])
}

// Where 5,000 steps lead through a long list's ticket with this header and layout, and its last lines.
pub(crate) fn walked_far(rt: &impl Print, header: &[u8], layout: &[u8]) -> io::Result<()> {
    let t: [u8; long_lists::LONG] = long_lists::ticket_of(header, Layout::named(layout));
    let end = steps(rt, walker::opened(&t), 5000, 0)?;
    print!(rt; "{:5}. nth at 4,094, 4,095 and 4,096 gives", end.0)?;
    nths(rt, &t, &[4094, 4095, 4096])
}
