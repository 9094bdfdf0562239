// Plans: the answer, and the lent buffer afterwards.
use crate::output;
use counting::Cycle;
use refusals::Refusal;
use std::io;

// T, or the number of a refusal.
pub(crate) fn answer(rt: &impl Print, a: Result<Cycle, Refusal>) -> io::Result<()> {
    match a {
        Ok(cycles) => print!(rt; "T      {:5}", cycles.0),
        Err(refusal) => print!(rt; "refused{:5}", u8::from(refusal)),
    }
}

// With a buffer of five places, and one less for each dot.
pub(crate) fn planned(rt: &impl Print, t: &[u8], dots: &[u8]) -> io::Result<()> {
    let mut buffer = [9u16; 5];
    if let Some(lent) = buffer.get_mut(dots.len()..) {
        output::ticket(rt, t)?;
        answer(rt, planner::plan(t, lent))?;
        output::list(rt, lent, lent.len(), 4)?;
    }
    Ok(())
}
