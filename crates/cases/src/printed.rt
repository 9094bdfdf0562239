// Printed plans: how many bytes are printed, and the lent buffer afterwards.
use crate::output;
use std::io;

// With a buffer of 52 places, and one less for each dot.
pub(crate) fn printed(rt: &impl Print, t: &[u8], dots: &[u8]) -> io::Result<()> {
    let mut buffer = [b'.'; 52];
    if let Some(lent) = buffer.get_mut(dots.len()..) {
        output::ticket(rt, t)?;
        let bytes = printing::print(t, lent);
        print!(rt; "{:8}{bytes:8}  ", lent.len())?;
        output::left(rt, lent, 0)?;
    }
    Ok(())
}
