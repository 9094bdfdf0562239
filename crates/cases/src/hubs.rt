// The field hub: the cards of the frames, by the camera of each, and the lent buffer afterwards.
// Patterns and cameras are written with a digit each; L is 255.
use crate::{output, tables, turned_down};
use firmware::hubs::dockplan_hub;
use std::io;

// The most patterns, and the most frames and places, that are shown.
pub(crate) const PATTERNS: usize = 8;

pub(crate) const PLACES: usize = 64;

// The two ways to call the hub.
pub(crate) fn own(chosen: &[u8], cameras: &[u8], lent: &mut [u8]) -> (u8, u16) {
    turned_down::numbers(hub::gather(chosen, cameras, lent))
}

pub(crate) fn library(chosen: &[u8], cameras: &[u8], lent: &mut [u8]) -> (u8, u16) {
    let a = dockplan_hub(chosen, cameras, lent);
    (a.refusal, a.frames)
}

// The buffer: a card by its digit, and what else stands in it, a letter, as it is.
fn show_buffer(rt: &impl Print, buffer: &[u8]) -> io::Result<()> {
    for b in buffer {
        let shown = if *b < 10 { b'0' + *b } else { *b };
        rt.write_all(&[shown])?;
    }
    Ok(())
}

// The patterns, and with them the cameras and a dot for each place that is lent, up to 64. The buffer is lent with letters.
pub(crate) fn gathered<F: Fn(&[u8], &[u8], &mut [u8]) -> (u8, u16)>(
    rt: &impl Print,
    patterns: &[u8],
    more: &[u8],
    call: F,
) -> io::Result<()>
    requires { F.IsAlwaysCallable call }
{
    let mut chosen = [0u8; PATTERNS];
    let mut cameras = [0u8; PLACES];
    let mut buffer = *b"abcdefghijklmnopqrstuvwxyzabcdefghijklmnopqrstuvwxyzabcdefghijkl";
    let (list, dots) = tables::split_word(more);
    let places = dots.len().min(PLACES);
    output::left(rt, patterns, 10)?;
    output::left(rt, list, 35)?;
    let chosen = tables::read_numbers(patterns, &mut chosen, tables::card);
    let cameras = tables::read_numbers(list, &mut cameras, tables::card);
    let lent = &mut buffer[..places];
    let (refusal, frames) = call(chosen, cameras, lent);
    print!(rt; "{places:6}{refusal:9}{frames:8}  ")?;
    show_buffer(rt, lent)
}
