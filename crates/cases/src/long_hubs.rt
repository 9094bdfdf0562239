// Long lists of cameras for the hub, which are made here.
use crate::hubs::PATTERNS;
use crate::{hubs, long_lists, output, tables};
use std::io;

// The most frames and places.
const FRAMES: usize = 65535;

const PLACES: usize = 4097;

// The cameras of a list's frames: in turns, in bursts of 100, or 0 but for the last frame, which is of the last camera, or of the number past that.
#[derive(Clone, Copy)]
enum Layout {
    Turns,
    Bursts,
    EndsWithLast,
    EndsPastLast,
}

impl Layout {
    // By the first letter of a word.
    fn named(word: &[u8]) -> Layout {
        match word.first() {
            Some(b't') => Layout::Turns,
            Some(b'b') => Layout::Bursts,
            Some(b'e') => Layout::EndsWithLast,
            _ => Layout::EndsPastLast,
        }
    }
}

// The camera of frame i of a list, with s cameras. `last` tells where the frame stands, which no range or closure says plainer.
fn camera_of(layout: Layout, s: usize, i: usize, last: bool) -> u8 {
    let count = s.max(1);
    let camera = match layout {
        Layout::Turns => i % count,
        Layout::Bursts => i / 100 % count,
        Layout::EndsWithLast => if last { count - 1 } else { 0 },
        Layout::EndsPastLast => if last { count } else { 0 },
    };
    // Cut off on purpose: `try_from` would be a Result that is never an Err.
    (camera % 256) as u8
}

fn put_cameras(cameras: &mut [u8], layout: Layout, s: usize) {
    let n = cameras.len();
    for (i, camera) in cameras.iter_mut().enumerate() {
        *camera = camera_of(layout, s, i, i + 1 == n);
    }
}

// The answer, and the checksum of the lent buffer afterwards.
fn call(rt: &impl Print, chosen: &[u8], cameras: &[u8], lent: &mut [u8]) -> io::Result<()> {
    let (refusal, frames) = hubs::own(chosen, cameras, lent);
    print!(rt; "{refusal:9}{frames:8}{:10}", long_lists::checksum(lent))
}

// The patterns, and with them the layout, and after another space the frames and the places lent, a letter each.
pub(crate) fn gathered(rt: &impl Print, patterns: &[u8], more: &[u8]) -> io::Result<()> {
    let mut chosen = [0u8; PATTERNS];
    let mut cameras = [0u8; FRAMES];
    let mut buffer = [b'.'; PLACES];
    let (layout, counts) = tables::split_word(more);
    let n = usize::from(tables::number_at(counts, 0));
    let places = usize::from(tables::number_at(counts, 1)).min(PLACES);
    output::left(rt, patterns, 10)?;
    output::left(rt, layout, 8)?;
    print!(rt; "{n:6}{places:8}")?;
    let chosen = tables::read_numbers(patterns, &mut chosen, tables::card);
    let list = &mut cameras[..n];
    put_cameras(list, Layout::named(layout), chosen.len());
    call(rt, chosen, list, &mut buffer[..places])
}
