// What request 2026-06 says, written anew: the cards of a list, and the load of the fullest one.
ghost use Rattle.std.specs.Prelude.{◌<◌};

use crate::lists::{CAMERAS, Case, FRAMES};

// Two places more than the longest list has frames.
pub(crate) const PLACES: usize = FRAMES + 2;

// The byte in each place that is lent. A place without a card is to keep it, so the rules give bytes too: an Option would be turned into it again.
pub(crate) const LENT: u8 = b'.';

// "The eight patterns are fixed": the card at each place of each pattern.
const PATTERNS: [[u8; 8]; 8] = [
    *b"01234567",
    *b"03614725",
    *b"05274163",
    *b"07654321",
    *b"45670123",
    *b"47250361",
    *b"41630527",
    *b"43210765",
];

// The card at place k mod 8 of a pattern.
fn card(pattern: u8, k: usize) -> u8 {
    PATTERNS[usize::from(pattern % 8)][k % 8] % 16
}

// How many frames before frame i are of its camera.
fn earlier(cameras: &[u8; FRAMES], i: usize) -> usize
    requires { i < 24 }
{
    let camera = cameras[i];
    cameras[..i]
        .iter()
        .filter(|other| **other == camera)
        .count()
}

// "Frame k of a camera, from 0, goes to place k mod 8 of that camera's pattern." The places behind stay as they are lent.
pub(crate) fn cards(c: &Case, patterns: &[u8; CAMERAS], cameras: &[u8; FRAMES]) -> [u8; PLACES] {
    let mut places = [LENT; PLACES];
    for (i, camera) in cameras[..c.frame_count()].iter().enumerate() {
        let pattern = patterns[usize::from(*camera % 6)];
        places[i] = card(pattern, earlier(cameras, i));
    }
    places
}

// How many frames a card has.
fn load(places: &[u8; PLACES], card: u8) -> usize {
    places.iter().filter(|other| **other == card).count()
}

pub(crate) fn fullest(places: &[u8; PLACES]) -> usize {
    (0..8).map(|card| load(places, card)).max().unwrap_or(0)
}
