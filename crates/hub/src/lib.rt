// A field hub: 1 to 6 cameras gathered onto eight cards.
#![tactic(auto)]

ghost use Rattle.std.specs.Prelude.{◌≡◌, true, ◌+◌, ◌≤◌, length};
ghost use Rattle.refusals.specs.Numbers.{told, number_in};
ghost use Rattle.counting.specs.Count.{largest, written};
ghost use Rattle.hub.specs.Fullest.{Gathering};
ghost use Rattle.hub.specs.Gather.{hub_cards, answer_for, buffer_after};
ghost use Rattle.hub.specs.Grounds.{Fits};
ghost use Rattle.hub.specs.Numbers.{numbers_of};
ghost use Rattle.hub.specs.Patterns.{hub_size};
ghost use Rattle.hub.specs.Words.{Places, Inside, AllOf};

use header::limits;
use patterns::{CAMERAS, SIZE};
use refusals::Refusal;

mod patterns;
mod words;

// The largest of some numbers, 0 for none. It begins with 0: the library's `max` begins with the first number, and what it then keeps took more of the
// stack than the header says.
fn largest(numbers: &[u8]) -> u8
    ensures { result ≡ largest numbers.now }
{
    let mut top: u8 = 0;
    for x in numbers {
        top = top.max(*x);
    }
    top
}

// Whether a call is refused, with a buffer of so many places: 20, then 6, then 21, then 10.
fn refused(chosen: &[u8], cameras: &[u8], places: usize) -> Result<(), Refusal>
    ensures { number_in result ≡ (numbers_of (answer_for chosen.now cameras.now places)).refusal }
{
    let count = chosen.len();
    let frames = cameras.len();
    if count < 1 {
        return Err(Refusal::HubSetUp);
    }
    if CAMERAS < count {
        return Err(Refusal::HubSetUp);
    }
    if SIZE <= usize::from(largest(chosen)) {
        return Err(Refusal::HubSetUp);
    }
    if limits::FRAMES < frames {
        return Err(Refusal::TooManyFrames);
    }
    if count <= usize::from(largest(cameras)) {
        return Err(Refusal::NoSuchCamera);
    }
    if places < frames {
        return Err(Refusal::NoRoom);
    }
    Ok(())
}

// Writes the cards of the frames from one place of the list up to another, frame by frame: a camera's next card is the lowest byte of its word, which then
// turns to the next one.
// `from` and `to` stand beside the list, since the clause speaks of places of the whole list.
fn place_each(cameras: &[u8], from: usize, to: usize, words: &mut [u64; CAMERAS], cards: &mut [u8])
    requires { Inside cameras.now from to (length cards.old) }
    ensures { Places cameras.now from to words.old cards.old words.new cards.new }
{
    for i in from..to {
        let camera = usize::from(cameras[i]);
        let word = words[camera];
        // cut off on purpose
        cards[i] = (word % 256) as u8;
        words[camera] = words::turned(word);
    }
}

// Whether the eight frames from a place on are all of one camera.
fn all_of(camera: u8, cameras: &[u8], at: usize) -> bool
    requires { at + 8 ≤ length cameras.now }
    ensures { (result ≡ true → AllOf camera cameras.now at hub_size) × (AllOf camera cameras.now at hub_size → result ≡ true) }
{
    // Faster than `all`: with no early end the compiler compares four frames at once.
    let mut same = true;
    for other in &cameras[at..at + SIZE] {
        if *other != camera {
            same = false;
        }
    }
    same
}

// Writes the card of each frame over the front of a buffer, by eight frames. Eight frames of one camera take the eight cards of its word as they stand, and
// the word turns all the way round.
fn place(chosen: &[u8], cameras: &[u8], cards: &mut [u8])
    requires { Fits chosen.now cameras.now (length cards.old) }
    ensures { cards.new ≡ written (hub_cards chosen.now cameras.now) cards.old }
{
    let n = cameras.len();
    let mut words = patterns::words_of(chosen);
    for block in 0..n / SIZE {
        let at = SIZE * block;
        let camera = cameras[at];
        if all_of(camera, cameras, at) {
            words::put_eight(cards, at, words[usize::from(camera)]);
        } else {
            place_each(cameras, at, at + SIZE, &mut words, cards);
        }
    }
    place_each(cameras, n - n % SIZE, n, &mut words, cards);
}

// Gathers a list of frames, given by the camera of each: writes their cards over the front of the buffer; later places keep their content.
// `chosen` has the pattern of each camera. A refusal changes nothing. `fullest` is what request 2026-06 promises of the cards that now stand there.
pub fn gather(chosen: &[u8], cameras: &[u8], cards: &mut [u8]) -> Result<u16, Refusal>
    ensures answer { told result ≡ answer_for chosen.now cameras.now (length cards.old) }
    ensures buffer { cards.new ≡ buffer_after chosen.now cameras.now cards.old }
    ensures numbers { numbers_of (told result) ≡ numbers_of (answer_for chosen.now cameras.now (length cards.old)) }
    ensures fullest { Gathering chosen.now (numbers_of (told result)).refusal (numbers_of (told result)).frames cards.new }
{
    refused(chosen, cameras, cards.len())?;
    place(chosen, cameras, cards);
    // at most 4,096: a `try_from` would answer a Result that is never an Err
    Ok(cameras.len() as u16)
}
