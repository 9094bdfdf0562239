// The steps of a saver: an empty record, a frame that enters the pool, and one cycle.
ghost use Rattle.std.specs.Prelude.{◌≡◌};
ghost use Rattle.refusals.specs.Numbers.{number_of};
ghost use Rattle.saver.specs.Calls.{new_saver, no_saver, refusal, quiet, entered, then_enters, cycle_on};
ghost use Rattle.saver.specs.Formed.{Formed, Room};

use crate::{Answer, Saver};
use counting::{Cycle, Position};
use header::limits;
use refusals::Refusal;

// The number of a call that is not refused. C has no Result: an answer has a refusal's number in each case.
const NOT_REFUSED: u8 = 0;

// The entry of a card that writes nothing. C has no Option: an answer has a number for each card.
const NONE: u16 = 65535;

pub(crate) fn empty(cards: u8, pool: u16, closing: bool) -> Saver
    ensures { result ≡ new_saver cards pool closing }
{
    Saver {
        cards,
        pool,
        taken: 0,
        made: Cycle(0),
        waiting: 0,
        closing,
        card: [0u8; limits::POOL],
        position: [Position(0); limits::POOL],
    }
}

// A call that makes no cycle.
pub(crate) fn quiet(saver: Saver) -> Answer
    ensures { result ≡ quiet saver }
{
    Answer {
        refusal: NOT_REFUSED,
        cycle: Cycle(0),
        written: [Position(NONE); limits::CARDS],
        saver,
    }
}

// A call that is refused.
pub(crate) fn refused(ground: Refusal, saver: Saver) -> Answer
    ensures { result ≡ refusal (number_of ground) saver }
{
    Answer {
        refusal: u8::from(ground),
        ..quiet(saver)
    }
}

// A new saver that is refused: a record that takes no frame.
pub(crate) fn no_saver(ground: Refusal) -> Answer
    ensures { result ≡ refusal (number_of ground) no_saver }
{
    refused(ground, empty(1, 1, true))
}

// The next frame enters the pool.
pub(crate) fn enter(mut saver: Saver, card: u8) -> Saver
    requires { Room saver }
    ensures { result ≡ entered saver card }
{
    let i = usize::from(saver.waiting);
    saver.card[i] = card;
    saver.position[i] = Position(saver.taken);
    saver.waiting += 1;
    saver.taken += 1;
    saver
}

// One cycle: every card with waiting frames writes the oldest of them. The others move up.
//   written[c]  what card c writes of the frames seen so far
//   left        how many of them are left
pub(crate) fn one_cycle(saver: Saver) -> Answer
    requires { Formed saver }
    ensures { result ≡ cycle_on saver }
{
    let mut written = [Position(NONE); limits::CARDS];
    let mut card = [0u8; limits::POOL];
    let mut position = [Position(0); limits::POOL];
    let mut left: u16 = 0;
    // by place, for speed: a zip of the two tables would test two ends for each frame
    for i in 0..usize::from(saver.waiting) {
        let c = saver.card[i];
        let p = saver.position[i];
        let k = usize::from(c);
        let entry = written[k].0;
        if entry == NONE {
            written[k] = p;
        } else {
            let to = usize::from(left);
            card[to] = c;
            position[to] = p;
            left += 1;
        }
    }
    let made = Cycle(saver.made.0 + 1);
    Answer {
        refusal: NOT_REFUSED,
        cycle: made,
        written,
        saver: Saver {
            made,
            waiting: left,
            card,
            position,
            ..saver
        },
    }
}

// After a cycle, the next frame enters.
pub(crate) fn then_enter(mut made: Answer, card: u8) -> Answer
    requires { Room made.saver }
    ensures { result ≡ then_enters made card }
{
    let left = made.saver;
    made.saver = enter(left, card);
    made
}
