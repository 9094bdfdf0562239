// A card fault looked for among all earlier frames, for plans of whatever cycles. Cards and plan are two slices, as src/lib.rt says.
ghost use Rattle.std.specs.Prelude.{◌≡◌, ◌≤◌, ◌<◌, length};
ghost use Rattle.schedule.specs.Verdict.{shares};
ghost use Rattle.plan_faults.specs.Faults.{Checking, clear_of};

use crate::rising;
use header::limits;

// Whether an earlier frame of the same card has frame i's cycle.
fn shared(cards: &[u8], plan: &[u16], i: usize) -> bool
    requires { (i < length cards.now) × (length plan.now ≡ length cards.now) }
    ensures { result ≡ shares cards.now plan.now i }
{
    let card = cards[i];
    let cycle = plan[i];
    (0..i).any(|k| plan[k] == cycle && cards[k] == card)
}

// How many of the first n frames are clear. A frame is searched for only where it is not after all earlier ones of its card. `n` is a place, as in
// the clause (`clear_of cards plan n`): with slices of the first n, both would have a `take n` there.
pub(crate) fn clear(cards: &[u8], plan: &[u16], n: usize) -> usize
    requires { Checking cards.now plan.now × (n ≤ length cards.now) }
    ensures { result ≡ clear_of cards.now plan.now n }
{
    // by card: no array runs beside it
    let mut latest = [0u16; limits::CARDS];
    let mut i = rising::rising(cards, plan, 0, &mut latest);
    // The next frame to look at is where `rising` stops, so this goes over no range.
    while i < n {
        if plan[i] == 0 {
            return i;
        }
        if shared(cards, plan, i) {
            return i;
        }
        i = rising::rising(cards, plan, i + 1, &mut latest);
    }
    n
}
