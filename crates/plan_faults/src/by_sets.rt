// A card fault looked for in a table that has, for each cycle up to 4,096, the set of the cards that have a frame in it.
// Cards and plan are two slices, as src/lib.rt says; `from` and `n` are places in both, and the clauses have them (`Sets .. n`, `Front .. from n`).
ghost use Rattle.std.specs.Prelude.{◌≡◌, ◌+◌, ◌^◌, ◌<◌, eqb};
ghost use Rattle.header.specs.Limits.{max_cards};
ghost use Rattle.plan_faults.specs.Faults.{Checking, clear_of};
ghost use Rattle.plan_faults.specs.Searches.{ClearTo, Front, member_of, Sets, LowCycles};

use header::limits;

// Whether a card is in a set.
fn has(set: u32, card: u8) -> bool
    requires { card < max_cards }
    ensures { result ≡ eqb (member_of set card) 1 }
{
    (set >> card) % 2 == 1
}

// The set with a card that is not in it.
fn with(set: u32, card: u8) -> u32
    requires { (card < max_cards) × (member_of set card ≡ 0) }
    ensures { result ≡ set + 2 ^ card }
{
    set + (1u32 << card)
}

// Enters the first n frames, which are clear, into sets that are empty. What it shares with `clear` is one line, and that is `with`.
fn enter(cards: &[u8], plan: &[u16], n: usize, seen: &mut [u32])
    requires { Checking cards.now plan.now × LowCycles plan.now × ClearTo cards.now plan.now n × Sets cards.now plan.now seen.old 0 }
    ensures { Sets cards.now plan.now seen.new n }
{
    // By position, as a `zip` compares with the ends of both slices at each frame.
    for i in 0..n {
        let c = usize::from(plan[i]);
        seen[c] = with(seen[c], cards[i]);
    }
}

// How many of the first n frames are clear, where the first `from` are.
//   seen[c]   the cards of the frames so far that have cycle c
pub(crate) fn clear(cards: &[u8], plan: &[u16], from: usize, n: usize) -> usize
    requires { Checking cards.now plan.now × LowCycles plan.now × Front cards.now plan.now from n }
    ensures { result ≡ clear_of cards.now plan.now n }
{
    let mut seen = [0u32; limits::FRAMES + 1];
    enter(cards, plan, from, &mut seen);
    for i in from..n {
        let card = cards[i];
        let cycle = plan[i];
        let c = usize::from(cycle);
        let set = seen[c];
        if cycle == 0 {
            return i;
        }
        if has(set, card) {
            return i;
        }
        seen[c] = with(set, card);
    }
    n
}
