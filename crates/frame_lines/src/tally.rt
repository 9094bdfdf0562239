// How many frames each card has.
ghost use Rattle.std.specs.Prelude.{◌≡◌, ℕ, ◌≤◌, ◌<◌, length};
ghost use Rattle.counting.specs.Frames.{card_of};
ghost use Rattle.header.specs.Limits.{max_cards, max_frames};
ghost use Rattle.frame_lines.specs.Tally.{counts_up_to};

use header::limits;

// Counts the first n entries of a list of cards.
// n stands beside the list, since the clause speaks of the first n of it.
pub fn tally(card: &[u8], n: u16) -> [u16; limits::CARDS]
    requires { (n ≤ length card.now) × (n ≤ max_frames) × ((i : ℕ) → i < n → card_of card.now i < max_cards) }
    ensures { result ≡ counts_up_to card.now n }
{
    let mut count = [0u16; limits::CARDS];
    for c in &card[..usize::from(n)] {
        count[usize::from(*c)] += 1;
    }
    count
}
