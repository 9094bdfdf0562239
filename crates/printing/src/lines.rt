// The text of a plan: T, and a line for each frame.
ghost use Rattle.std.specs.Prelude.{◌≡◌, ◌≤◌, length};
ghost use Rattle.header.specs.Limits.{max_frames};
ghost use Rattle.print_lines.specs.Put.{Put};
ghost use Rattle.printing.specs.Printed.{plan_text};

use counting::{Cycle, Position};
use text::write::DigitTexts;

// T, and for each frame a line with its position, its card and its cycle.
// Cards and cycles are two slices: the reader's and the planner's. A struct of both would be read by its fields in each clause.
pub(crate) fn plan(cards: &[u8], cycles: &[u16], t: Cycle, out: &mut [u8]) -> usize
    requires { (length cards.now ≤ max_frames) × (length cycles.now ≡ length cards.now) }
    ensures { Put (plan_text cards.now (record { cycles = cycles.entry.now; T = t.0 })) out.old out.new result }
{
    let n = cards.len();
    if out.len() < 5 + 11 * n {
        return 0;
    }
    let digits = DigitTexts::new();
    digits.put::<4>(out, 0, u32::from(t.0));
    out[4] = text::END;
    for (i, card) in cards.iter().enumerate() {
        print_lines::frame_line(
            &digits,
            out,
            5 + 11 * i,
            // i is below 4,096: a `try_from` would answer a Result that is never an Err
            Position(i as u16),
            *card,
            Cycle(cycles[i]),
        );
    }
    5 + 11 * n
}
