// The lines of a printed text, written into a lent buffer: that of a refusal, and that of a frame.
#![tactic(auto)]

ghost use Rattle.std.specs.Prelude.{◌≡◌, ◌+◌, ◌^◌, ◌≤◌, ◌<◌, length};
ghost use Rattle.std.proofs.lemmas.List.Edits.{sets};
ghost use Rattle.refusals.specs.Numbers.{number_of};
ghost use Rattle.text.specs.Hex.{hex};
ghost use Rattle.print_lines.specs.Lines.{frame_line, refusal_text};
ghost use Rattle.print_lines.specs.Put.{Put};

use counting::{Cycle, Position};
use refusals::Refusal;
use text::write::DigitTexts;

// FF and the number.
pub fn refusal(refusal: Refusal, out: &mut [u8]) -> usize
    ensures { Put (refusal_text (number_of refusal)) out.old out.new result }
{
    if out.len() < 5 {
        return 0;
    }
    let digits = DigitTexts::new();
    digits.put::<2>(out, 0, 255);
    digits.put::<2>(out, 2, u32::from(u8::from(refusal)));
    out[4] = text::END;
    5
}

// A position's 4 digits, at a place. 3 digits are enough for every position of a list, so the first is 0 and is not looked up.
fn put_position(digits: &DigitTexts, out: &mut [u8], at: usize, position: Position)
    requires { (at + 4 ≤ length out.old) × (position.0 < 16 ^ 3) }
    ensures { out.new ≡ sets out.old at (hex 4 position.0) }
{
    out[at] = b'0';
    digits.put::<3>(out, at + 1, u32::from(position.0));
}

// A frame's line, at a place.
pub fn frame_line(
    digits: &DigitTexts,
    out: &mut [u8],
    at: usize,
    position: Position,
    card: u8,
    cycle: Cycle,
)
    requires { (at + 11 ≤ length out.old) × (position.0 < 16 ^ 3) }
    ensures { out.new ≡ sets out.old at (frame_line position.0 card cycle.0) }
{
    put_position(digits, out, at, position);
    digits.put::<2>(out, at + 4, u32::from(card));
    digits.put::<4>(out, at + 6, u32::from(cycle.0));
    out[at + 10] = text::END;
}
