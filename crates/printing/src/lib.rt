// The printed plan of a ticket, as text in a lent buffer.
#![tactic(auto)]

ghost use Rattle.std.specs.Prelude.{◌≡◌, length, take, replicate};
ghost use Rattle.counting.specs.Count.{written};
ghost use Rattle.ticket.specs.Ticket.{accepted};
ghost use Rattle.ticket.specs.Grounds.{Fits};
ghost use Rattle.print_lines.specs.Put.{bytes_in, buffer_after, Put};
ghost use Rattle.printing.specs.Printed.{text_of, printed, Front};
ghost use Rattle.printing.specs.Sizes.{input_bytes, longest_text};

use header::{Header, limits};

mod lines;

// The bytes of its input that the program looks at: they settle every ticket (`front_settles`, proofs/Main.antt).
pub const INPUT: usize = 65536;

// The bytes of the longest text: the line of T, and a line for each of 4,096 frames.
pub const LONGEST: usize = 5 + 11 * limits::FRAMES;

// A buffer for the program's input, all zeros.
// Not one function with `text_buffer`: each is `[0; N]`, and its clauses name its own length.
pub fn input_buffer() -> [u8; INPUT]
    ensures long { input_bytes ≡ length result }
    ensures zeros { result ≡ replicate input_bytes 0 }
{
    [0; INPUT]
}

// A buffer with room for every text, all zeros.
pub fn text_buffer() -> [u8; LONGEST]
    ensures long { longest_text ≡ length result }
    ensures zeros { result ≡ replicate longest_text 0 }
{
    [0; LONGEST]
}

// Prints the plan of a list that is read: the cards of its frames stand at the front of `card`.
// `Fits` is asked here and has no type: clause `reads` of `ticket::read` has header and cards apart.
fn print_list(h: Header, card: &[u8], out: &mut [u8]) -> usize
    requires { Fits h (take h.frames card.now) }
    ensures { Put (text_of (accepted h (take h.frames card.now))) out.old out.new result }
{
    let n = usize::from(h.frames);
    let mut plan = [0u16; limits::FRAMES];
    let cycles = mode_plans::fill(h.mode, &card[..n], h.pool, &mut plan);
    lines::plan(&card[..n], &plan[..n], cycles, out)
}

// Prints the plan of a ticket, or its refusal, over the front of `out`, and answers how many bytes the text has; later places keep their
// content. Where `out` has no room for the whole text, nothing is printed and the answer is 0.
pub fn print(ticket: &[u8], out: &mut [u8]) -> usize
    ensures answer { result ≡ bytes_in (printed ticket.now) (length out.old) }
    ensures buffer { out.new ≡ buffer_after (printed ticket.now) out.old }
    ensures front { Front result out.new }
{
    let mut card = [0u8; limits::FRAMES];
    match ticket::read(ticket, &mut card) {
        Err(refusal) => print_lines::refusal(refusal, out),
        Ok(h) => print_list(h, &card, out),
    }
}

// The same in a buffer with room for every text: the whole text is printed, whichever the ticket.
pub fn print_whole(ticket: &[u8], out: &mut [u8; LONGEST]) -> usize
    ensures answer { result ≡ length (printed ticket.now) }
    ensures buffer { out.new ≡ written (printed ticket.now) out.old }
    ensures front { Front result out.new }
{
    print(ticket, out)
}
