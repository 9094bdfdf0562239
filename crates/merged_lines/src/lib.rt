// The frame lines of two edition 02 tickets, merged by capture second and written in upper case, in one pass over both.
#![tactic(auto)]

ghost use Rattle.std.specs.Prelude.{◌≡◌, ◌+◌, ◌*◌, ◌≤◌, ◌<◌, length, take, drop};
ghost use Rattle.std.proofs.lemmas.List.Edits.{sets};
ghost use Rattle.text.specs.Text.{Line};
ghost use Rattle.text.specs.UpperCase.{upper_case};
ghost use Rattle.header.specs.Limits.{max_frames};
ghost use Rattle.merged_lines.specs.Packed.{packed};
ghost use Rattle.merged_lines.specs.Lines.{HasLines, Next, key_at, merged_text};

use header::editions;

mod packed;

// The bytes of a line, with its end byte.
const BYTES: usize = editions::CARD_DIGITS + editions::SECOND_DIGITS + 1;

// Larger than every eight digits: where a side has no line left, one comparison still chooses the other. An Option would need a second one.
const NO_KEY: u64 = 18446744073709551615;

// A line of `s`, written at a place of `out` in upper case. `key` has the digits of its second. They are written first, since the compiler makes
// one store of them where no other store stands before.
fn put_line(s: &[u8], from: usize, key: u64, out: &mut [u8], at: usize)
    requires { Line s.now from 10 × (key ≡ packed (upper_case s.now) (from + 2) 8) × (at + 11 ≤ length out.old) }
    ensures { out.new ≡ sets out.old at (take 11 (drop from (upper_case s.now))) }
{
    packed::put_eight(out, at + 2, key);
    let card = packed::upper_two(s[from], s[from + 1]);
    // cut off on purpose: two stores by place, of which the compiler makes one
    out[at] = (card % 256) as u8;
    out[at + 1] = (card / 256) as u8;
    out[at + 10] = text::END;
}

// What the line at an offset is sorted by: the digits of its second; at the end of the lines a larger number.
fn key_at(s: &[u8], end: usize, from: usize) -> u64
    requires { (end ≤ 11 * max_frames) × (from < end → Line s.now from 10) }
    ensures { result ≡ key_at s.now end from }
{
    if from < end {
        return packed::upper_eight(s, from + editions::CARD_DIGITS);
    }
    NO_KEY
}

// The lines of one ticket that are not written yet: the next one begins at an offset, and `key` is what it is sorted by.
#[derive(Drop)]
struct Side<'a> {
    lines: &'a [u8],
    end: usize,
    from: usize,
    key: u64,
}

impl<'a> Side<'a> {
    // All n lines of a part.
    fn begin(lines: &'a [u8], n: usize) -> Side<'a>
        requires { (n ≤ max_frames) × (0 < n → Line lines.now 0 10) }
        ensures lines { (result.lines.now ≡ lines.now) × (result.end ≡ 11 * n) }
        ensures from { result.from ≡ 0 }
        ensures key { result.key ≡ key_at lines.now (11 * n) 0 }
    {
        let end = BYTES * n;
        let key = key_at(lines, end, 0);
        Side {
            lines,
            end,
            from: 0,
            key,
        }
    }

    // Writes the next line, and reads the key of the one after it.
    fn put_next(&mut self, out: &mut [u8], at: usize)
        requires next { Next self.old.lines.now self.old.end self.old.from self.old.key }
        requires room { at + 11 ≤ length out.old }
        ensures line { out.new ≡ sets out.old at (take 11 (drop self.old.from (upper_case self.old.lines.now))) }
        ensures lines { (self.new.lines.now ≡ self.old.lines.now) × (self.new.end ≡ self.old.end) }
        ensures from { self.new.from ≡ self.old.from + 11 }
        ensures key { self.new.key ≡ key_at self.old.lines.now self.old.end (self.old.from + 11) }
    {
        put_line(self.lines, self.from, self.key, out, at);
        self.from += BYTES;
        self.key = key_at(self.lines, self.end, self.from);
    }
}

// Writes the n lines of `a` and the m lines of `b`, merged, from a place of `out` on. Each turn writes the line with the smaller key, that of `a`
// where both have the same, and then reads the next key of that side alone.
// n and m stand beside the texts, as in the clause: a text goes on as far as the ticket does.
pub fn put_merged(a: &[u8], n: usize, b: &[u8], m: usize, out: &mut [u8], at: usize)
    requires { HasLines a.now n × HasLines b.now m × (n + m ≤ max_frames) × (at + 11 * (n + m) ≤ length out.old) }
    ensures { out.new ≡ sets out.old at (merged_text a.now n b.now m) }
{
    let mut first = Side::begin(a, n);
    let mut second = Side::begin(b, m);
    // counted by its offset, so that no turn multiplies
    let mut place = at;
    for line in 0..n + m {
        if first.key <= second.key {
            first.put_next(out, place);
        } else {
            second.put_next(out, place);
        }
        place += BYTES;
    }
}
