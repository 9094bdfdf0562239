// Several digits of a text at once: eight are read as one number of 64 bits, made upper case, compared and written as that number; and two of a card.
ghost use Rattle.std.specs.Prelude.{◌≡◌, true, ◌+◌, ◌-◌, ◌*◌, ◌/◌, ◌≤◌, ◌<◌, length};
ghost use Rattle.std.proofs.lemmas.List.Edits.{sets};
ghost use Rattle.text.specs.Text.{digit, digits};
ghost use Rattle.text.specs.UpperCase.{upper, upper_case};
ghost use Rattle.merged_lines.specs.Packed.{packed, bytes, small_letters};

// In each byte 31: added to it, a to f reach 128 and no other digit does.
const TO_TOP: u64 = 0x1f1f1f1f1f1f1f1f;

// In each byte 128.
const TOP: u64 = 0x8080808080808080;

// Digits packed into a number, in upper case: a small letter is 32 above its capital. Bytes before them are 0 and stay so.
fn upper_all(x: u64) -> u64
    requires { (x ≤ 0x6666666666666666) × (small_letters x / 4 ≤ x) }
    ensures { result ≡ x - small_letters x / 4 }
{
    x - ((x + TO_TOP) & TOP) / 4
}

// The eight bytes from a place on. The compiler makes one load of them.
fn eight_at(s: &[u8], at: usize) -> u64
    requires { at + 8 ≤ length s.now }
    ensures { result ≡ packed s.now at 8 }
{
    u64::from_be_bytes([
        s[at],
        s[at + 1],
        s[at + 2],
        s[at + 3],
        s[at + 4],
        s[at + 5],
        s[at + 6],
        s[at + 7],
    ])
}

// The eight digits from a place on, in upper case.
pub(crate) fn upper_eight(s: &[u8], at: usize) -> u64
    requires { (at + 8 ≤ length s.now) × (digits s.now at 8 ≡ true) }
    ensures { result ≡ packed (upper_case s.now) at 8 }
{
    upper_all(eight_at(s, at))
}

// Two digits in upper case, the second one the higher byte.
pub(crate) fn upper_two(a: u8, b: u8) -> u64
    requires { (digit a < 16) × (digit b < 16) }
    ensures { result ≡ upper b * 256 + upper a }
{
    upper_all(u64::from(b) * 256 + u64::from(a))
}

// The eight bytes of a number, at a place. The compiler makes one store of them.
pub(crate) fn put_eight(out: &mut [u8], at: usize, v: u64)
    requires { at + 8 ≤ length out.old }
    ensures { out.new ≡ sets out.old at (bytes 8 v) }
{
    out[at..at + 8].copy_from_slice(&v.to_be_bytes());
}
