// Numbers in upper-case hexadecimal digits, written into a slice.
ghost use Rattle.std.specs.Prelude.{◌≡◌, ◌+◌, ◌≤◌, ◌<◌, length};
ghost use Rattle.std.proofs.lemmas.List.Edits.{sets};
ghost use Rattle.text.specs.Hex.{digit_of, digit_texts, hex};

// For each value below 16 its digit, 0-9 and A-F. A caller builds the table once and lends it for each number.
#[derive(Clone, Copy)]
pub struct DigitTexts {
    text: [u8; 16],
    ghost of_each_value: { text ≡ digit_texts },
}

impl DigitTexts {
    pub fn new() -> DigitTexts {
        DigitTexts {
            text: *b"0123456789ABCDEF",
        }
    }

    // The digit of a value below 16.
    pub fn digit(&self, v: u8) -> u8
        requires { v < 16 }
        ensures { result ≡ digit_of v }
    {
        self.text[usize::from(v)]
    }

    // A number's last N digits, at a place.
    pub fn put<const N: usize>(&self, out: &mut [u8], at: usize, v: u32)
        requires { at + N ≤ length out.old }
        ensures { out.new ≡ sets out.old at (hex N v) }
    {
        let mut rest = v;
        for k in (0..N).rev() {
            // below 16: a `try_from` would answer a Result that is never an Err
            out[at + k] = self.digit((rest % 16) as u8);
            rest /= 16;
        }
    }
}
