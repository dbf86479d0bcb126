// The digits: the number that each character stands for, and the number of several.
ghost use Rattle.std.specs.Prelude.{◌≡◌, ◌≤◌, length};
ghost use Rattle.frames.specs.Parts.{digit_values, sum_in};

// The characters of the digits, from 0 on.
pub(crate) static CHARACTERS: [u8; 16] = *b"0123456789abcdef";

// What the digit values have for every other character: more than eight digits can stand for, so that one test tells of all
// the digits of a field.
pub(crate) const NO_DIGIT: u64 = 0x1_0000_0000;

// The number that each character stands for as a digit, or NO_DIGIT. Whoever reads many lines makes them once.
#[derive(Clone, Copy)]
pub struct Digits {
    pub values: [u64; 256],
    ghost each: { values ≡ digit_values },
}

impl Digits {
    pub fn new() -> Self {
        let mut values = [NO_DIGIT; 256];
        for (number, character) in CHARACTERS.iter().enumerate() {
            values[*character as usize] = number as u64;
        }
        Digits { values }
    }

    // The number of at most eight digits. A character that is no digit makes it NO_DIGIT or more.
    pub(crate) fn number(&self, field: &[u8]) -> u64
        requires { length field.now ≤ 8 }
        ensures { result ≡ sum_in field.now }
    {
        let mut number = 0;
        for byte in field {
            number = number * 16 + self.values[*byte as usize];
        }
        number
    }
}
