// Bytes and digits written to a lent buffer.
#![tactic(auto)]

ghost use Rattle.std.specs.Prelude.{◌≡◌, [], ◌∷◌, ◌≤◌, length};
ghost use Rattle.buffer.specs.Digits.{last_digits, digit_count, decimal, hundredths};
ghost use Rattle.buffer.specs.Written.{HasRoom, Appends};

// How many digits a number has. Those of a short one are a sum of tests: a branch on each is slower in a listing, for how
// many digits its losses have goes up and down. (No `From` makes a `u32` a `usize`.)
pub fn digit_count(n: usize) -> usize
    ensures answer { result ≡ digit_count n }
    ensures at_most { result ≤ 20 }
{
    if n < 100_000 {
        1 + usize::from(10 <= n)
            + usize::from(100 <= n)
            + usize::from(1_000 <= n)
            + usize::from(10_000 <= n)
    } else {
        n.ilog10() as usize + 1
    }
}

// A lent text, and the place in it where the next bytes go. (Each write to an `io::Cursor` of std answers an `io::Result`.)
#[derive(Drop)]
pub struct Writer<'a> {
    pub text: &'a mut [u8],
    pub at: usize,
}

impl Writer<'_> {
    // Writes one byte.
    pub fn byte(&mut self, byte: u8)
        requires { HasRoom 1 self.old }
        ensures { Appends (byte ∷ []) self.old self.new }
    {
        self.text[self.at] = byte;
        self.at += 1;
    }

    // Writes bytes as they are.
    pub fn bytes(&mut self, bytes: &[u8])
        requires { HasRoom (length bytes.now) self.old }
        ensures { Appends bytes.now self.old self.new }
    {
        let end = self.at + bytes.len();
        self.text[self.at..end].copy_from_slice(bytes);
        self.at = end;
    }

    // Writes the last count digits of n. The cast is of a digit, and fits. By an index, for after `iter_mut().rev()` a proof
    // knows nothing of what was written.
    fn digits(&mut self, n: usize, count: usize)
        requires { HasRoom count self.old }
        ensures { Appends (last_digits count n) self.old self.new }
    {
        let end = self.at + count;
        let digits = &mut self.text[self.at..end];
        let mut rest = n;
        for i in 0..count {
            digits[count - 1 - i] = 48 + (rest % 10) as u8;
            rest /= 10;
        }
        self.at = end;
    }

    // Writes a number in decimal digits. Each short count is a constant, so that no loop is left there, and told by the number
    // itself, for a branch on the sum of tests is slower.
    #[tactic(auto, using(crate::proofs::Digits::length_digits), unfolding(crate::specs::Digits::decimal))]
    pub fn decimal(&mut self, n: usize)
        requires { HasRoom (length (decimal n)) self.old }
        ensures { Appends (decimal n) self.old self.new }
    {
        match n {
            0..=9 => self.digits(n, 1),
            10..=99 => self.digits(n, 2),
            100..=999 => self.digits(n, 3),
            1_000..=9_999 => self.digits(n, 4),
            10_000..=99_999 => self.digits(n, 5),
            _ => self.digits(n, digit_count(n)),
        }
    }

    // Writes hundredths with two digits after the point.
    #[tactic(auto, using(crate::proofs::Digits::length_digits), unfolding(crate::specs::Digits::hundredths))]
    pub fn hundredths(&mut self, n: usize)
        requires { HasRoom (length (hundredths n)) self.old }
        ensures { Appends (hundredths n) self.old self.new }
    {
        self.decimal(n / 100);
        self.byte(b'.');
        self.digits(n, 2);
    }
}
