// Words and decimal numbers in a lent text. Each `put_..` puts its piece from `at` on and gives the place after it.
#![tactic(auto)]

ghost use Rattle.std.specs.Prelude.{◌≡◌, ℕ, List, ◌++◌, length};
ghost use Rattle.definitions.specs.Report.{decimal, signed_decimal};
ghost use Rattle.text.specs.Put.{Room, Put};

pub fn put_word(text: &mut [u8], at: usize, word: &[u8]) -> usize
    requires { Room at word.now text.old }
    ensures { Put at word.now text.old result text.new }
{
    let next = at + word.len();
    text[at..next].copy_from_slice(word);
    next
}

// How many digits n has.
fn digit_count(n: u64) -> usize
    ensures { result ≡ length (decimal n) }
{
    let mut count = 1;
    let mut rest = n;
    // a turn divides, and nothing is gone through
    while 10 <= rest {
        count += 1;
        rest = rest / 10;
    }
    count
}

// A number that has a text in decimal digits.
pub trait Decimal {
    ghost digits: { Self → List ℕ };

    fn put(self, text: &mut [u8], at: usize) -> usize
        requires { Room at (digits self) text.old }
        ensures { Put at (digits self) text.old result text.new };
}

// The digits go in from the last to the first.
impl Decimal for u64 {
    ghost digits = { decimal };

    fn put(self, text: &mut [u8], at: usize) -> usize {
        let next = at + digit_count(self);
        let mut rest = self;
        for place in (at..next).rev() {
            text[place] = (48 + rest % 10) as u8;
            rest = rest / 10;
        }
        next
    }
}

// A number below 0 is a minus sign and its size.
impl Decimal for i64 {
    ghost digits = { signed_decimal };

    fn put(self, text: &mut [u8], at: usize) -> usize {
        let size = self.unsigned_abs();
        if 0 <= self {
            return size.put(text, at);
        }
        let next = put_word(text, at, b"-");
        size.put(text, next)
    }
}

// A word, and the number that it tells.
pub fn put_labelled<N: Decimal>(text: &mut [u8], at: usize, word: &[u8], n: N) -> usize
    requires { Room at (word.now ++ N.digits n) text.old }
    ensures { Put at (word.now ++ N.digits n) text.old result text.new }
{
    let next = put_word(text, at, word);
    n.put(text, next)
}
