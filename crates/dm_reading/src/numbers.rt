//! Numbers as they are written.
ghost use Rattle.std.specs.Prelude.{◌≡◌, ◌+◌, ◌*◌, ◌<◌, ◌≤◌, ◌^◌, IfSome, Some, length, min, option_map};
ghost use Rattle.dm_reading.specs.Digits.{base_of, digit, digits_after};
ghost use Rattle.dm_reading.specs.Numbers.{if_below, is_padded, number_after, read_number};
ghost use Rattle.dm_reading.specs.declared.numbers.Base.TheVariants.{Ten, Sixteen};

/// What the digits of a number count.
#[derive(Clone, Copy)]
pub enum Base {
    Ten,
    /// With small or capital letters.
    Sixteen,
}

/// So many digits are below 2^64.
const FEW_DIGITS: usize = 19;

impl Base {
    /// The value of a digit.
    fn digit(self, c: u8) -> Option<u8>
        ensures value { result ≡ digit self c }
        ensures small { IfSome result (λ d. d < 16) }
    {
        match self {
            Base::Ten => decimal_digit(c),
            Base::Sixteen => hexadecimal_digit(c),
        }
    }
}

/// The value of a decimal digit.
fn decimal_digit(c: u8) -> Option<u8>
    ensures value { result ≡ digit Ten c }
    ensures small { IfSome result (λ d. d < 10) }
{
    if c.is_ascii_digit() {
        Some(c - b'0')
    } else {
        None
    }
}

/// The value of a hexadecimal digit.
fn hexadecimal_digit(c: u8) -> Option<u8>
    ensures value { result ≡ digit Sixteen c }
    ensures small { IfSome result (λ d. d < 16) }
{
    match c {
        b'0'..=b'9' => Some(c - b'0'),
        b'a'..=b'f' => Some(c - b'a' + 10),
        b'A'..=b'F' => Some(c - b'A' + 10),
        _ => None,
    }
}

/// A number with one digit more, at most `most`.
fn with_digit(base: Base, value: u64, digit: u8, most: u64) -> u64
    requires small { value ≤ most }
    requires most { most ≤ 2 ^ 32 }
    requires digit { digit < 16 }
    ensures { result ≡ min (base_of base * value + digit) most }
{
    let base = match base {
        Base::Ten => 10,
        Base::Sixteen => 16,
    };
    (base * value + u64::from(digit)).min(most)
}

/// The number that any digits are, at most `most`: numbers from there on are not told apart.
pub fn capped_number(base: Base, digits: &[u8], most: u64) -> Option<u64>
    requires { most ≤ 2 ^ 32 }
    ensures { result ≡ option_map (λ n. min n most) (digits_after base 0 digits.now) }
{
    let mut value = 0;
    for c in digits {
        match base.digit(*c) {
            Some(digit) => value = with_digit(base, value, digit, most),
            None => return None,
        }
    }
    Some(value)
}

/// The number that at most 19 decimal digits are.
pub fn exact_number(digits: &[u8]) -> Option<u64>
    requires { length digits.now ≤ 19 }
    ensures { result ≡ number_after 0 digits.now }
{
    let mut value: u64 = 0;
    for c in digits {
        if !c.is_ascii_digit() {
            return None;
        }
        value = value * 10 + u64::from(*c - b'0');
    }
    Some(value)
}

/// The number that a word spells in decimal as it is printed, without a 0 in front, if it is at most `most`.
#[tactic(auto, unfolding(crate::specs::Numbers::read_number))]
pub fn printed_number(word: &[u8], most: u128) -> Option<u128>
    ensures value { result ≡ read_number (most + 1) word.now }
    ensures within { IfSome result (λ n. n ≤ most) }
{
    if word.is_empty() || is_padded(word) {
        None
    } else if word.len() <= FEW_DIGITS {
        short_number(word, most)
    } else {
        long_number(word, most)
    }
}

/// Whether a 0 stands before other digits.
fn is_padded(word: &[u8]) -> bool
    ensures { result ≡ is_padded word.now }
{
    word.len() > 1 && word[0] == b'0'
}

/// The number that at most 19 digits are, if it is at most `most`.
fn short_number(word: &[u8], most: u128) -> Option<u128>
    requires { length word.now ≤ 19 }
    ensures value { result ≡ if_below (most + 1) (number_after 0 word.now) }
    ensures within { IfSome result (λ n. n ≤ most) }
{
    let n = u128::from(exact_number(word)?);
    if n <= most { Some(n) } else { None }
}

/// The number that any digits are, if it is at most `most`.
fn long_number(word: &[u8], most: u128) -> Option<u128>
    ensures value { result ≡ if_below (most + 1) (number_after 0 word.now) }
    ensures within { IfSome result (λ n. n ≤ most) }
{
    let mut n = 0;
    for byte in word {
        let digit = decimal_digit(*byte)?;
        n = with_digit_within(n, digit, most)?;
    }
    Some(n)
}

/// A number with one more digit, if it is at most `most` then.
fn with_digit_within(n: u128, digit: u8, most: u128) -> Option<u128>
    ensures { result ≡ if_below (most + 1) (Some (10 * n + digit)) }
{
    let next = n.checked_mul(10)?.checked_add(u128::from(digit))?;
    if next <= most { Some(next) } else { None }
}
