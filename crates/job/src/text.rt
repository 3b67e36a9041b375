// The leaves of reading: a text cut at a byte, and a number.
ghost use Rattle.std.specs.Prelude.{◌≡◌};
ghost use Rattle.std.specs.Option.{option_map};
ghost use Rattle.job.specs.Texts.{cut_at, parts, number_of, digit_of};

// What stands before and behind the first of these bytes.
pub fn cut(text: &[u8], at: u8) -> Option<(&[u8], &[u8])>
    ensures { option_map parts result ≡ cut_at at text.now }
{
    let place = text.iter().position(|b| *b == at)?;
    Some((&text[..place], &text[place + 1..]))
}

// The value of a decimal digit.
pub fn digit(b: u8) -> Option<u32>
    ensures { result ≡ digit_of b }
{
    char::from(b).to_digit(10)
}

// The most digits that a number has.
const MOST_DIGITS: usize = 8;

// The number that 1 to 8 digits say. No `parse`: it takes a sign too, and as many digits as there are.
pub fn number(digits: &[u8]) -> Option<u32>
    ensures { result ≡ number_of digits.now }
{
    if digits.is_empty() || digits.len() > MOST_DIGITS {
        return None;
    }
    let mut n: u32 = 0;
    for b in digits {
        let d = digit(*b)?;
        n = 10 * n + d;
    }
    Some(n)
}
