// Reads a decimal number of any length.
ghost use Rattle.std.specs.Prelude.{◌≡◌, ◌+◌, ◌-◌, ◌*◌, ◌^◌, ◌<◌, min, pos, neg_ℤ, option_map};
ghost use Rattle.text_words.specs.Numbers.{held, natural_of, number_of};

/// The number that the word stands for: `+`, `-` or no sign, and then decimal digits, of which leading zeros are let
/// in. A number that 64 signed bits can't hold comes out as the nearest that they can. `None` where it isn't a number.
#[tactic(auto, unfolding(crate::specs::Numbers::number_of))]
#[inline(always)]
pub fn number(word: &[u8]) -> Option<i64>
    ensures { result ≡ option_map held (number_of word.now) }
{
    match word {
        [b'+', digits @ ..] => positive(digits),
        [b'-', digits @ ..] => negative(digits),
        digits => positive(digits),
    }
}

fn positive(digits: &[u8]) -> Option<i64>
    ensures { result ≡ option_map (λ n. held (pos n)) (natural_of digits.now) }
{
    let size = natural(digits)?;
    Some(held_positive(size))
}

fn negative(digits: &[u8]) -> Option<i64>
    ensures { result ≡ option_map (λ n. held (neg_ℤ (pos n))) (natural_of digits.now) }
{
    let size = natural(digits)?;
    Some(held_negative(size))
}

// The number that the digits write, or the greatest of 64 bits where it is greater.
#[tactic(auto, using(crate::proofs::Digits::number_digit_more, crate::proofs::Digits::no_digits_at))]
fn natural(digits: &[u8]) -> Option<u64>
    ensures { result ≡ option_map (min (2 ^ 64 - 1)) (natural_of digits.now) }
{
    if digits.is_empty() {
        return None;
    }
    let mut total: u64 = 0;
    for digit in digits {
        if !digit.is_ascii_digit() {
            return None;
        }
        total = with_digit(total, *digit - b'0');
    }
    Some(total)
}

// The number with one digit more, or the greatest of 64 bits where it is greater. Short numbers take the quick way.
fn with_digit(total: u64, digit: u8) -> u64
    requires { digit < 10 }
    ensures { result ≡ min (2 ^ 64 - 1) (total * 10 + digit) }
{
    if total < 1 << 31 {
        total * 10 + u64::from(digit)
    } else {
        total.saturating_mul(10).saturating_add(u64::from(digit))
    }
}

#[tactic(auto, unfolding(crate::specs::Numbers::held))]
fn held_positive(size: u64) -> i64
    ensures { result ≡ held (pos size) }
{
    if size > i64::MAX as u64 {
        i64::MAX
    } else {
        size as i64
    }
}

#[tactic(auto, unfolding(crate::specs::Numbers::held))]
fn held_negative(size: u64) -> i64
    ensures { result ≡ held (neg_ℤ (pos size)) }
{
    if size > i64::MAX as u64 {
        i64::MIN
    } else {
        -(size as i64)
    }
}
