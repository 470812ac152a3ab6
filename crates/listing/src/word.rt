//! Words of a text, and the numbers that they spell.
ghost use Rattle.std.specs.Prelude.{◌≡◌, ◌≤◌, ◌&&◌, length, pos, neg_ℤ, IfSome, nat_le, not};
ghost use Rattle.std.specs.List.{prefix_len};
ghost use Rattle.listing.specs.Words.{is_blank, after_blanks, first_word, after_word, digit_of, natural_of, number_of};

/// A number has at most so many digits.
pub const MAX_DIGITS: usize = 9;

/// Whether the byte parts words: a space, a tab, a line feed or a carriage return.
fn is_blank(b: u8) -> bool
    ensures value { result ≡ is_blank b }
{
    b == b' ' || b == b'\t' || b == b'\n' || b == b'\r'
}

/// How many blanks the text begins with.
fn blank_length(text: &[u8]) -> usize
    ensures value { result ≡ prefix_len is_blank text.now }
    ensures within { result ≤ length text.now }
{
    text.iter().take_while(|b| is_blank(**b)).count()
}

/// The text without the blanks that it begins with.
pub fn after_blanks(text: &[u8]) -> &[u8]
    ensures value { result.now ≡ after_blanks text.now }
{
    let (_, rest) = text.split_at(blank_length(text));
    rest
}

/// How many bytes stand before the first blank.
fn word_length(text: &[u8]) -> usize
    ensures value { result ≡ prefix_len (λ b. not (is_blank b)) text.now }
    ensures within { result ≤ length text.now }
{
    text.iter().take_while(|b| !is_blank(**b)).count()
}

/// The first word of the text, empty where there is none, and what stands after it.
pub fn first_word(text: &[u8]) -> (&[u8], &[u8])
    ensures word { result.0.now ≡ first_word text.now }
    ensures rest { result.1.now ≡ after_word text.now }
{
    let from = after_blanks(text);
    from.split_at(word_length(from))
}

/// What a digit counts.
fn digit(b: u8) -> Option<u32>
    ensures value { result ≡ digit_of b }
    ensures small { IfSome result (λ d. d ≤ 9) }
{
    char::from(b).to_digit(10)
}

/// Whether a number may have so many digits.
fn may_count(digits: usize) -> bool
    ensures value { result ≡ (nat_le 1 digits && nat_le digits 9) }
{
    (1..=MAX_DIGITS).contains(&digits)
}

/// The number that 1 to 9 digits spell.
fn natural(digits: &[u8]) -> Option<u32>
    ensures value { result ≡ natural_of digits.now }
{
    if !may_count(digits.len()) {
        return None;
    }
    let mut x: u32 = 0;
    for b in digits {
        x = x * 10 + digit(*b)?;
    }
    Some(x)
}

/// The number with a minus.
fn negated(x: u32) -> i64
    ensures value { result ≡ neg_ℤ (pos x) }
{
    -i64::from(x)
}

/// The number that a word spells: 1 to 9 digits, a minus before them allowed.
pub fn number(word: &[u8]) -> Option<i64>
    ensures value { result ≡ number_of word.now }
{
    match word {
        [b'-', digits @ ..] => natural(digits).map(negated),
        _ => natural(word).map(i64::from),
    }
}
