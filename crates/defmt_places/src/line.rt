//! What a line tells.
ghost use Rattle.std.specs.Prelude.{◌≡◌, option_map};
ghost use Rattle.std.specs.Str.{all_ascii_digits};
ghost use Rattle.defmt_grammar.specs.Cut.{cut, number_of, parts_of};
ghost use Rattle.defmt_places.specs.Places.{index_in, is_passed_over, pair_in, pair_view};

// What stands before and behind the first space.
fn cut(line: &str) -> Option<(&str, &str)>
    ensures { parts_of result ≡ cut 32 line.now }
{
    line.split_once(' ')
}

// Whether each byte is a decimal digit.
fn all_digits(word: &str) -> bool
    ensures { result ≡ all_ascii_digits word.now }
{
    word.as_bytes().iter().all(|byte| byte.is_ascii_digit())
}

// The number that decimal digits stand for, or the greatest of 32 bits where it is larger.
#[tactic(auto, unfolding(defmt_grammar::specs::Cut::number_of))]
fn number_of(word: &str) -> Option<u32>
    ensures { result ≡ number_of word.now }
{
    if word.is_empty() || !all_digits(word) {
        return None;
    }
    Some(word.parse().unwrap_or(u32::MAX))
}

// The same of digits without a leading zero.
fn index_of(word: &str) -> Option<u32>
    ensures { result ≡ index_in word.now }
{
    if word.len() > 1 && word.as_bytes()[0] == b'0' {
        return None;
    }
    number_of(word)
}

// The index that a line begins with, and the place behind the first space.
#[tactic(auto, unfolding(crate::specs::Places::pair_in))]
pub(crate) fn pair_of(line: &str) -> Option<(u32, &str)>
    ensures { option_map pair_view result ≡ pair_in line.now }
{
    let (word, place) = cut(line)?;
    if place.is_empty() {
        return None;
    }
    let index = index_of(word)?;
    Some((index, place))
}

// Whether the line is empty or a comment.
pub(crate) fn is_passed_over(line: &[u8]) -> bool
    ensures { result ≡ is_passed_over line.now }
{
    match line {
        [] => true,
        [first, ..] => *first == b'#',
    }
}
