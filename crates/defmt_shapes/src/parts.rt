//! Parts of a text.

ghost use Rattle.std.specs.Prelude.{◌≡◌, ◌<◌, IfSome};
ghost use Rattle.std.specs.List.{list_all};
ghost use Rattle.std.specs.Str.{IsUtf8};
ghost use Rattle.std.specs.Option.{option_copied};
ghost use Rattle.defmt_grammar.specs.Cut.{behind, strip, skip_spaces};
ghost use Rattle.defmt_grammar.specs.Param.{both_now, has_leading_zero};
ghost use Rattle.defmt_shapes.specs.Escapes.{with_rest};
ghost use Rattle.defmt_shapes.specs.Leads.{stops_there};
ghost use Rattle.defmt_shapes.specs.Runs.{in_class, run, first_ascii, is_variant};
ghost use Rattle.defmt_shapes.specs.Shape.{is_name, is_word};
ghost use Rattle.defmt_shapes.specs.Spelling.{ends_there};

/// Characters that stand together in numbers and names.
#[derive(Clone, Copy)]
pub enum Class {
    /// Decimal digits.
    Decimal,
    /// Hexadecimal digits, in either case.
    Hexadecimal,
    /// ASCII letters and digits, and `_`.
    Word,
    /// Decimal digits and spaces.
    Numbers,
}

impl Class {
    // Whether the byte is a character of this class.
    fn has(self, byte: u8) -> bool
        ensures { result ≡ in_class self byte }
    {
        match self {
            Class::Decimal => char::from(byte).is_digit(10),
            Class::Hexadecimal => char::from(byte).is_digit(16),
            Class::Word => byte.is_ascii_alphanumeric() || byte == b'_',
            Class::Numbers => byte == b' ' || char::from(byte).is_digit(10),
        }
    }
}

/// What stands behind the character that the text begins with, if it is this one.
pub fn behind(text: &str, first: char) -> Option<&str>
    requires { first < 128 }
    ensures rest { option_copied result ≡ behind first text.now }
    ensures utf8 { IfSome result (λ rest. IsUtf8 rest.now) }
{
    // By its first byte, which costs less than its first character.
    let [front, ..] = text.as_bytes() else {
        return None;
    };
    if char::from(*front) != first {
        return None;
    }
    let (_, rest) = text.split_at(1);
    Some(rest)
}

/// What stands behind a text's front, if it is this one.
pub fn behind_text<'a>(text: &'a str, front: &str) -> Option<&'a str>
    ensures rest { option_copied result ≡ strip front.now text.now }
    ensures utf8 { IfSome result (λ rest. IsUtf8 rest.now) }
{
    text.strip_prefix(front)
}

/// The text without the spaces in front. Takes no memory.
pub fn skip_spaces(text: &str) -> &str
    ensures rest { result.now ≡ skip_spaces text.now }
    ensures utf8 { IsUtf8 result.now }
{
    let mut text = text;
    while let Some(rest) = behind(text, ' ') {
        text = rest;
    }
    text
}

/// The characters of a class in front, and what follows them.
pub fn split_run(text: &str, class: Class) -> (&str, &str)
    ensures parts { both_now result ≡ run (in_class class) text.now }
    ensures front { IsUtf8 result.0.now }
    ensures utf8 { IsUtf8 result.1.now }
{
    for (i, b) in text.as_bytes().iter().enumerate() {
        if !class.has(*b) {
            return text.split_at(i);
        }
    }
    text.split_at(text.len())
}

/// The first character, if it is ASCII, and what follows it.
pub fn first_ascii(text: &str) -> Option<(u8, &str)>
    ensures parts { with_rest result ≡ first_ascii text.now }
    ensures utf8 { IfSome result (λ p. IsUtf8 p.1.now) }
{
    let [first, ..] = text.as_bytes() else {
        return None;
    };
    if *first >= 128 {
        return None;
    }
    let (_, rest) = text.split_at(1);
    Some((*first, rest))
}

/// Whether a text is spelled as names are: a letter, and up to 31 letters, digits and `_` behind it, all ASCII.
pub fn is_name(text: &str) -> bool
    ensures { result ≡ is_name text.now }
{
    match text.as_bytes() {
        [] => false,
        [first, more @ ..] => first.is_ascii_alphabetic() && are_words(more) && more.len() <= 31,
    }
}

fn is_word(byte: u8) -> bool
    ensures { result ≡ is_word byte }
{
    byte.is_ascii_alphanumeric() || byte == b'_'
}

fn are_words(bytes: &[u8]) -> bool
    ensures { result ≡ list_all is_word bytes.now }
{
    bytes.iter().all(|byte| is_word(*byte))
}

/// Whether decimal digits have a zero in front of others.
pub fn has_leading_zero(digits: &str) -> bool
    ensures { result ≡ has_leading_zero digits.now }
{
    digits.len() > 1 && behind(digits, '0').is_some()
}

/// Whether decimal digits are a variant's number.
#[tactic(auto, unfolding(crate::specs::Runs::is_variant))]
pub fn is_variant(digits: &str) -> bool
    ensures { result ≡ is_variant digits.now }
{
    !digits.is_empty() && !has_leading_zero(digits)
}

/// Whether a space, a closing bracket or nothing follows.
pub fn stops_there(rest: &str) -> bool
    ensures { result ≡ stops_there rest.now }
{
    match rest.as_bytes() {
        [] => true,
        [first, ..] => *first == b' ' || *first == b')' || *first == b'>',
    }
}

/// Whether a value may end before this rest: it is empty or begins with a space.
pub fn ends_there(rest: &str) -> bool
    ensures { result ≡ ends_there rest.now }
{
    match rest.as_bytes() {
        [] => true,
        [first, ..] => *first == b' ',
    }
}
