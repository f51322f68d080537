//! A parameter, what `clap` found of it, and whether it goes with a command.
ghost use Rattle.std.specs.Prelude.{◌≡◌, map};
ghost use Rattle.clap.specs.Words.{found_of, rows_of, first_of};
ghost use Rattle.defmt_words.specs.Parameters.{is_set, is_there, is_among, goes, all_go};
ghost use Rattle.defmt_words.specs.View.{text_in, parameter_view};

use clap::ArgMatches;

/// How a parameter stands in the words.
#[derive(Clone, Copy)]
pub enum Kind {
    /// As a word by its place.
    Place,
    /// As `--name` with a value.
    Value,
    /// As `--name`.
    Flag,
}

/// A parameter of the command line.
#[derive(Clone, Copy)]
pub struct Parameter<'a> {
    /// Its name.
    pub name: &'a str,
    /// How it stands in the words.
    pub kind: Kind,
    /// The commands that take it.
    pub taken: &'a [&'a str],
    /// The commands that need it.
    pub needed: &'a [&'a str],
}

/// The value that `clap` found, if there is one.
pub fn value_of<'a>(matches: &ArgMatches<'a>, name: &str) -> Option<&'a str>
    ensures { text_in result ≡ first_of name.now (rows_of (found_of matches.now)) }
{
    matches.get_str(name)
}

/// Whether a flag is there.
pub fn is_set(matches: &ArgMatches<'_>, name: &str) -> bool
    ensures { result ≡ is_set name.now (rows_of (found_of matches.now)) }
{
    match value_of(matches, name) {
        Some(text) => text == "true",
        None => false,
    }
}

fn is_there(matches: &ArgMatches<'_>, parameter: &Parameter<'_>) -> bool
    ensures { result ≡ is_there parameter.now.kind parameter.now.name.now
        (rows_of (found_of matches.now)) }
{
    match parameter.kind {
        Kind::Place | Kind::Value => value_of(matches, parameter.name).is_some(),
        Kind::Flag => is_set(matches, parameter.name),
    }
}

// Whether the word is one of these.
fn is_among(word: &str, words: &[&str]) -> bool
    ensures { result ≡ is_among word.now (map (λ w. w.now) words.now) }
{
    let mut rest = words;
    'words: while let [first, more @ ..] = rest {
        if word == *first {
            return true;
        }
        rest = more;
    }
    false
}

// Whether the command takes a parameter that is there, and doesn't need one that isn't.
fn goes(command: &str, matches: &ArgMatches<'_>, parameter: &Parameter<'_>) -> bool
    ensures { result ≡ goes command.now (rows_of (found_of matches.now))
        (parameter_view parameter.now) }
{
    if is_there(matches, parameter) {
        is_among(command, parameter.taken)
    } else {
        !is_among(command, parameter.needed)
    }
}

/// Whether the command takes each parameter that is there, and needs none that isn't.
pub fn all_go(command: &str, matches: &ArgMatches<'_>, parameters: &[Parameter<'_>]) -> bool
    ensures { result ≡ all_go command.now (rows_of (found_of matches.now))
        (map parameter_view parameters.now) }
{
    let mut rest = parameters;
    'parameters: while let [first, more @ ..] = rest {
        if !goes(command, matches, first) {
            return false;
        }
        rest = more;
    }
    true
}
