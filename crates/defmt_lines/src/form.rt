//! The forms of a script's lines.

ghost use Rattle.std.specs.Prelude.{◌≡◌};
ghost use Rattle.defmt_lines.specs.Form.{form_of, in_order, next, rank};

/// The form of a line, by its first word. A script has its lines in this order, but for the last two forms, which may come in
/// any.
#[derive(Clone, Copy)]
pub enum Form {
    /// `language`
    Language,
    /// `ring`
    Ring,
    /// `mode`
    Mode,
    /// `reader`
    Reader,
    /// `stamp`
    Stamp,
    /// `profile`
    Profile,
    /// `d`
    Order,
    /// `s`
    Entry,
    /// `w`
    Statement,
    /// `t`
    Say,
}

impl Form {
    fn rank(self) -> u8
        ensures { result ≡ rank self }
    {
        match self {
            Form::Language => 0,
            Form::Ring => 1,
            Form::Mode => 2,
            Form::Reader => 3,
            Form::Stamp => 4,
            Form::Profile => 5,
            Form::Order => 6,
            Form::Entry => 7,
            Form::Statement => 8,
            Form::Say => 9,
        }
    }

    /// The first form that may stand behind a line of this one: each of the first six stands at most once.
    pub fn next(self) -> Form
        ensures { result ≡ next self }
    {
        match self {
            Form::Language => Form::Ring,
            Form::Ring => Form::Mode,
            Form::Mode => Form::Reader,
            Form::Reader => Form::Stamp,
            Form::Stamp => Form::Profile,
            Form::Profile | Form::Order => Form::Order,
            Form::Entry => Form::Entry,
            Form::Statement | Form::Say => Form::Statement,
        }
    }

    /// Whether a line of this form may come where `first` is the first form that may.
    pub fn is_in_order(self, first: Form) -> bool
        ensures { result ≡ in_order first self }
    {
        first.rank() <= self.rank()
    }
}

/// The form that a line's first word gives it. Most lines are statements, so that word is looked for first.
pub fn form_of(word: &str) -> Option<Form>
    ensures { result ≡ form_of word.now }
{
    match word {
        "w" => Some(Form::Statement),
        "t" => Some(Form::Say),
        "s" => Some(Form::Entry),
        "d" => Some(Form::Order),
        "ring" => Some(Form::Ring),
        "mode" => Some(Form::Mode),
        "reader" => Some(Form::Reader),
        "stamp" => Some(Form::Stamp),
        "profile" => Some(Form::Profile),
        "language" => Some(Form::Language),
        _ => None,
    }
}
