//! What the first lines of a script set.

ghost use Rattle.std.specs.Prelude.{◌≡◌, ◌∷◌, [], ℕ, List, Result, IfOk, Some, false};
ghost use Rattle.defmt_lines.specs.LineView.{words_view};
ghost use Rattle.defmt_lines.specs.Settings.{Sets, is_block, no_settings, order_or, with_language, with_mode, with_order, with_profile, with_reader, with_ring, with_stamp, with_words};
ghost use Rattle.defmt_lines.specs.declared.cause.Cause.{Cause as AnyCause};
ghost use Rattle.defmt_lines.specs.declared.form.Form.{Form as AnyForm};
ghost use Rattle.defmt_lines.specs.declared.settings.Settings.{Settings as AnySettings};

use crate::cause::Cause;
use crate::content::Words;
use crate::form::Form;
use crate::number::number_within;
use crate::orders::Orders;
use crate::setting_words::{language_of, late_of, mode_of, profile_of};
use defmt_grammar::Language;
use defmt_hooks::{Level, level_named};
use defmt_intern::Profile;

// The least and the greatest size of a ring.
const LEAST_RING: u64 = 16;

const GREATEST_RING: u64 = 65_536;

// The greatest base and step of a stamp.
const STAMP_LIMIT: u64 = 281_474_976_710_656;

// The greatest number of an order.
const FRAMES_LIMIT: u64 = 4096;

// The most orders.
const ORDERS_LIMIT: usize = 64;

/// What a writer does where its frame doesn't fit into the ring (SEGGER RTT, the modes of an up-buffer).
#[derive(Clone, Copy)]
pub enum RingMode {
    /// It waits until the reader has made room.
    Block,
    /// It drops the frame.
    Skip,
    /// It sends the front that fits.
    Trim,
}

/// What the first lines of a script set.
#[derive(Drop)]
pub struct Settings {
    /// The language of the strings.
    pub language: Language,
    /// The ring's size in bytes, from 16 to 65,536.
    pub ring: u32,
    /// What a writer does where its frame doesn't fit.
    pub mode: RingMode,
    /// The reader takes nothing before the writers end.
    pub late: bool,
    /// The first stamp and the step from one to the next, in microseconds.
    pub stamp: Option<(u64, u64)>,
    /// How messages are laid out.
    pub profile: Profile,
    /// The orders of levels in their order, at most 64.
    pub orders: Orders,
}

impl Settings {
    /// What a script has without such lines: the language Base, a ring of 1,024 bytes, blocking mode, a live reader, no
    /// stamps, profile One and no orders.
    pub fn new() -> Settings
        ensures { result ≡ no_settings }
    {
        Settings {
            language: Language::Base,
            ring: 1024,
            mode: RingMode::Block,
            late: false,
            stamp: None,
            profile: Profile::One,
            orders: Orders::new(),
        }
    }

    /// With what the words of a line of this form say: `language full`, `ring` and a size, `mode` and a mode, `reader` and
    /// whether it is late, which it can't be in blocking mode, `stamp` and two numbers, `profile` and a profile, or `d`, a
    /// number of frames and a level, which is one order more.
    ///
    /// # Errors
    /// The cause why the words set nothing, `Cause::Line` for another form and another number of words.
    pub fn with_words(&self, form: Form, words: Words<'_>) -> Result<Settings, Cause>
        ensures { Sets form (words_view words.entry) self.now result }
    {
        self.by_words(form, words)
    }

    fn by_words(&self, form: Form, words: Words<'_>) -> Result<Settings, Cause>
        ensures { result ≡ with_words form (words_view words.entry) self.now }
    {
        match words {
            Words::One(word) => self.with_one(form, word),
            Words::Two(first, second) => self.with_two(form, first, second),
        }
    }

    fn with_one(&self, form: Form, word: &str) -> Result<Settings, Cause>
        ensures { result ≡ with_words form (word.now ∷ []) self.now }
    {
        match form {
            Form::Language => self.with_language(word),
            Form::Ring => self.with_ring(word),
            Form::Mode => self.with_mode(word),
            Form::Reader => self.with_reader(word),
            Form::Profile => self.with_profile(word),
            Form::Stamp | Form::Order | Form::Entry | Form::Statement | Form::Say => {
                Err(Cause::Line)
            }
        }
    }

    fn with_two(&self, form: Form, first: &str, second: &str) -> Result<Settings, Cause>
        ensures { result ≡ with_words form (first.now ∷ second.now ∷ []) self.now }
    {
        match form {
            Form::Stamp => self.with_stamp(first, second),
            Form::Order => self.with_order(first, second),
            Form::Language
            | Form::Ring
            | Form::Mode
            | Form::Reader
            | Form::Profile
            | Form::Entry
            | Form::Statement
            | Form::Say => Err(Cause::Line),
        }
    }

    #[tactic(auto, unfolding(crate::specs::Settings::with_language))]
    fn with_language(&self, word: &str) -> Result<Settings, Cause>
        ensures { result ≡ with_language self.now word.now }
    {
        match language_of(word) {
            Some(language) => Ok(Settings {
                language,
                ..self.copy()
            }),
            None => Err(Cause::Line),
        }
    }

    #[tactic(auto, unfolding(crate::specs::Settings::with_ring))]
    fn with_ring(&self, word: &str) -> Result<Settings, Cause>
        ensures { result ≡ with_ring self.now word.now }
    {
        match number_within(LEAST_RING, GREATEST_RING, word) {
            Some(ring) => Ok(Settings {
                language: self.language,
                ring: ring as u32,
                mode: self.mode,
                late: self.late,
                stamp: self.stamp,
                profile: self.profile,
                orders: self.orders.copy(),
            }),
            None => Err(Cause::Ring),
        }
    }

    #[tactic(auto, unfolding(crate::specs::Settings::with_mode))]
    fn with_mode(&self, word: &str) -> Result<Settings, Cause>
        ensures { result ≡ with_mode self.now word.now }
    {
        match mode_of(word) {
            Some(mode) => Ok(Settings {
                mode,
                ..self.copy()
            }),
            None => Err(Cause::Mode),
        }
    }

    #[tactic(auto, unfolding(crate::specs::Settings::with_reader))]
    fn with_reader(&self, word: &str) -> Result<Settings, Cause>
        ensures { result ≡ with_reader self.now word.now }
    {
        let Some(late) = late_of(word) else {
            return Err(Cause::Mode);
        };
        if late && self.mode.is_block() {
            return Err(Cause::Late);
        }
        Ok(Settings {
            late,
            ..self.copy()
        })
    }

    #[tactic(auto, unfolding(crate::specs::Settings::with_stamp))]
    fn with_stamp(&self, base: &str, step: &str) -> Result<Settings, Cause>
        ensures { result ≡ with_stamp self.now base.now step.now }
    {
        match (
            number_within(0, STAMP_LIMIT, base),
            number_within(0, STAMP_LIMIT, step),
        ) {
            (Some(base), Some(step)) => Ok(Settings {
                stamp: Some((base, step)),
                ..self.copy()
            }),
            _ => Err(Cause::Stamp),
        }
    }

    #[tactic(auto, unfolding(crate::specs::Settings::with_profile))]
    fn with_profile(&self, word: &str) -> Result<Settings, Cause>
        ensures { result ≡ with_profile self.now word.now }
    {
        match profile_of(word) {
            Some(profile) => Ok(Settings {
                profile,
                ..self.copy()
            }),
            None => Err(Cause::Profile),
        }
    }

    #[tactic(auto, unfolding(crate::specs::Settings::with_order))]
    fn with_order(&self, number: &str, word: &str) -> Result<Settings, Cause>
        ensures { result ≡ with_order self.now number.now word.now }
    {
        match (number_within(0, FRAMES_LIMIT, number), level_named(word)) {
            (Some(number), Some(level)) => self.with_one_more(number as u32, level),
            _ => Err(Cause::Level),
        }
    }

    // With an order more.
    fn with_one_more(&self, number: u32, level: Level) -> Result<Settings, Cause>
        ensures { result ≡ order_or self.now (Some number) (Some level) }
    {
        if self.orders.len() >= ORDERS_LIMIT {
            return Err(Cause::Many);
        }
        Ok(Settings {
            orders: self.orders.with_order(number, level),
            ..self.copy()
        })
    }

    fn copy(&self) -> Settings
        ensures { result ≡ self.now }
    {
        Settings {
            language: self.language,
            ring: self.ring,
            mode: self.mode,
            late: self.late,
            stamp: self.stamp,
            profile: self.profile,
            orders: self.orders.copy(),
        }
    }
}

/// The words of a line set one thing, or nothing for one cause.
pub fn one_setting()
    ensures { (form : AnyForm) (words : List (List ℕ)) (s : AnySettings)
        (set other : Result AnySettings AnyCause)
        → Sets form words s set → Sets form words s other → set ≡ other }
{}

impl RingMode {
    fn is_block(self) -> bool
        ensures { result ≡ is_block self }
    {
        match self {
            RingMode::Block => true,
            RingMode::Skip | RingMode::Trim => false,
        }
    }
}
