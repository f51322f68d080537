//! What an entry's text stands for.

ghost use Rattle.std.specs.Prelude.{◌≡◌, ◌⊎◌, ◌<◌, ◌^◌, ◌==◌, ℕ, List, [], ◌∷◌, ◌++◌, length, count_by, IfOk, OnOk, OnErr, IfSome, Some};
ghost use Rattle.std.specs.Str.{IsUtf8};
ghost use Rattle.defmt_grammar.specs.Grammar.{HasFault, Spells};
ghost use Rattle.defmt_grammar.specs.declared.fault.Cause.{Cause as AnyCause};
ghost use Rattle.defmt_grammar.specs.declared.fault.Mode.{Mode as AnyMode};
ghost use Rattle.defmt_grammar.specs.declared.piece.Piece.{Piece};
ghost use Rattle.defmt_intern.specs.Body.{variants, forms_of, one_body, cut_body, body_of, StartsWith};
ghost use Rattle.defmt_intern.specs.Pieces.{pieces_of};

use crate::entry::{Entry, Tag};
use defmt_grammar::{GrammarFault, Language, Mode, Pieces, parse};
use dl_io::Memory;
use std::alloc::Global;
use std::marker::Model;

/// The pieces of the variants of an enum, in their order.
pub struct Forms {
    forms: Vec<Pieces>,
}

// By hand: a derived drop is proved again in each crate that drops such a value.
impl Drop for Forms {
    fn drop(self) {
        let Forms { forms: _ } = self;
    }
}

impl Model for Forms {
    ghost use Rattle.std.specs.Prelude.{List};
    ghost use Rattle.defmt_grammar.specs.declared.piece.Piece.{Piece};

    ghost Value = { List (List Piece) };

    ghost view = { λ f. f.forms.items };
}

impl Forms {
    /// No variants. Takes no memory.
    pub fn new(alloc: Global) -> Self
        ensures { result ≡ [] }
    {
        Forms {
            forms: Vec::new(alloc),
        }
    }

    /// Puts one more variant behind the others. On `Memory` the list is unchanged.
    pub fn push(&mut self, item: Pieces) -> Result<(), Memory>
        ensures ok { OnOk result (self.new ≡ self.old ++ item ∷ []) }
        ensures err { OnErr result (self.new ≡ self.old) }
    {
        self.forms.push(item)?;
        Ok(())
    }

    /// The variants. Takes no memory.
    pub fn as_slice(&self) -> &[Pieces]
        ensures { result.now ≡ self.now }
    {
        self.forms.as_slice()
    }
}

/// What an entry's text stands for, in the lenient reading of a language (an unknown hint counts as none).
#[derive(Drop)]
pub enum Parsed {
    /// The tag is `Other`, the text is refused, or it has more than 255 variants.
    Unsupported,
    /// An interned string, which isn't parsed.
    Raw,
    /// A text that isn't cut.
    One(Pieces),
    /// The 2 to 255 variants of a text that `|` cuts, which only tags `Prim`, `Derived` and `Write` have.
    Variants(Forms),
}

/// A text has pieces exactly where the grammar says that it spells them. Where it spells none the grammar has a fault for it.
pub fn pieces_are_spelled()
    ensures found { (mode : AnyMode) (text : List ℕ) (ps : List Piece)
        → pieces_of mode text ≡ Some ps → Spells text mode ps }
    ensures again { (mode : AnyMode) (text : List ℕ) (ps : List Piece)
        → Spells text mode ps → pieces_of mode text ≡ Some ps }
    ensures judged { (mode : AnyMode) (text : List ℕ) → ((ps : List Piece) × Spells text mode ps)
        ⊎ ((cause : AnyCause) × (at : ℕ) × HasFault text mode cause at) }
{}

// The pieces of a text, `None` where it is refused.
fn pieces_of(alloc: Global, text: &str, mode: Mode) -> Result<Option<Pieces>, Memory>
    requires { length text.now < 2 ^ 32 }
    ensures { IfOk result (λ pieces. pieces ≡ pieces_of mode text.now) }
{
    match parse(alloc, text, mode) {
        Ok(pieces) => Ok(Some(pieces)),
        Err(GrammarFault::Refused { .. }) => Ok(None),
        Err(GrammarFault::Memory) => Err(Memory),
    }
}

/// The first variant of a text that `|` cuts, and the text behind its `|`. Takes no memory.
pub fn cut_variant(text: &str) -> Option<(&str, &str)>
    ensures parts { StartsWith text.now result }
    ensures utf8 { IfSome result (λ parts. IsUtf8 parts.1.now) }
{
    text.split_once('|')
}

// The pieces of each variant, `None` where one is refused.
fn forms_of(alloc: Global, text: &str, mode: Mode) -> Result<Option<Forms>, Memory>
    requires { length text.now < 2 ^ 32 }
    ensures { IfOk result (λ forms. forms ≡ forms_of mode (variants text.now)) }
{
    let mut forms = Forms::new(alloc);
    let mut rest = text;
    'variants: while let Some((variant, after)) = cut_variant(rest) {
        let Some(pieces) = pieces_of(alloc, variant, mode)? else {
            return Ok(None);
        };
        forms.push(pieces)?;
        rest = after;
    }
    let Some(pieces) = pieces_of(alloc, rest, mode)? else {
        return Ok(None);
    };
    forms.push(pieces)?;
    Ok(Some(forms))
}

/// How many `|` a text has. Takes no memory.
pub fn count_bars(text: &str) -> usize
    ensures { result ≡ count_by (λ c. c == 124) text.now }
{
    text.as_bytes().iter().filter(|c| **c == b'|').count()
}

// What an uncut text stands for.
fn one_body(alloc: Global, text: &str, mode: Mode) -> Result<Parsed, Memory>
    requires { length text.now < 2 ^ 32 }
    ensures { IfOk result (λ body. body ≡ one_body (pieces_of mode text.now)) }
{
    Ok(match pieces_of(alloc, text, mode)? {
        Some(pieces) => Parsed::One(pieces),
        None => Parsed::Unsupported,
    })
}

// What a text stands for that `|` cuts.
fn cut_body(alloc: Global, text: &str, mode: Mode) -> Result<Parsed, Memory>
    requires { length text.now < 2 ^ 32 }
    ensures { IfOk result (λ body. body ≡ cut_body mode (variants text.now)) }
{
    match count_bars(text) {
        0 => one_body(alloc, text, mode),
        1..=254 => Ok(match forms_of(alloc, text, mode)? {
            Some(forms) => Parsed::Variants(forms),
            None => Parsed::Unsupported,
        }),
        _ => Ok(Parsed::Unsupported),
    }
}

/// What the entry's text stands for in a language.
pub fn body_of(alloc: Global, entry: &Entry, language: Language) -> Result<Parsed, Memory>
    requires { length entry.now.text < 2 ^ 32 }
    ensures { IfOk result (λ body. body ≡ body_of language entry.now) }
{
    let text = entry.text.as_str();
    let mode = language.lenient();
    match entry.tag {
        Tag::Other(_) => Ok(Parsed::Unsupported),
        Tag::Interned => Ok(Parsed::Raw),
        Tag::Prim | Tag::Derived | Tag::Write => cut_body(alloc, text, mode),
        _ => one_body(alloc, text, mode),
    }
}
