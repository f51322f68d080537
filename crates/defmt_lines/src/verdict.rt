//! Whether a text may stand in an `s` line, and what it stands for there.

ghost use Rattle.std.specs.Prelude.{◌≡◌, ◌⊎◌, ◌<◌, ◌^◌, ◌∷◌, [], ℕ, List, Option, Some, length, IfOk};
ghost use Rattle.std.specs.Result.{result_err};
ghost use Rattle.defmt_grammar.specs.Grammar.{HasFault, Spells};
ghost use Rattle.defmt_grammar.specs.Language.{lenient_of};
ghost use Rattle.defmt_grammar.specs.declared.fault.Cause.{Cause as AnyCause};
ghost use Rattle.defmt_grammar.specs.declared.fault.Mode.{Mode as AnyMode};
ghost use Rattle.defmt_grammar.specs.declared.language.Language.{Language as AnyLanguage};
ghost use Rattle.defmt_grammar.specs.declared.piece.Piece.{Piece as AnyPiece};
ghost use Rattle.defmt_intern.specs.Body.{body_in, cut_body, forms_of, one_body, variants};
ghost use Rattle.defmt_intern.specs.Pieces.{pieces_of};
ghost use Rattle.defmt_intern.specs.declared.entry.Tag.{Tag as AnyTag};
ghost use Rattle.defmt_lines.specs.Verdict.{Judges, JudgesForms, JudgesVariants};

use defmt_grammar::{GrammarFault, Language, Pieces, one_answer, parse, strict_is_lenient};
use defmt_intern::{Forms, Parsed, TEXT_LIMIT, Tag, count_bars, cut_variant};
use dl_io::Memory;
use std::alloc::Global;

// The text has more than 4,096 bytes, or more than 255 variants.
const OVER_LIMIT: u8 = 0;

/// What is wrong with a text of this tag in a script of this language, `None` where it is taken.
///
/// The number is that of the first fault of the strict reading (`defmt_grammar::Cause`), or 0 where the text has more than
/// 4,096 bytes or more than 255 variants. A text of a primitive, derived or written format is read variant by variant, an
/// interned string not at all.
pub fn judge(alloc: Global, language: Language, tag: &Tag, text: &str) -> Result<Option<u8>, Memory>
    ensures { IfOk result (λ verdict. Judges language tag.now text.now verdict) }
{
    Ok(parse_text(alloc, language, tag, text)?.err())
}

/// What an entry of this tag and text stands for where [`judge`] takes the text, and what is wrong with it elsewhere.
#[tactic(auto, unfolding(crate::specs::Verdict::Judges))]
pub fn parse_text(
    alloc: Global,
    language: Language,
    tag: &Tag,
    text: &str,
) -> Result<Result<Parsed, u8>, Memory>
    ensures verdict { IfOk result (λ read. Judges language tag.now text.now (result_err read)) }
    // What is taken strictly stands for the same in the lenient reading, which is that of a table.
    ensures parsed { IfOk result (λ read.
        IfOk read (λ parsed. parsed ≡ body_in language tag.now text.now)) }
{
    if text.len() > TEXT_LIMIT {
        return Ok(Err(OVER_LIMIT));
    }
    match tag {
        Tag::Interned => Ok(Ok(Parsed::Raw)),
        Tag::Prim | Tag::Derived | Tag::Write => parse_variants(alloc, language, text),
        Tag::Other(_) => match parse_form(alloc, language, text)? {
            Ok(_) => Ok(Ok(Parsed::Unsupported)),
            Err(number) => Ok(Err(number)),
        },
        _ => parse_one(alloc, language, text),
    }
}

/// A text has one verdict at most.
pub fn one_verdict()
    ensures { (language : AnyLanguage) (tag : AnyTag) (text : List ℕ) (verdict other : Option ℕ)
        → Judges language tag text verdict → Judges language tag text other → verdict ≡ other }
{
    one_answer();
}

/// Each text has a verdict, since it spells pieces or has a fault, in each mode.
pub fn some_verdict()
    ensures verdict { (language : AnyLanguage) (tag : AnyTag) (text : List ℕ)
        → (verdict : Option ℕ) × Judges language tag text verdict }
    ensures answer { (text : List ℕ) (mode : AnyMode)
        → ((pieces : List AnyPiece) × Spells text mode pieces)
        ⊎ ((cause : AnyCause) × (at : ℕ) × HasFault text mode cause at) }
{}

// The pieces that a text spells strictly, or the number of its fault.
fn parse_form(alloc: Global, language: Language, text: &str) -> Result<Result<Pieces, u8>, Memory>
    requires { length text.now < 2 ^ 32 }
    ensures verdict { IfOk result (λ read. JudgesForms language (text.now ∷ []) (result_err read)) }
    ensures pieces { IfOk result (λ read.
        IfOk read (λ pieces. pieces_of (lenient_of language) text.now ≡ Some pieces)) }
{
    strict_is_lenient();
    match parse(alloc, text, language.strict()) {
        Ok(pieces) => Ok(Ok(pieces)),
        Err(GrammarFault::Refused { cause, .. }) => Ok(Err(cause)),
        Err(GrammarFault::Memory) => Err(Memory),
    }
}

// What a text stands for that isn't cut, or the number of its fault.
fn parse_one(alloc: Global, language: Language, text: &str) -> Result<Result<Parsed, u8>, Memory>
    requires { length text.now < 2 ^ 32 }
    ensures verdict { IfOk result (λ read. JudgesForms language (text.now ∷ []) (result_err read)) }
    ensures parsed { IfOk result (λ read.
        IfOk read
        (λ parsed. parsed ≡ one_body (pieces_of (lenient_of language) text.now))) }
{
    match parse_form(alloc, language, text)? {
        Ok(pieces) => Ok(Ok(Parsed::One(pieces))),
        Err(number) => Ok(Err(number)),
    }
}

// What a text stands for that `|` may cut, or what is wrong with it.
fn parse_variants(
    alloc: Global,
    language: Language,
    text: &str,
) -> Result<Result<Parsed, u8>, Memory>
    requires { length text.now < 2 ^ 32 }
    ensures verdict { IfOk result
        (λ read. JudgesVariants language (variants text.now) (result_err read)) }
    ensures parsed { IfOk result (λ read.
        IfOk read
        (λ parsed. parsed ≡ cut_body (lenient_of language) (variants text.now))) }
{
    match count_bars(text) {
        0 => parse_one(alloc, language, text),
        1..=254 => match parse_forms(alloc, language, text)? {
            Ok(forms) => Ok(Ok(Parsed::Variants(forms))),
            Err(number) => Ok(Err(number)),
        },
        _ => Ok(Err(OVER_LIMIT)),
    }
}

// The pieces of the variants one after another, or the number of the first fault.
fn parse_forms(alloc: Global, language: Language, text: &str) -> Result<Result<Forms, u8>, Memory>
    requires { length text.now < 2 ^ 32 }
    ensures verdict { IfOk result
        (λ read. JudgesForms language (variants text.now) (result_err read)) }
    ensures forms { IfOk result (λ read.
        IfOk read
        (λ forms. forms_of (lenient_of language) (variants text.now) ≡ Some forms)) }
{
    let mut forms = Forms::new(alloc);
    let mut rest = text;
    'variants: while let Some((variant, after)) = cut_variant(rest) {
        let pieces = match parse_form(alloc, language, variant)? {
            Ok(pieces) => pieces,
            Err(number) => return Ok(Err(number)),
        };
        forms.push(pieces)?;
        rest = after;
    }
    let pieces = match parse_form(alloc, language, rest)? {
        Ok(pieces) => pieces,
        Err(number) => return Ok(Err(number)),
    };
    forms.push(pieces)?;
    Ok(Ok(forms))
}
