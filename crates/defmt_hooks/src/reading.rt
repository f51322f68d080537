//! The reading of rules.
ghost use Rattle.std.specs.Prelude.{◌≡◌, ◌<◌, ℕ, List, [], option_map, IfOk, IfSome, IsErrOf, Some};
ghost use Rattle.std.specs.Str.{IsUtf8};
ghost use Rattle.defmt_grammar.specs.Cut.{cut, parts_of};
ghost use Rattle.defmt_hooks.specs.declared.rules.Rules.{Rules as AnyRules};
ghost use Rattle.defmt_hooks.specs.Spelling.{Spells};
ghost use Rattle.defmt_hooks.specs.Reading.{floor_in, pair_in, pair_view, added, all_added, parts, rules_in, Leaves, Reads, GivesOnly};

use crate::fault::RuleFault;
use crate::floors::Floors;
use crate::level::{Floor, level_named};
use crate::rules::Rules;
use defmt_grammar::Text;
use std::alloc::Global;

// The most packages that rules may name.
const PACKAGES: usize = 32;

// What stands before and after the first `at`.
fn cut(text: &str, at: char) -> Option<(&str, &str)>
    requires { at < 128 }
    ensures parts { parts_of result ≡ cut at text.now }
    ensures utf8 { IfSome result (λ parts. IsUtf8 parts.1.now) }
{
    text.split_once(at)
}

// The floor that a word names.
#[tactic(auto, unfolding(crate::specs::Reading::floor_in))]
fn floor_of(word: &str) -> Option<Floor>
    ensures { result ≡ floor_in word.now }
{
    match level_named(word) {
        Some(level) => Some(Floor::At(level)),
        None if word == "off" => Some(Floor::Off),
        None => None,
    }
}

// The package and the floor that a text spells.
fn pair_of(part: &str) -> Option<(&str, Floor)>
    ensures { option_map pair_view result ≡ pair_in part.now }
{
    let (name, word) = cut(part, '=')?;
    if name.is_empty() {
        return None;
    }
    let floor = floor_of(word)?;
    Some((name, floor))
}

// Appends the package and the floor that a text spells.
#[tactic(auto, unfolding(crate::specs::Reading::added))]
fn add(alloc: Global, floors: &mut Floors, part: &str) -> Result<(), RuleFault>
    ensures { Leaves (added floors.old part.now) result floors.new }
{
    let Some((name, floor)) = pair_of(part) else {
        return Err(RuleFault::Spelling);
    };
    if floors.len() >= PACKAGES || floors.contains(name) {
        return Err(RuleFault::Spelling);
    }
    let mut package = Text::new(alloc);
    package.push_str(name)?;
    floors.push((package, floor))?;
    Ok(())
}

// The packages and their floors that a text spells, parted by commas.
fn floors_of(alloc: Global, text: &str) -> Result<Floors, RuleFault>
    ensures { Reads (all_added [] (parts text.now)) result }
{
    let mut floors = Floors::new(alloc);
    let mut rest = text;
    'parts: while let Some((part, after)) = cut(rest, ',') {
        add(alloc, &mut floors, part)?;
        rest = after;
    }
    add(alloc, &mut floors, rest)?;
    Ok(floors)
}

// The rules that a text spells.
#[tactic(auto, unfolding(crate::specs::Reading::rules_in))]
fn rules_of(alloc: Global, text: &str) -> Result<Rules, RuleFault>
    ensures { Reads (rules_in text.now) result }
{
    match cut(text, ',') {
        None => match floor_of(text) {
            Some(rest) => Ok(Rules {
                rest,
                packages: Floors::new(alloc),
            }),
            None => Err(RuleFault::Spelling),
        },
        Some((word, more)) => match floor_of(word) {
            Some(rest) => {
                let packages = floors_of(alloc, more)?;
                Ok(Rules { rest, packages })
            }
            None => Err(RuleFault::Spelling),
        },
    }
}

/// The rules that a whole text spells: a floor, then up to 32 times a comma, a package, an equals sign and a floor. A floor
/// is `trace`, `debug`, `info`, `warn`, `error` or `off`. A package is one or more characters without a comma and an equals
/// sign, and no package occurs twice.
///
/// # Errors
/// `RuleFault::Spelling` where the text isn't spelled so, and `RuleFault::Memory` where memory runs out.
pub fn read_rules(alloc: Global, text: &str) -> Result<Rules, RuleFault>
    // Rules are answered only where the text spells them, and it is refused only where it spells none.
    ensures spelled { IfOk result (λ rules. Spells text.now rules) }
    ensures refused { IsErrOf result RuleFault.Spelling → (rules : AnyRules)
        → ¬ Spells text.now rules }
    // Unless memory runs out, what the text spells is answered.
    ensures answered { (rules : AnyRules) → Spells text.now rules → GivesOnly result rules }
    // The same by the function `rules_in`, which definitions that cite rules are stated with.
    ensures read { Reads (rules_in text.now) result }
{
    rules_of(alloc, text)
}

/// The function `rules_in` gives rules exactly where the text spells them.
pub fn rules_are_spelled()
    ensures found { (text : List ℕ) (rules : AnyRules) → rules_in text ≡ Some rules
        → Spells text rules }
    ensures again { (text : List ℕ) (rules : AnyRules) → Spells text rules
        → rules_in text ≡ Some rules }
{}

/// A text spells at most one set of rules.
pub fn one_spelling()
    ensures { (text : List ℕ) (a b : AnyRules) → Spells text a → Spells text b → a ≡ b }
{}
