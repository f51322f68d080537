//! What a value's text begins with in a language.

ghost use Rattle.std.specs.Prelude.{◌≡◌, IfSome};
ghost use Rattle.std.specs.Str.{IsUtf8};
ghost use Rattle.defmt_grammar.specs.declared.language.Language.TheVariants.{Full as LanguageFull};
ghost use Rattle.defmt_shapes.specs.Leads.{view_heads, view_head, opens, float_lead, other_lead, IsLeadIn};

use crate::float::after_float;
use crate::head::{Head, Whole, base_head};
use crate::parts::{behind, stops_there};
use defmt_grammar::Language;

// A float that ends where a value may.
#[tactic(auto, unfolding(crate::specs::Leads::float_lead))]
fn float_head(text: &str) -> Option<(Head<'_>, &str)>
    ensures parts { view_heads result ≡ float_lead text.now }
    ensures utf8 { IfSome result (λ p. IsUtf8 p.1.now) }
{
    let Some(rest) = after_float(text) else {
        return None;
    };
    if !stops_there(rest) {
        return None;
    }
    let (float, rest) = text.split_at(text.len() - rest.len());
    Some((Head::Whole(Whole::Float(float)), rest))
}

// What the language Full has beside.
fn other_head(text: &str) -> Option<(Head<'_>, &str)>
    ensures parts { view_heads result ≡ other_lead text.now }
    ensures utf8 { IfSome result (λ p. IsUtf8 p.1.now) }
{
    match behind(text, '<') {
        Some(inside) => Some((Head::Nodes, inside)),
        None => float_head(text),
    }
}

// Whether values may stand behind it.
fn opens(head: Head<'_>) -> bool
    ensures { result ≡ opens (view_head head.entry) }
{
    matches!(head, Head::Call(_, _) | Head::Sequence(_) | Head::Nodes)
}

fn full_head(text: &str) -> Option<(Head<'_>, &str)>
    ensures parts { IsLeadIn LanguageFull text.now (view_heads result) }
    ensures utf8 { IfSome result (λ p. IsUtf8 p.1.now) }
{
    let Some((head, rest)) = base_head(text) else {
        return other_head(text);
    };
    if opens(head) || stops_there(rest) {
        Some((head, rest))
    } else {
        other_head(text)
    }
}

/// What the text begins with, and what follows it.
pub fn head_of(language: Language, text: &str) -> Option<(Head<'_>, &str)>
    ensures parts { IsLeadIn language text.now (view_heads result) }
    ensures utf8 { IfSome result (λ p. IsUtf8 p.1.now) }
{
    match language {
        Language::Base => base_head(text),
        Language::Full => full_head(text),
    }
}
