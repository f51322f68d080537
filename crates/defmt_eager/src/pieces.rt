//! The pieces of texts, as the table has them, and what acts on them and stands between them.
ghost use Rattle.std.specs.Prelude.{◌≡◌};
ghost use Rattle.std.specs.Str.{IsUtf8};
ghost use Rattle.defmt_eager.specs.Answers.{comma};
ghost use Rattle.defmt_eager.specs.Show.{interned_text, node_pieces, pieces_in, own_pieces, acting};
ghost use Rattle.defmt_values.specs.Entries.{look};
ghost use Rattle.defmt_values.specs.Scan.{own_in};

use defmt_grammar::{Hint, Piece};
use defmt_intern::{Parsed, Table};
use defmt_values::{form_of, look_up, pick};

// The text of an interned string, none where there is none.
pub(crate) fn interned_text(table: &Table, index: u16) -> &str
    ensures text { result.now ≡ interned_text (look table.now.entries index) }
    ensures utf8 { IsUtf8 result.now }
{
    match look_up(table, index) {
        None => "",
        Some((entry, _)) => entry.text.as_str(),
    }
}

// The pieces of the text of a Format value: those of its entry or of its variant, none where none fit.
pub(crate) fn node_pieces(table: &Table, index: u16, variant: Option<u8>) -> &[Piece]
    ensures { result.now ≡ node_pieces table.now.entries index variant }
{
    match form_of(table, index) {
        Err(_) => &[],
        Ok(form) => match pick(form, variant) {
            Err(_) => &[],
            Ok(pieces) => pieces.as_slice(),
        },
    }
}

// The pieces of what a statement's entry stands for.
pub(crate) fn pieces_of(body: &Parsed) -> &[Piece]
    ensures { result.now ≡ pieces_in (own_in body.now) }
{
    match body {
        Parsed::One(pieces) => pieces.as_slice(),
        _ => &[],
    }
}

// The pieces of the text of a statement.
pub(crate) fn own_pieces(table: &Table, index: u16) -> &[Piece]
    ensures { result.now ≡ own_pieces table.now.entries index }
{
    match look_up(table, index) {
        None => &[],
        Some((_, body)) => pieces_of(body),
    }
}

/// The hint that acts on a parameter, from the one that acts round it and its own.
pub fn acting(outer: Hint, own: Hint) -> Hint
    ensures { result ≡ acting outer own }
{
    match own {
        Hint::Plain => outer,
        _ => own,
    }
}

/// What parts an element of a list from the one before it.
pub fn comma(first: bool) -> &'static str
    ensures { result.now ≡ comma first }
{
    if first { "" } else { ", " }
}
