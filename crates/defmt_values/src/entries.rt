//! What the entries of a table give to values.
ghost use Rattle.std.specs.Prelude.{◌≡◌, None, Some, MatchOption};
ghost use Rattle.defmt_intern.specs.Body.{body_of};
ghost use Rattle.defmt_values.specs.Entries.{look, is_format, is_interned, is_logged};
ghost use Rattle.defmt_values.specs.Scan.{form_at, element_form, pick, own_form};
ghost use Rattle.defmt_values.specs.Now.{now_of};

use crate::cause::{NO_ENTRY, RANGE, UNSUPPORTED};
use defmt_grammar::Pieces;
use defmt_intern::{Entry, Parsed, Table, Tag};

/// The entry at an index, and what its text stands for. Takes no memory.
pub fn look_up(table: &Table, index: u16) -> Option<(&Entry, &Parsed)>
    ensures { MatchOption result (look table.now.entries index ≡ None)
        (λ p. (look table.now.entries index ≡ Some p.0.now) × (p.1.now ≡ body_of table.now.entries.language p.0.now)) }
{
    table.look(index)
}

/// Whether Format values may have an entry of this tag. Takes no memory.
pub fn is_format(tag: &Tag) -> bool
    ensures { result ≡ is_format tag.now }
{
    matches!(tag, Tag::Prim | Tag::Derived | Tag::Write)
}

/// Whether an entry of this tag is an interned string. Takes no memory.
pub fn is_interned(tag: &Tag) -> bool
    ensures { result ≡ is_interned tag.now }
{
    matches!(tag, Tag::Interned)
}

/// Whether messages may have an entry of this tag: it is a level's or println's. Takes no memory.
pub fn is_logged(tag: &Tag) -> bool
    ensures { result ≡ is_logged tag.now }
{
    matches!(
        tag,
        Tag::Trace | Tag::Debug | Tag::Info | Tag::Warn | Tag::Error | Tag::Println
    )
}

/// What the entry of a Format value stands for; 5 where there is none that suits, 8 where its text was refused.
/// Takes no memory.
pub fn form_of(table: &Table, index: u16) -> Result<&Parsed, u8>
    ensures { now_of result ≡ form_at table.now.entries index }
{
    let Some((entry, parsed)) = look_up(table, index) else {
        return Err(NO_ENTRY);
    };
    if !is_format(&entry.tag) {
        return Err(NO_ENTRY);
    }
    match parsed {
        Parsed::Unsupported => Err(UNSUPPORTED),
        _ => Ok(parsed),
    }
}

/// What the entry of an element of a sequence stands for, as that of a Format value; 5 also at the index 0, which ends a
/// sequence. Takes no memory.
pub fn element_form(table: &Table, index: u16) -> Result<&Parsed, u8>
    ensures { now_of result ≡ element_form table.now.entries index }
{
    if index == 0 {
        return Err(NO_ENTRY);
    }
    form_of(table, index)
}

/// The pieces of a form, or of one of its variants; 4 where there are none. Takes no memory.
pub fn pick(form: &Parsed, variant: Option<u8>) -> Result<&Pieces, u8>
    ensures { now_of result ≡ pick form.now variant }
{
    match (form, variant) {
        (Parsed::One(pieces), None) => Ok(pieces),
        (Parsed::Variants(forms), Some(v)) => match forms.as_slice().get(usize::from(v)) {
            Some(pieces) => Ok(pieces),
            None => Err(RANGE),
        },
        _ => Err(RANGE),
    }
}

/// The pieces of a statement's own entry, whatever its tag. The error is 5 where there is no entry or it is an
/// interned string, 8 where its text was refused, 4 where it is an enum. Takes no memory.
pub fn own_form(table: &Table, index: u16) -> Result<&Pieces, u8>
    ensures { now_of result
        ≡ own_form table.now.entries.language (look table.now.entries index) }
{
    match look_up(table, index) {
        None => Err(NO_ENTRY),
        Some((_, parsed)) => match parsed {
            Parsed::Unsupported => Err(UNSUPPORTED),
            Parsed::Raw => Err(NO_ENTRY),
            Parsed::One(pieces) => Ok(pieces),
            Parsed::Variants(_) => Err(RANGE),
        },
    }
}
