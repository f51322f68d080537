//! What the entries of a table give the reading of values.
ghost use Rattle.std.specs.Prelude.{◌≡◌};
ghost use Rattle.defmt_values.specs.Entries.{look};
ghost use Rattle.defmt_encode.specs.Read.{suited, interned_of, form_in, form_of, variant_of};
ghost use Rattle.defmt_encode.specs.Reads.{now_of, variant_now};

use crate::cause::Cause;
use crate::field::{byte, index};
use defmt_grammar::Pieces;
use defmt_intern::{Parsed, Table, Tag};
use defmt_values::{is_format, is_interned, look_up};

/// What an entry gives whose tag suits or doesn't.
pub fn suited(suits: bool, tag: &Tag) -> Result<(), Cause>
    ensures { result ≡ suited suits tag.now }
{
    if suits {
        return Ok(());
    }
    match tag {
        Tag::Other(_) => Err(Cause::Unsupported),
        _ => Err(Cause::Tag),
    }
}

pub(crate) fn interned(table: &Table, index: u16) -> Result<(), Cause>
    ensures { result ≡ interned_of (look table.now.entries index) }
{
    match look_up(table, index) {
        None => Err(Cause::NoEntry),
        Some((entry, _)) => suited(is_interned(&entry.tag), &entry.tag),
    }
}

fn form_in(body: &Parsed) -> Result<&Parsed, Cause>
    ensures { now_of result ≡ form_in body.now }
{
    match body {
        Parsed::One(_) | Parsed::Variants(_) => Ok(body),
        _ => Err(Cause::Unsupported),
    }
}

// What the entry of a Format value stands for.
pub(crate) fn form_for(table: &Table, index: u16) -> Result<&Parsed, Cause>
    ensures { now_of result ≡ form_of table.now.entries.language (look table.now.entries index) }
{
    let Some((entry, body)) = look_up(table, index) else {
        return Err(Cause::NoEntry);
    };
    suited(is_format(&entry.tag), &entry.tag)?;
    form_in(body)
}

// The variant, where the form has some, and its pieces.
pub(crate) fn variant_of<'a, 'b>(
    form: &'a Parsed,
    bytes: &'b [u8],
) -> Result<(Option<u8>, &'a Pieces, &'b [u8]), Cause>
    ensures { variant_now result ≡ variant_of form.now bytes.now }
{
    match form {
        Parsed::One(pieces) => Ok((None, pieces, bytes)),
        Parsed::Variants(forms) => {
            let (v, rest) = byte(bytes)?;
            match forms.as_slice().get(usize::from(v)) {
                Some(pieces) => Ok((Some(v), pieces, rest)),
                None => Err(Cause::BadVariant),
            }
        }
        _ => Err(Cause::BadVariant),
    }
}
