//! Plain lines.
ghost use Rattle.std.specs.Prelude.{◌≡◌, ◌++◌, ◌∷◌, [], OnOk};
ghost use Rattle.std.specs.Option.{option_copied};
ghost use Rattle.defmt_forms.specs.Names.{place_part};

use dl_io::{Bytes, Memory};

/// Appends a line with its place in the sources, where one is known, and a newline.
pub fn add_plain_line(text: &[u8], place: Option<&str>, out: &mut Bytes) -> Result<(), Memory>
    ensures { OnOk result (out.new.items
        ≡ out.old.items ++ ((text.now ++ place_part (option_copied place.entry)) ++ 10 ∷ [])) }
{
    out.extend_from_slice(text)?;
    add_place(place, out)?;
    out.push(b'\n')
}

fn add_place(place: Option<&str>, out: &mut Bytes) -> Result<(), Memory>
    ensures { OnOk result (out.new.items ≡ out.old.items ++ place_part (option_copied place.entry)) }
{
    let Some(place) = place else {
        return Ok(());
    };
    out.extend_from_slice(b" (")?;
    out.extend_from_slice(place.as_bytes())?;
    out.push(b')')
}
