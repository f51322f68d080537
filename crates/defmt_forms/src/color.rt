//! Lines with colors.
ghost use Rattle.std.specs.Prelude.{◌≡◌, ◌++◌, ◌∷◌, [], codes, option_map, OnOk};
ghost use Rattle.std.specs.Option.{option_copied};
ghost use Rattle.defmt_forms.specs.Names.{level_gap, place_part};
ghost use Rattle.defmt_forms.specs.Terminal.{alarm, color_line, level_color, level_part, painted, stamp_part, tame, warning};

use crate::names::level_name;
use crate::tame::add_tame;
use defmt_hooks::Level;
use dl_io::{Bytes, Memory};

/// Appends the line of a statement by its stamp, its level, its own text and its place in the sources, and a newline.
pub fn add_color_line(
    stamp: Option<&[u8]>,
    level: Option<Level>,
    own: &[u8],
    place: Option<&str>,
    out: &mut Bytes,
) -> Result<(), Memory>
    ensures { OnOk result (out.new.items ≡ out.old.items
        ++ (color_line (option_copied stamp.entry) level own.now (option_copied place.entry) ++ 10 ∷ [])) }
{
    add_stamp(stamp, out)?;
    add_level(level, out)?;
    add_tame(own, out)?;
    add_place(place, out)?;
    out.push(b'\n')
}

fn add_stamp(stamp: Option<&[u8]>, out: &mut Bytes) -> Result<(), Memory>
    ensures { OnOk result (out.new.items ≡ out.old.items ++ stamp_part (option_copied stamp.entry)) }
{
    let Some(stamp) = stamp else {
        return Ok(());
    };
    add_tame(stamp, out)?;
    out.push(b' ')
}

/// Appends the name of a level in its color, and the spaces behind it.
pub(crate) fn add_level(level: Option<Level>, out: &mut Bytes) -> Result<(), Memory>
    ensures { OnOk result (out.new.items ≡ out.old.items ++ level_part level) }
{
    match level {
        Some(level) => out.extend_from_slice(level_text(level)),
        None => Ok(()),
    }
}

// The name of a level in its color, and the spaces behind it.
fn level_text(level: Level) -> &'static [u8]
    ensures { result.now ≡ level_part (Some level) }
{
    match level {
        Level::Trace => b"\x1b[2mTRACE\x1b[0m ",
        Level::Debug => b"\x1b[36mDEBUG\x1b[0m ",
        Level::Info => b"\x1b[32mINFO\x1b[0m  ",
        Level::Warn => b"\x1b[33mWARN\x1b[0m  ",
        Level::Error => b"\x1b[31mERROR\x1b[0m ",
    }
}

/// Appends the place of a line, where it has one.
pub(crate) fn add_place(place: Option<&str>, out: &mut Bytes) -> Result<(), Memory>
    ensures { OnOk result (out.new.items
        ≡ out.old.items ++ place_part (option_map tame (option_copied place.entry))) }
{
    let Some(place) = place else {
        return Ok(());
    };
    out.extend_from_slice(b" (")?;
    add_tame(place.as_bytes(), out)?;
    out.push(b')')
}

/// Appends the line of what is no statement, in red, and a newline.
pub fn add_alarm(text: &[u8], out: &mut Bytes) -> Result<(), Memory>
    ensures { OnOk result (out.new.items ≡ out.old.items ++ (alarm text.now ++ 10 ∷ [])) }
{
    add_painted(b"\x1b[31m", text, out)
}

/// Appends the line of what tells of missing frames, in yellow, and a newline.
pub fn add_warning(text: &[u8], out: &mut Bytes) -> Result<(), Memory>
    ensures { OnOk result (out.new.items ≡ out.old.items ++ (warning text.now ++ 10 ∷ [])) }
{
    add_painted(b"\x1b[33m", text, out)
}

// Appends a text between the start of a color and its end, and a newline.
fn add_painted(color: &[u8], text: &[u8], out: &mut Bytes) -> Result<(), Memory>
    ensures { OnOk result (out.new.items
        ≡ out.old.items ++ (color.now ++ (text.now ++ 27 ∷ codes "[0m\n"))) }
{
    out.extend_from_slice(color)?;
    out.extend_from_slice(text)?;
    out.extend_from_slice(b"\x1b[0m\n")
}
