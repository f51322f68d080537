//! Objects of JSON.
ghost use Rattle.std.specs.Prelude.{◌≡◌, ◌<◌, ◌++◌, ◌∷◌, ◌^◌, [], ℕ, Option, List, codes, option_map, OnOk};
ghost use Rattle.std.specs.Fmt.{decimal};
ghost use Rattle.std.specs.Option.{option_copied};
ghost use Rattle.defmt_forms.specs.Json.{HasNoBreak, fault_object, front_object, gap_object, line_object, loss_front, loss_name, loss_object, optional_member, tail_object, text_member};
ghost use Rattle.defmt_forms.specs.Names.{level_name};
ghost use Rattle.defmt_hooks.specs.declared.level.Level.{Level as AnyLevel};
ghost use Rattle.json.specs.Print.{escape};

use crate::quoted::add_escaped;
use defmt_hooks::Level;
use dl_io::{Bytes, Memory};
use itoa::Buffer;

/// Each object is one line: it has no byte below the space, whatever its texts.
pub fn objects_are_lines()
    ensures line { (index bytes : ℕ) (stamp : Option (List ℕ)) (level : Option AnyLevel)
        (owner own : List ℕ) (place : Option (List ℕ)) → index < 2 ^ 64 → bytes < 2 ^ 64
        → HasNoBreak (line_object index bytes stamp level owner own place) }
    ensures fault { (cause : ℕ) (name : List ℕ) → cause < 2 ^ 64
        → HasNoBreak (fault_object cause name) }
    ensures front { (bytes : ℕ) → bytes < 2 ^ 64 → HasNoBreak (front_object bytes) }
    ensures tail { (bytes : ℕ) → bytes < 2 ^ 64 → HasNoBreak (tail_object bytes) }
    ensures gap { (frames : ℕ) → frames < 2 ^ 64 → HasNoBreak (gap_object frames) }
    ensures loss { (done : List ℕ) (writer statement need room : ℕ) → writer < 2 ^ 64
        → statement < 2 ^ 64 → need < 2 ^ 64 → room < 2 ^ 64
        → HasNoBreak (loss_object done writer statement need room) }
{}

/// Appends the object of a statement and a newline: its index, the bytes of its piece, its stamp, its level, its package, its own
/// text and its place in the sources.
#[tactic(auto, unfolding(json::specs::Print::escape_byte))]
pub fn add_json_line(
    index: u16,
    bytes: u32,
    stamp: Option<&[u8]>,
    level: Option<Level>,
    owner: &str,
    own: &[u8],
    place: Option<&str>,
    out: &mut Bytes,
) -> Result<(), Memory>
    ensures { OnOk result (out.new.items ≡ out.old.items
        ++ (line_object index bytes (option_copied stamp.entry) level owner.now own.now
        (option_copied place.entry) ++ 10 ∷ [])) }
{
    add_number(b"{\"event\":\"line\",\"index\":", u64::from(index), out)?;
    add_number(b",\"bytes\":", u64::from(bytes), out)?;
    add_stamp(stamp, out)?;
    add_level(level, out)?;
    add_text(b",\"package\":\"", owner.as_bytes(), out)?;
    add_text(b",\"data\":\"", own, out)?;
    add_place(place, out)?;
    out.extend_from_slice(b"}\n")
}

#[tactic(auto, unfolding(json::specs::Print::escape_byte))]
fn add_stamp(stamp: Option<&[u8]>, out: &mut Bytes) -> Result<(), Memory>
    ensures { OnOk result (out.new.items ≡ out.old.items
        ++ optional_member (codes "target_timestamp") (option_copied stamp.entry)) }
{
    match stamp {
        Some(stamp) => add_text(b",\"target_timestamp\":\"", stamp, out),
        None => Ok(()),
    }
}

/// Appends the member of a level, where there is one.
#[tactic(auto, unfolding(json::specs::Print::escape_byte))]
pub(crate) fn add_level(level: Option<Level>, out: &mut Bytes) -> Result<(), Memory>
    ensures { OnOk result (out.new.items ≡ out.old.items
        ++ optional_member (codes "level") (option_map level_name level)) }
{
    match level {
        Some(level) => out.extend_from_slice(level_member(level)),
        None => Ok(()),
    }
}

// The member of a level.
#[tactic(auto, unfolding(json::specs::Print::escape_byte))]
fn level_member(level: Level) -> &'static [u8]
    ensures { result.now ≡ text_member (codes "level") (level_name level) }
{
    match level {
        Level::Trace => b",\"level\":\"TRACE\"",
        Level::Debug => b",\"level\":\"DEBUG\"",
        Level::Info => b",\"level\":\"INFO\"",
        Level::Warn => b",\"level\":\"WARN\"",
        Level::Error => b",\"level\":\"ERROR\"",
    }
}

/// Appends the member of a place, where there is one.
#[tactic(auto, unfolding(json::specs::Print::escape_byte))]
pub(crate) fn add_place(place: Option<&str>, out: &mut Bytes) -> Result<(), Memory>
    ensures { OnOk result (out.new.items ≡ out.old.items
        ++ optional_member (codes "place") (option_copied place.entry)) }
{
    match place {
        Some(place) => add_text(b",\"place\":\"", place.as_bytes(), out),
        None => Ok(()),
    }
}

/// Appends the object of a piece that gives no line, and a newline.
#[tactic(auto, unfolding(json::specs::Print::escape_byte))]
pub fn add_json_fault(cause: u8, name: &str, out: &mut Bytes) -> Result<(), Memory>
    ensures { OnOk result (out.new.items
        ≡ out.old.items ++ (fault_object cause name.now ++ 10 ∷ [])) }
{
    add_number(b"{\"event\":\"fault\",\"cause\":", u64::from(cause), out)?;
    add_text(b",\"name\":\"", name.as_bytes(), out)?;
    out.extend_from_slice(b"}\n")
}

/// Appends the object of so many bytes that are cut off in front, and a newline.
#[tactic(auto, unfolding(json::specs::Print::escape_byte))]
pub fn add_json_front(bytes: u64, out: &mut Bytes) -> Result<(), Memory>
    ensures { OnOk result (out.new.items ≡ out.old.items ++ (front_object bytes ++ 10 ∷ [])) }
{
    add_number(b"{\"event\":\"front\",\"bytes\":", bytes, out)?;
    out.extend_from_slice(b"}\n")
}

/// Appends the object of so many bytes that are cut off at the end, and a newline.
#[tactic(auto, unfolding(json::specs::Print::escape_byte))]
pub fn add_json_tail(bytes: u64, out: &mut Bytes) -> Result<(), Memory>
    ensures { OnOk result (out.new.items ≡ out.old.items ++ (tail_object bytes ++ 10 ∷ [])) }
{
    add_number(b"{\"event\":\"tail\",\"bytes\":", bytes, out)?;
    out.extend_from_slice(b"}\n")
}

/// Appends the object of so many missing frames, and a newline.
#[tactic(auto, unfolding(json::specs::Print::escape_byte))]
pub fn add_json_gap(frames: u64, out: &mut Bytes) -> Result<(), Memory>
    ensures { OnOk result (out.new.items ≡ out.old.items ++ (gap_object frames ++ 10 ∷ [])) }
{
    add_number(b"{\"event\":\"gap\",\"frames\":", frames, out)?;
    out.extend_from_slice(b"}\n")
}

/// Appends the object of a frame that wasn't sent whole, and a newline: whether all of it was dropped or its end cut, whose statement
/// it is, and how many bytes it needed and there was room for.
#[tactic(auto, unfolding(json::specs::Print::escape_byte))]
pub fn add_json_loss(
    dropped: bool,
    writer: u8,
    statement: u32,
    need: u32,
    room: u32,
    out: &mut Bytes,
) -> Result<(), Memory>
    ensures { OnOk result (out.new.items ≡ out.old.items
        ++ (loss_object (loss_name dropped) writer statement need room ++ 10 ∷ [])) }
{
    add_number(loss_front(dropped), u64::from(writer), out)?;
    add_number(b",\"statement\":", u64::from(statement), out)?;
    add_number(b",\"need\":", u64::from(need), out)?;
    add_number(b",\"room\":", u64::from(room), out)?;
    out.extend_from_slice(b"}\n")
}

#[tactic(auto, unfolding(json::specs::Print::escape_byte))]
fn loss_front(dropped: bool) -> &'static [u8]
    ensures { result.now ≡ loss_front (loss_name dropped) }
{
    if dropped {
        b"{\"event\":\"dropped\",\"writer\":"
    } else {
        b"{\"event\":\"cut\",\"writer\":"
    }
}

/// Appends the front of a member, up to the quote in front of its text, and the text and a quote behind it.
pub(crate) fn add_text(front: &[u8], text: &[u8], out: &mut Bytes) -> Result<(), Memory>
    ensures { OnOk result (out.new.items
        ≡ out.old.items ++ (front.now ++ (escape text.now ++ 34 ∷ []))) }
{
    out.extend_from_slice(front)?;
    add_escaped(text, out)?;
    out.push(b'"')
}

/// Appends the front of a member and the number behind it.
pub(crate) fn add_number(front: &[u8], number: u64, out: &mut Bytes) -> Result<(), Memory>
    ensures { OnOk result (out.new.items ≡ out.old.items ++ (front.now ++ decimal number)) }
{
    let mut digits = Buffer::new();
    out.extend_from_slice(front)?;
    out.extend_from_slice(digits.format(number).as_bytes())
}
