//! Templates are made.
ghost use Rattle.std.specs.Prelude.{◌≡◌, ◌≤◌, ◌++◌, ◌∷◌, [], codes, false, length, option_map, IfOk, IfSome, OnOk, if◌then◌else◌};
ghost use Rattle.std.specs.Fmt.{decimal};
ghost use Rattle.std.specs.Option.{option_copied};
ghost use Rattle.defmt_forms.specs.Json.{optional_member};
ghost use Rattle.defmt_forms.specs.Names.{level_name, place_part};
ghost use Rattle.defmt_forms.specs.Template.{AreBlocks, IsColor, IsJson, IsMade, IsPlain, IsSized, object_before, object_behind, object_head};
ghost use Rattle.defmt_forms.specs.Terminal.{level_part, tame};

use crate::color::{add_level as add_color_level, add_place as add_color_place};
use crate::objects::{add_level, add_number, add_place, add_text};
use crate::pieces::{Blocks, block_of};
use crate::plain::add_plain_line;
use crate::template::Template;
use defmt_hooks::Level;
use dl_io::{Bytes, Memory};
use std::alloc::Global;

// So many bytes a piece of a template has at most.
const LIMIT: usize = 8_192;

// So many in a block.
const BLOCK: usize = 64;

/// The template of plain lines with this place in the sources. There is none where it would be long.
pub fn plain_template(alloc: Global, place: Option<&str>) -> Result<Option<Template>, Memory>
    ensures { IfOk result (λ made. IfSome made (λ t.
        IsSized t × IsPlain t (option_copied place.entry))) }
{
    let mut behind = Bytes::new(alloc);
    add_plain_line(b"", place, &mut behind)?;
    let head = Bytes::new(alloc);
    let between = Bytes::new(alloc);
    let before = Bytes::new(alloc);
    Ok(of_pieces(false, head, between, before, behind))
}

/// The template of a statement's lines with colors, with stamps or without, with this level and this place. There is none where it would
/// be long.
pub fn color_template(
    alloc: Global,
    stamped: bool,
    level: Option<Level>,
    place: Option<&str>,
) -> Result<Option<Template>, Memory>
    ensures { IfOk result (λ made. IfSome made (λ t. IsSized t × (t.stamped ≡ stamped)
        × IsColor t stamped level (option_copied place.entry))) }
{
    let head = Bytes::new(alloc);
    let between = Bytes::new(alloc);
    let before = color_before(alloc, stamped, level)?;
    let behind = color_behind(alloc, place)?;
    Ok(of_pieces(stamped, head, between, before, behind))
}

fn color_before(alloc: Global, stamped: bool, level: Option<Level>) -> Result<Bytes, Memory>
    ensures { IfOk result (λ bytes. bytes.items
        ≡ (if stamped then codes " " else []) ++ level_part level) }
{
    let mut bytes = Bytes::new(alloc);
    add_if(stamped, b" ", &mut bytes)?;
    add_color_level(level, &mut bytes)?;
    Ok(bytes)
}

fn color_behind(alloc: Global, place: Option<&str>) -> Result<Bytes, Memory>
    ensures { IfOk result (λ bytes. bytes.items
        ≡ place_part (option_map tame (option_copied place.entry)) ++ 10 ∷ []) }
{
    let mut bytes = Bytes::new(alloc);
    add_color_place(place, &mut bytes)?;
    bytes.push(b'\n')?;
    Ok(bytes)
}

/// The template of a statement's objects, with stamps or without, with this index, this level, this package and this place. There is none
/// where it would be long.
pub fn json_template(
    alloc: Global,
    index: u16,
    stamped: bool,
    level: Option<Level>,
    owner: &str,
    place: Option<&str>,
) -> Result<Option<Template>, Memory>
    ensures { IfOk result (λ made. IfSome made (λ t. IsSized t × (t.stamped ≡ stamped)
        × IsJson t index stamped level owner.now (option_copied place.entry))) }
{
    let head = json_head(alloc, index)?;
    let between = json_between(alloc, stamped)?;
    let before = json_before(alloc, stamped, level, owner)?;
    let behind = json_behind(alloc, place)?;
    Ok(of_pieces(stamped, head, between, before, behind))
}

fn json_head(alloc: Global, index: u16) -> Result<Bytes, Memory>
    ensures { IfOk result (λ bytes. bytes.items ≡ object_head index) }
{
    let mut bytes = Bytes::new(alloc);
    add_number(
        b"{\"event\":\"line\",\"index\":",
        u64::from(index),
        &mut bytes,
    )?;
    bytes.extend_from_slice(b",\"bytes\":")?;
    Ok(bytes)
}

fn json_between(alloc: Global, stamped: bool) -> Result<Bytes, Memory>
    ensures { IfOk result (λ bytes. bytes.items
        ≡ (if stamped then codes ",\"target_timestamp\":\"" else [])) }
{
    let mut bytes = Bytes::new(alloc);
    add_if(stamped, b",\"target_timestamp\":\"", &mut bytes)?;
    Ok(bytes)
}

fn json_before(
    alloc: Global,
    stamped: bool,
    level: Option<Level>,
    owner: &str,
) -> Result<Bytes, Memory>
    ensures { IfOk result (λ bytes. bytes.items ≡ object_before stamped level owner.now) }
{
    let mut bytes = Bytes::new(alloc);
    add_if(stamped, b"\"", &mut bytes)?;
    add_level(level, &mut bytes)?;
    add_text(b",\"package\":\"", owner.as_bytes(), &mut bytes)?;
    bytes.extend_from_slice(b",\"data\":\"")?;
    Ok(bytes)
}

fn json_behind(alloc: Global, place: Option<&str>) -> Result<Bytes, Memory>
    ensures { IfOk result (λ bytes. bytes.items ≡ object_behind (option_copied place.entry)) }
{
    let mut bytes = Bytes::new(alloc);
    bytes.push(b'"')?;
    add_place(place, &mut bytes)?;
    bytes.extend_from_slice(b"}\n")?;
    Ok(bytes)
}

// Appends a text, where it is said so.
fn add_if(so: bool, text: &[u8], out: &mut Bytes) -> Result<(), Memory>
    ensures { OnOk result (out.new.items ≡ out.old.items ++ (if so then text.now else [])) }
{
    if so {
        out.extend_from_slice(text)
    } else {
        Ok(())
    }
}

// The template of these pieces. There is none where one is long.
fn of_pieces(
    stamped: bool,
    head: Bytes,
    between: Bytes,
    before: Bytes,
    behind: Bytes,
) -> Option<Template>
    ensures { IfSome result (λ t. IsSized t
        × IsMade t stamped head.items between.items before.items behind.items) }
{
    if is_long(&head) || is_long(&between) || is_long(&before) || is_long(&behind) {
        return None;
    }
    let size = head.len() + between.len() + before.len() + behind.len();
    let blocks = blocks_of(
        head.as_slice(),
        between.as_slice(),
        before.as_slice(),
        behind.as_slice(),
    );
    Some(Template {
        stamped,
        head,
        between,
        before,
        behind,
        size,
        blocks,
    })
}

// The pieces in blocks. There are none where a piece is longer than a block.
fn blocks_of(head: &[u8], between: &[u8], before: &[u8], behind: &[u8]) -> Option<Blocks>
    ensures { IfSome result (AreBlocks head.now between.now before.now behind.now) }
{
    if head.len() > BLOCK || between.len() > BLOCK || before.len() > BLOCK || behind.len() > BLOCK {
        return None;
    }
    Some(Blocks {
        head: block_of(head),
        between: block_of(between),
        before: block_of(before),
        behind: block_of(behind),
    })
}

fn is_long(piece: &Bytes) -> bool
    ensures { result ≡ false → length piece.now.items ≤ 8192 }
{
    piece.len() > LIMIT
}
