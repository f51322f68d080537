//! Lines are made by their templates where their texts stand.
ghost use Rattle.std.specs.Prelude.{◌≡◌, ◌≤◌, ◌+◌, ◌<◌, true, length, take, drop, IfNone, IfSome};
ghost use Rattle.std.specs.List.{list_all};
ghost use Rattle.defmt_forms.specs.Placed.{Placed};
ghost use Rattle.defmt_forms.specs.Tamed.{is_bare, is_quiet};
ghost use Rattle.defmt_forms.specs.Template.{AreBlocks, IsSized, color_by, json_by, plain_by};

use crate::escaping::put_escaped_front;
use crate::looks::{are_bare, are_printable, is_each_quiet};
use crate::pieces::{Blocks, block_at, put_digits, put_end, put_front, put_piece};
use crate::template::Template;

// A statement's own text or a stamp of more bytes isn't moved.
const MOVED: usize = 32;

// A line in place has at most so many bytes more than its text, with the blocks.
const ROOM: usize = 1_024;

/// Makes a plain line of a text of so many bytes that stands behind a place of a buffer, there, and answers where it ends. `None` comes
/// where that isn't cheap, and then the buffer is as before.
#[inline(always)]
pub fn place_plain(template: &Template, text: &mut [u8], at: usize, size: usize) -> Option<usize>
    requires sized { IsSized template.now }
    requires within { at + size ≤ length text.old }
    ensures some { IfSome result (λ end. Placed text.old at text.new end
        (plain_by template.now (take size (drop at text.old)))) }
    ensures none { IfNone result (text.new ≡ text.old) }
{
    let Some(blocks) = &template.blocks else {
        return None;
    };
    if text.len() - at - size < ROOM {
        return None;
    }
    Some(put_end(text, at + size, &template.behind, &blocks.behind))
}

/// The same with colors, where so many bytes are the stamp's, and the statement's own text begins behind so many.
#[inline(always)]
pub fn place_color(
    template: &Template,
    text: &mut [u8],
    at: usize,
    size: usize,
    stamp: usize,
    front: usize,
) -> Option<usize>
    requires sized { IsSized template.now }
    requires within { at + size ≤ length text.old }
    ensures some { IfSome result (λ end. Placed text.old at text.new end
        (color_by template.now (take stamp (take size (drop at text.old)))
        (drop front (take size (drop at text.old))))) }
    ensures none { IfNone result (text.new ≡ text.old) }
{
    let Some(blocks) = &template.blocks else {
        return None;
    };
    if !has_room(text, at, size, stamp, front) {
        return None;
    }
    if are_printable(&text[at..at + size]) {
        return Some(put_color(template, blocks, text, at, size, stamp, front));
    }
    place_quiet(template, blocks, text, at, size, stamp, front)
}

// The same of a text that isn't short characters of ASCII alone.
#[inline(never)]
fn place_quiet(
    template: &Template,
    blocks: &Blocks,
    text: &mut [u8],
    at: usize,
    size: usize,
    stamp: usize,
    front: usize,
) -> Option<usize>
    requires blocks { AreBlocks template.now.head.items template.now.between.items
        template.now.before.items template.now.behind.items blocks.now }
    requires parts { (stamp ≤ size) × (front ≤ size) × (size ≤ front + 32) }
    requires room { at + size + 1024 ≤ length text.old }
    ensures some { IfSome result (λ end. Placed text.old at text.new end
        (color_by template.now (take stamp (take size (drop at text.old)))
        (drop front (take size (drop at text.old))))) }
    ensures none { IfNone result (text.new ≡ text.old) }
{
    if !is_each_quiet(&text[at..at + size]) {
        return None;
    }
    Some(put_color(template, blocks, text, at, size, stamp, front))
}

// Makes a line with colors of a text that is the same for a terminal, and answers where it ends.
#[inline(always)]
fn put_color(
    template: &Template,
    blocks: &Blocks,
    text: &mut [u8],
    at: usize,
    size: usize,
    stamp: usize,
    front: usize,
) -> usize
    requires blocks { AreBlocks template.now.head.items template.now.between.items
        template.now.before.items template.now.behind.items blocks.now }
    requires parts { (stamp ≤ size) × (front ≤ size) × (size ≤ front + 32) }
    requires room { at + size + 1024 ≤ length text.old }
    requires quiet { list_all is_quiet (take size (drop at text.old)) ≡ true }
    ensures { Placed text.old at text.new result
        (color_by template.now (take stamp (take size (drop at text.old)))
        (drop front (take size (drop at text.old)))) }
{
    let own = block_at(text, at + front);
    let end = put_piece(text, at + stamp, &template.before, &blocks.before);
    let end = put_front(text, end, &own, size - front);
    put_end(text, end, &template.behind, &blocks.behind)
}

/// The same of an object with the number of the bytes of its piece.
#[inline(never)]
pub fn place_json(
    template: &Template,
    bytes: u32,
    text: &mut [u8],
    at: usize,
    size: usize,
    stamp: usize,
    front: usize,
) -> Option<usize>
    requires sized { IsSized template.now }
    requires within { at + size ≤ length text.old }
    ensures some { IfSome result (λ end. Placed text.old at text.new end
        (json_by template.now bytes (take stamp (take size (drop at text.old)))
        (drop front (take size (drop at text.old))))) }
    ensures none { IfNone result (text.new ≡ text.old) }
{
    let Some(blocks) = &template.blocks else {
        return None;
    };
    if bytes >= 100 || stamp > MOVED || !has_room(text, at, size, stamp, front) {
        return None;
    }
    if are_bare(&text[at..at + size]) {
        return Some(put_json(template, blocks, bytes, text, at, size, stamp, front));
    }
    Some(put_escaped_json(template, blocks, bytes, text, at, size, stamp, front))
}

// Makes an object of a text that needs no escape, and answers where it ends.
#[inline(always)]
fn put_json(
    template: &Template,
    blocks: &Blocks,
    bytes: u32,
    text: &mut [u8],
    at: usize,
    size: usize,
    stamp: usize,
    front: usize,
) -> usize
    requires blocks { AreBlocks template.now.head.items template.now.between.items
        template.now.before.items template.now.behind.items blocks.now }
    requires few { (bytes < 100) × (stamp ≤ 32) }
    requires parts { (stamp ≤ size) × (front ≤ size) × (size ≤ front + 32) }
    requires room { at + size + 1024 ≤ length text.old }
    requires bare { list_all is_bare (take size (drop at text.old)) ≡ true }
    ensures { Placed text.old at text.new result
        (json_by template.now bytes (take stamp (take size (drop at text.old)))
        (drop front (take size (drop at text.old)))) }
{
    let shown = block_at(text, at);
    let own = block_at(text, at + front);
    let end = put_piece(text, at, &template.head, &blocks.head);
    let end = put_digits(text, end, bytes);
    let end = put_piece(text, end, &template.between, &blocks.between);
    let end = put_front(text, end, &shown, stamp);
    let end = put_piece(text, end, &template.before, &blocks.before);
    let end = put_front(text, end, &own, size - front);
    put_piece(text, end, &template.behind, &blocks.behind)
}

// The same of any text.
#[inline(never)]
fn put_escaped_json(
    template: &Template,
    blocks: &Blocks,
    bytes: u32,
    text: &mut [u8],
    at: usize,
    size: usize,
    stamp: usize,
    front: usize,
) -> usize
    requires blocks { AreBlocks template.now.head.items template.now.between.items
        template.now.before.items template.now.behind.items blocks.now }
    requires few { (bytes < 100) × (stamp ≤ 32) }
    requires parts { (stamp ≤ size) × (front ≤ size) × (size ≤ front + 32) }
    requires room { at + size + 1024 ≤ length text.old }
    ensures { Placed text.old at text.new result
        (json_by template.now bytes (take stamp (take size (drop at text.old)))
        (drop front (take size (drop at text.old)))) }
{
    let shown = block_at(text, at);
    let own = block_at(text, at + front);
    let end = put_piece(text, at, &template.head, &blocks.head);
    let end = put_digits(text, end, bytes);
    let end = put_piece(text, end, &template.between, &blocks.between);
    let end = put_escaped_front(text, end, &shown, stamp);
    let end = put_piece(text, end, &template.before, &blocks.before);
    let end = put_escaped_front(text, end, &own, size - front);
    put_piece(text, end, &template.behind, &blocks.behind)
}

// Whether a text has these parts, of which the own text is short, and room behind it.
#[inline(always)]
fn has_room(text: &[u8], at: usize, size: usize, stamp: usize, front: usize) -> bool
    requires { at + size ≤ length text.now }
    ensures parts { result ≡ true → (stamp ≤ size) × (front ≤ size) × (size ≤ front + 32) }
    ensures room { result ≡ true → at + size + 1024 ≤ length text.now }
{
    stamp <= size && front <= size && size - front <= MOVED && text.len() - at - size >= ROOM
}
