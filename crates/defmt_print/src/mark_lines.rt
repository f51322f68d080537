//! The line of a mark in a style.
ghost use Rattle.std.specs.Prelude.{◌≡◌, ◌++◌, length, OnOk};
ghost use Rattle.std.specs.FinMap as map;
ghost use Rattle.defmt_decode.specs.Sent.{code_of};
ghost use Rattle.defmt_encode.specs.Carry.{stamp_args};
ghost use Rattle.defmt_encode.specs.Placed.{place_in};
ghost use Rattle.defmt_print.specs.Groups.{whole_line};
ghost use Rattle.defmt_print.specs.Heard.{catalog_of, sent_of};
ghost use Rattle.defmt_print.specs.Parted.{parted_text, parts_by};
ghost use Rattle.defmt_print.specs.Printed.{IsPlaced, Prints};
ghost use Rattle.defmt_recording.specs.Output.{ended};
ghost use Rattle.defmt_recording.specs.Styled.{statement_text};
ghost use Rattle.defmt_script.specs.Lawful.{IsSound};
ghost use Rattle.defmt_words.specs.declared.style.Form.TheVariants.{Json};

use crate::statements::{put_stamp, stamp_in};
use defmt_decode::Parts;
use defmt_eager::{EagerFault, Front, parted_line, put_parted_line};
use defmt_encode::{MESSAGE_LIMIT, message};
use defmt_intern::{Profile, Table};
use defmt_logger::Mark;
use defmt_places::Places;
use defmt_recording::{add_statement, prints_index};
use defmt_script::{Script, stamps_fit};
use defmt_values::{Args, Statement};
use defmt_words::{Form, Style};
use dl_io::{Bytes, Memory};
use rzcobs_core::encode;
use std::alloc::Global;

// The most bytes of the code of a message.
const CODE_LIMIT: usize = 2_286;

/// Appends the line of a mark with this number and a newline, where its statement is shown, as that of a frame that was sent whole. The
/// room takes the line, where it isn't longer.
pub fn add_mark_line(
    alloc: Global,
    style: &Style,
    script: &Script,
    number: u32,
    mark: &Mark,
    room: &mut [u8],
    out: &mut Bytes,
) -> Result<(), Memory>
    requires { IsPlaced script.now mark.now }
    ensures { OnOk result (out.new.items ≡ out.old.items
        ++ whole_line style.now script.now number mark.now) }
{
    script.lawful();
    stamps_fit();
    let table = script.table();
    let Some(statement) = script.statement(mark.writer, mark.place) else {
        unreachable!();
    };
    if !prints_index(style, table, statement.index) {
        return Ok(());
    }
    let bytes = told_size(style.form, script, number, mark.stamp, statement);
    let carried = stamp_in(script, mark.stamp);
    add_parted(alloc, style, table, carried, statement, bytes, room, out)
}

// How many bytes the code of the message has that a statement has at a mark with this number and stamp.
fn piece_size(script: &Script, number: u32, stamp: u64, statement: &Statement) -> u32
    requires { IsSound script.now.table script.now.settings statement.now }
    ensures { result ≡ length (code_of (catalog_of script.now)
        (sent_of script.now number stamp statement.now)) }
{
    let mut buffer = [0u8; MESSAGE_LIMIT];
    let mut code = [0u8; CODE_LIMIT];
    let table = script.table();
    let place = place_of(script, number);
    let carried = stamp_in(script, stamp);
    match message(table, place, carried, statement, &mut buffer) {
        Ok(size) => encode(&buffer[..size], &mut code) as u32,
        Err(_) => unreachable!(),
    }
}

// The same where the form tells it, else 0.
fn told_size(form: Form, script: &Script, number: u32, stamp: u64, statement: &Statement) -> u32
    requires { IsSound script.now.table script.now.settings statement.now }
    ensures { form ≡ Json → result ≡ length (code_of (catalog_of script.now)
        (sent_of script.now number stamp statement.now)) }
{
    match form {
        Form::Json => piece_size(script, number, stamp, statement),
        Form::Plain | Form::Color => 0,
    }
}

// The place of the mark with this number.
fn place_of(script: &Script, number: u32) -> Option<u16>
    ensures { result ≡ place_in script.now.settings.profile number }
{
    match script.profile() {
        Profile::One => None,
        Profile::Two => Some((number % 65_536) as u16),
    }
}

// Appends the line of a statement with a stamp or none, whose piece has so many bytes, and a newline.
fn add_parted(
    alloc: Global,
    style: &Style,
    table: &Table,
    stamp: Option<u64>,
    statement: &Statement,
    bytes: u32,
    room: &mut [u8],
    out: &mut Bytes,
) -> Result<(), Memory>
    requires { Prints table.now.entries stamp statement.now }
    ensures { OnOk result (out.new.items ≡ out.old.items ++ ended
        (parted_text style.now table.now.entries bytes (stamp_args stamp) statement.now)) }
{
    match put_parted_line(table, stamp, statement, room, 0) {
        Some((front, end)) => {
            add_by_front(
                alloc,
                style,
                table,
                statement.index,
                bytes,
                front,
                &room[..end],
                out,
            )
        }
        None => add_any(alloc, style, table, stamp, statement, bytes, out),
    }
}

// The same of any line.
fn add_any(
    alloc: Global,
    style: &Style,
    table: &Table,
    stamp: Option<u64>,
    statement: &Statement,
    bytes: u32,
    out: &mut Bytes,
) -> Result<(), Memory>
    requires { Prints table.now.entries stamp statement.now }
    ensures { OnOk result (out.new.items ≡ out.old.items ++ ended
        (parted_text style.now table.now.entries bytes (stamp_args stamp) statement.now)) }
{
    let mut args = Args::new(alloc);
    put_stamp(stamp, &mut args)?;
    match parted_line(alloc, table, &args, statement) {
        Ok((front, text)) => {
            let line = text.as_str().as_bytes();
            add_by_front(
                alloc,
                style,
                table,
                statement.index,
                bytes,
                front,
                line,
                out,
            )
        }
        Err(EagerFault::Wide) => unreachable!(),
        Err(EagerFault::Memory) => Err(Memory),
    }
}

// Appends a line with this front, whose piece has so many bytes, and a newline.
fn add_by_front(
    alloc: Global,
    style: &Style,
    table: &Table,
    index: u16,
    bytes: u32,
    front: Front,
    text: &[u8],
    out: &mut Bytes,
) -> Result<(), Memory>
    ensures { OnOk result (out.new.items ≡ out.old.items ++ ended
        (statement_text style.now table.now.entries map.empty index (parts_by bytes front) text.now)) }
{
    let parts = Parts {
        bytes,
        stamp: front.stamp,
        front: front.size,
    };
    let places = Places::new(alloc);
    add_statement(style, table, &places, index, &parts, text, out)
}
