//! The frames of statements.
ghost use Rattle.std.specs.Prelude.{◌≡◌, ◌<◌, ◌≤◌, length, take};
ghost use Rattle.defmt_encode.specs.Carry.{frame_of, message_of, stamp_args};
ghost use Rattle.defmt_encode.specs.Placed.{HasPlace, place_in};
ghost use Rattle.defmt_frames.specs.Frames.{count, frame_at};
ghost use Rattle.defmt_script.specs.Lawful.{stamp_in};
ghost use Rattle.defmt_frames.specs.Sites.{HasSites, Writes};

use crate::sites::Sites;
use defmt_encode::frame;
use defmt_intern::{Profile, Table};
use defmt_macros::{Site, log};
use defmt_script::Script;
use defmt_values::Args;

/// How many bytes the frame of a message has at most.
pub const FRAME_SIZE: usize = 2288;

// Marks carry their numbers modulo this one.
const PLACES: u32 = 65_536;

// Logs values by the macro of their site's tag, writes the frame of the message to the front of a buffer, and answers how
// many bytes it has. The other buffer is for the message.
fn write_values(
    table: &Table,
    site: &Site,
    place: Option<u16>,
    stamp: Option<u64>,
    args: &Args,
    message_out: &mut [u8],
    frame_out: &mut [u8],
) -> usize
    requires buffers { (length message_out.old ≡ 2000) × (length frame_out.old ≡ 2288) }
    requires place { HasPlace table.now.profile place }
    requires writes { Writes table.now.entries site.now place stamp args.now }
    ensures frame { take result frame_out.new
        ≡ frame_of (message_of table.now.entries place (stamp_args stamp) site.now.index args.now) }
    ensures some { 0 < result }
    ensures size { result ≤ 2288 }
{
    let count = log(message_out, table, site, place, stamp, args);
    frame(&message_out[..count], frame_out)
}

// The place that the message of the mark with this number carries: none in profile One.
fn carried_place(script: &Script, number: u32) -> Option<u16>
    ensures { result ≡ place_in script.now.settings.profile number }
{
    match script.profile() {
        Profile::One => None,
        Profile::Two => Some((number % PLACES) as u16),
    }
}

// The stamp that a message carries: none where the script has no stamps.
fn carried_stamp(script: &Script, stamp: u64) -> Option<u64>
    ensures { result ≡ stamp_in script.now.settings.stamp stamp }
{
    match script.stamp() {
        Some(_) => Some(stamp),
        None => None,
    }
}

/// Logs a writer's statement by the macro of its string's tag, writes its frame to the front of `frame_out`, and answers how
/// many bytes the frame has. `number` is that of the statement's mark on the tape. The message carries it modulo 65,536 in
/// profile Two, and the stamp where the script has stamps, and is put into `message_out` first. The sites are those of the
/// script, and the buffers have 2,000 and 2,288 bytes. Takes no memory.
pub fn write_frame(
    script: &Script,
    sites: &Sites,
    number: u32,
    writer: u8,
    place: u32,
    stamp: u64,
    message_out: &mut [u8],
    frame_out: &mut [u8],
) -> usize
    requires sites { HasSites script.now sites.now }
    requires place { place < count script.now writer }
    requires buffers { (length message_out.old ≡ 2000) × (length frame_out.old ≡ 2288) }
    ensures frame { take result frame_out.new ≡ frame_at script.now number writer place stamp }
    ensures some { 0 < result }
    ensures size { result ≤ 2288 }
{
    script.lawful();
    let Some(statement) = script.statement(writer, place) else {
        unreachable!()
    };
    let Some(site) = sites.get(statement.index) else {
        unreachable!()
    };
    let counted = carried_place(script, number);
    let carried = carried_stamp(script, stamp);
    write_values(
        script.table(),
        site,
        counted,
        carried,
        &statement.args,
        message_out,
        frame_out,
    )
}
