//! The desk.
ghost use Rattle.std.specs.Prelude.{◌≡◌, ◌^◌, ◌<◌, [], ◌∷◌, ◌++◌, IfOk, length};
ghost use Rattle.defmt_frames.specs.Frames.{count, frame_at, pace_of, stamp_number};
ghost use Rattle.defmt_frames.specs.Sites.{HasSites};
ghost use Rattle.defmt_logger.specs.Kept.{IsKept, SendsIn, TellsIn, next_mark};
ghost use Rattle.defmt_logger.specs.Tape.{marks_of};
ghost use Rattle.rtt_ring.specs.Views.{new_up};

use crate::mark::Mark;
use crate::tape::Tape;
use defmt_encode::MESSAGE_LIMIT;
use defmt_frames::{FRAME_SIZE, Sites, write_frame};
use defmt_hooks::{Clock, Stamp};
use defmt_script::{RingMode, Script};
use dl_io::Memory;
use rtt_modes::{Fate, Relief, block, skip, trim};
use rtt_ring::UpEnd;
use std::alloc::Global;
use std::marker::Model;
use std::sync::Wait;

// How many statements a script has at most.
const STATEMENTS: usize = 4096;

/// A script, the sites of its strings, the tape of those of its statements that were logged, and the end of a ring that
/// their frames go to.
///
/// Between two calls the tape is lawful and that of the end, what was sent is its stream, and nothing is staged.
#[derive(Drop)]
pub struct Desk<U: UpEnd, C: Clock> {
    script: Script,
    sites: Sites,
    tape: Tape,
    places: [u32; 8],
    stamp: Stamp<C>,
    message: Vec<u8>,
    frame: Vec<u8>,
    up: U,
}

impl<U: UpEnd, C: Clock> Model for Desk<U, C> {
    ghost use Rattle.defmt_logger.specs.Kept.{IsWorking, Sheet};
    ghost use Rattle.defmt_logger.specs.Codes.{coded_sheet};

    ghost Value = { Sheet };

    ghost coded = { coded_sheet };

    ghost view = { λ d. record { script = d.script; tape = d.tape; up = U.view d.up } };

    ghost invariant = { λ d. IsWorking
        (record { script = d.script; tape = d.tape; up = U.view d.up })
        d.sites d.places d.stamp d.message.items d.frame.items };
}

// Sends a frame in a mode. It waits in blocking mode alone.
fn send<U: UpEnd, R: Relief, W: Wait>(
    rt: &W,
    up: &mut U,
    mode: RingMode,
    frame: &[u8],
    relief: &mut R,
) -> Fate
    requires staged { (U.view up.old).staged ≡ [] }
    requires frame { (0 < length frame.now) × (length frame.now < 2 ^ 32) }
    requires relief { R.kept relief.old }
    ensures sent { SendsIn mode (U.view up.old) (U.view up.new) frame.now result }
    ensures relief { R.kept relief.new }
{
    match mode {
        RingMode::Block => {
            block(rt, up, frame, relief);
            Fate::Whole
        }
        RingMode::Skip => skip(up, frame),
        RingMode::Trim => trim(up, frame),
    }
}

// Sends the frame of a writer's statement in the script's mode, for the mark with this number. The buffers are for its
// message and its frame.
fn send_statement<U: UpEnd, R: Relief, W: Wait>(
    rt: &W,
    up: &mut U,
    script: &Script,
    sites: &Sites,
    number: u32,
    writer: u8,
    place: u32,
    stamp: u64,
    message: &mut [u8],
    frame: &mut [u8],
    relief: &mut R,
) -> Fate
    requires staged { (U.view up.old).staged ≡ [] }
    requires sites { HasSites script.now sites.now }
    requires place { place < count script.now writer }
    requires buffers { (length message.old ≡ 2000) × (length frame.old ≡ 2288) }
    requires relief { R.kept relief.old }
    ensures sent { SendsIn script.now.settings.mode (U.view up.old) (U.view up.new)
        (frame_at script.now number writer place stamp) result }
    ensures relief { R.kept relief.new }
{
    let size = write_frame(script, sites, number, writer, place, stamp, message, frame);
    send(rt, up, script.mode(), &frame[..size], relief)
}

// What a desk of a script has of its own before anything is logged.
struct Prepared {
    sites: Sites,
    tape: Tape,
    message: Vec<u8>,
    frame: Vec<u8>,
}

// So many zeros.
fn zeros(alloc: Global, count: usize) -> Result<Vec<u8>, Memory>
    ensures { IfOk result (λ bytes. length bytes.items ≡ count) }
{
    Ok(vec![in alloc; 0u8; count]?)
}

// A tape for an end, with room for all statements that a script can have.
fn blank_tape<U: UpEnd>(alloc: Global, up: &U) -> Result<Tape, Memory>
    ensures marks { IfOk result (λ tape. tape.marks ≡ []) }
    ensures room { IfOk result (λ tape. tape.room ≡ 4096) }
    ensures end { IfOk result (λ tape. (tape.split ≡ (U.view up.now).split)
        × (tape.looks ≡ (U.view up.now).looks) × (tape.found ≡ [])) }
{
    let mut tape = Tape::of(alloc, up);
    tape.reserve(STATEMENTS)?;
    Ok(tape)
}

// The sites of a script's strings, a tape for an end, and the buffers for a message and a frame.
fn prepare<U: UpEnd>(alloc: Global, script: &Script, up: &U) -> Result<Prepared, Memory>
    ensures sites { IfOk result (λ p. HasSites script.now p.sites) }
    ensures marks { IfOk result (λ p. p.tape.marks ≡ []) }
    ensures room { IfOk result (λ p. p.tape.room ≡ 4096) }
    ensures end { IfOk result (λ p. (p.tape.split ≡ (U.view up.now).split)
        × (p.tape.looks ≡ (U.view up.now).looks) × (p.tape.found ≡ [])) }
    ensures message { IfOk result (λ p. length p.message.items ≡ 2000) }
    ensures frame { IfOk result (λ p. length p.frame.items ≡ 2288) }
{
    let message = zeros(alloc, MESSAGE_LIMIT)?;
    let frame = zeros(alloc, FRAME_SIZE)?;
    let tape = blank_tape(alloc, up)?;
    let sites = Sites::of(alloc, script)?;
    Ok(Prepared {
        sites,
        tape,
        message,
        frame,
    })
}

impl<U: UpEnd, C: Clock> Desk<U, C> {
    /// Logs the next statement of a writer that has one left, by the macro of its string's tag: its frame goes to the ring
    /// in the script's mode, and a mark on the tape. Waits in blocking mode alone, for the reader. Takes no memory.
    pub fn append<R: Relief, W: Wait>(&mut self, rt: &W, writer: u8, relief: &mut R) -> Fate
        requires place { marks_of writer self.old.tape.marks < count self.old.script writer }
        requires relief { R.kept relief.old }
        ensures mark { self.new.tape.marks ≡ self.old.tape.marks
            ++ next_mark self.old.script self.old.tape.marks writer result ∷ [] }
        ensures sent { SendsIn self.old.script.settings.mode self.old.up self.new.up
            (frame_at self.old.script (length self.old.tape.marks) writer
            (marks_of writer self.old.tape.marks)
            (stamp_number self.old.script (length self.old.tape.marks))) result }
        ensures found { self.new.tape.found ≡ self.old.tape.found ++ self.new.up.freed ∷ [] }
        ensures script { self.new.script ≡ self.old.script }
        ensures split { self.new.up.split ≡ self.old.up.split }
        ensures tells { self.new.up.tells ≡ self.old.up.tells }
        ensures kept { IsKept self.new }
        ensures relief { R.kept relief.new }
    {
        // So a writer that has a statement left is one of eight.
        self.script.lawful();
        let place = self.places[writer as usize];
        let marks = self.tape.len();
        let number = marks as u32;
        let stamp = self.stamp.at(number);
        let fate = send_statement(
            rt,
            &mut self.up,
            &self.script,
            &self.sites,
            number,
            writer,
            place,
            stamp,
            &mut self.message,
            &mut self.frame,
            relief,
        );
        let mark = Mark {
            writer,
            place,
            stamp,
            fate,
        };
        self.tape.push_reserved(mark, &self.up);
        self.places[writer as usize] = place + 1;
        fate
    }
}

impl<U: UpEnd + Drop, C: Clock + Drop> Desk<U, C> {
    // A desk on which nothing was logged, with room for all that will be.
    pub(crate) fn start(
        alloc: Global,
        script: Script,
        stamp: Stamp<C>,
        up: U,
    ) -> Result<Desk<U, C>, Memory>
        requires pace { stamp ≡ pace_of script.settings.stamp }
        requires fresh { U.view up
            ≡ new_up (U.view up).split script.settings.ring (U.view up).tells }
        requires told { TellsIn script.settings.mode (U.view up) }
        ensures script { IfOk result (λ desk. desk.script ≡ script) }
        ensures tape { IfOk result (λ desk. desk.tape.marks ≡ []) }
        ensures up { IfOk result (λ desk. desk.up ≡ U.view up) }
        ensures kept { IfOk result (λ desk. IsKept desk) }
    {
        let own = prepare(alloc, &script, &up)?;
        let Prepared {
            sites,
            tape,
            message,
            frame,
        } = own;
        Ok(Desk {
            script,
            sites,
            tape,
            places: [0; 8],
            stamp,
            message,
            frame,
            up,
        })
    }

    // The tape, the end of the ring and the script.
    pub(crate) fn close(self) -> (Tape, U, Script)
        ensures tape { result.0 ≡ self.tape }
        ensures up { U.view result.1 ≡ self.up }
        ensures script { result.2 ≡ self.script }
        ensures kept { IsKept
            (record { script = result.2; tape = result.0; up = U.view result.1 }) }
    {
        let Desk {
            script,
            tape,
            up,
            ..
        } = self;
        (tape, up, script)
    }
}
