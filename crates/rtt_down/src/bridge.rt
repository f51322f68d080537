//! The bridge.
ghost use Rattle.std.specs.Prelude.{◌≡◌, ◌<◌, [], ◌∷◌, ◌++◌, IfOk, length, slice_index_or};
ghost use Rattle.defmt_frames.specs.Frames.{count, pace_of};
ghost use Rattle.defmt_frames.specs.Sites.{HasSites};
ghost use Rattle.rtt_down.specs.Kept.{IsKept, SteersBy, Turned};
ghost use Rattle.rtt_down.specs.Steered.{taken_by, turn_part, turns_of};
ghost use Rattle.rtt_ring.specs.Views.{UpKept, new_down, new_up};

use crate::course::Course;
use crate::level::level_at;
use crate::turn::Turn;
use crate::turns::Turns;
use boxcar::tag::{Names, Tag};
use defmt_encode::MESSAGE_LIMIT;
use defmt_frames::{FRAME_SIZE, Sites, write_frame};
use defmt_hooks::{Clock, Stamp};
use defmt_script::Script;
use dl_io::Memory;
use rtt_modes::{Relief, block};
use rtt_ring::{DownEnd, UpEnd};
use std::alloc::Global;
use std::marker::Model;
use std::sync::Wait;

// How many bytes a turn takes at most.
const TAKEN_SIZE: usize = 192;

/// A script, the sites of its strings, the turns of its statements so far, the end of a ring that their frames go up, and the
/// end of a ring that orders come down.
///
/// Between two calls the turns are steered by the bytes that were got, what was sent is the stream of the turns, nothing is
/// staged, and there was one look down for each turn, which took what it found.
#[derive(Drop)]
pub struct Bridge<U: UpEnd, D: DownEnd, C: Clock> {
    script: Script,
    sites: Sites,
    course: Course,
    stamp: Stamp<C>,
    taken: [u8; 192],
    message: Vec<u8>,
    frame: Vec<u8>,
    up: U,
    down: D,
}

impl<U: UpEnd, D: DownEnd, C: Clock> Model for Bridge<U, D, C> {
    ghost use Rattle.rtt_down.specs.Kept.{IsWorking, Sheet};
    ghost use Rattle.rtt_down.specs.Codes.{coded_sheet};

    ghost Value = { Sheet };

    ghost coded = { coded_sheet };

    ghost view = { λ b. record {
      script = b.script;
      turns = b.course.turns;
      up = U.view b.up;
      down = D.view b.down;
    } };

    ghost invariant = { λ b. IsWorking (record {
      script = b.script;
      turns = b.course.turns;
      up = U.view b.up;
      down = D.view b.down;
    })
        b.course b.sites b.stamp b.message.items b.frame.items };
}

// The name of the split that an upper end comes from.
struct UpSplit;

impl<U: UpEnd> Names<U> for UpSplit {
    ghost numbers = { λ up. (U.view up).split };
}

// The name of the split that a lower end comes from.
struct DownSplit;

impl<D: DownEnd> Names<D> for DownSplit {
    ghost numbers = { λ down. (D.view down).split };
}

// How many bytes the last look of a lower end found sent.
struct Found;

impl<D: DownEnd> Names<D> for Found {
    ghost use Rattle.std.specs.Prelude.{◌∷◌, []};

    ghost numbers = { λ down. (D.view down).found ∷ [] };
}

// Takes once what came down, hears it, and says what becomes of the writer's next statement. The buffer is for what is taken.
fn next_turn<D: DownEnd, C: Clock>(
    script: &Script,
    clock: &Stamp<C>,
    course: &mut Course,
    down: &mut D,
    taken: &mut [u8],
    writer: u8,
) -> Turn
    requires writer { writer < 8 }
    requires place { slice_index_or course.old.places writer 0 < count script.now writer }
    requires pace { clock.now ≡ pace_of script.now.settings.stamp }
    requires taken { length taken.old ≡ 192 }
    requires steers { SteersBy script.now (D.view down.old).got course.old }
    ensures { Turned script.now (D.view down.old) (D.view down.new)
        course.old course.new writer result }
{
    // So there are no more turns than statements, at most 4,096.
    script.lawful();
    let place = course.place(writer);
    let number = course.count() as u32;
    let level = level_at(script, writer, place);
    let stamp = clock.at(number);
    let size = down.take(taken);
    let found = Tag::of::<D, Found>(down);
    course.turn(writer, level, stamp, &taken[..size], &found)
}

// Sends the frame of the turn with this number where the turn says so. The buffers are for its message and its frame.
fn send_turn<U: UpEnd, R: Relief, W: Wait>(
    rt: &W,
    script: &Script,
    sites: &Sites,
    up: &mut U,
    message: &mut [u8],
    frame: &mut [u8],
    number: u32,
    turn: Turn,
    relief: &mut R,
)
    requires sites { HasSites script.now sites.now }
    requires place { turn.place < count script.now turn.writer }
    requires staged { (U.view up.old).staged ≡ [] }
    requires buffers { (length message.old ≡ 2000) × (length frame.old ≡ 2288) }
    requires relief { R.kept relief.old }
    ensures sent { (U.view up.new).sent ≡ (U.view up.old).sent ++ turn_part script.now number turn }
    ensures kept { UpKept (U.view up.old) (U.view up.new) }
    ensures relief { R.kept relief.new }
{
    if turn.sent {
        let (writer, place, stamp) = (turn.writer, turn.place, turn.stamp);
        let size = write_frame(script, sites, number, writer, place, stamp, message, frame);
        block(rt, up, &frame[..size], relief);
    }
}

// The buffers for a message and a frame.
fn buffers(alloc: Global) -> Result<(Vec<u8>, Vec<u8>), Memory>
    ensures message { IfOk result (λ b. length b.0.items ≡ 2000) }
    ensures frame { IfOk result (λ b. length b.1.items ≡ 2288) }
{
    let message = vec![in alloc; 0u8; MESSAGE_LIMIT]?;
    let frame = vec![in alloc; 0u8; FRAME_SIZE]?;
    Ok((message, frame))
}

// What a bridge has of its own: the course of its turns, the sites of its script, and the buffers for a message and a frame.
#[derive(Drop)]
struct Stores {
    course: Course,
    sites: Sites,
    message: Vec<u8>,
    frame: Vec<u8>,
}

// What a bridge of a script has before any turn is taken, with the names of the splits of its two ends.
fn prepare(alloc: Global, script: &Script, split: Tag, down: Tag) -> Result<Stores, Memory>
    ensures sites { IfOk result (λ s. HasSites script.now s.sites) }
    ensures steers { IfOk result (λ s. SteersBy script.now [] s.course) }
    ensures turns { IfOk result (λ s. (s.course.turns.turns ≡ [])
        × (s.course.turns.found ≡ [])) }
    ensures rings { IfOk result (λ s. (s.course.turns.split ≡ split.numbers)
        × (s.course.turns.down ≡ down.numbers)) }
    ensures message { IfOk result (λ s. length s.message.items ≡ 2000) }
    ensures frame { IfOk result (λ s. length s.frame.items ≡ 2288) }
{
    let (message, frame) = buffers(alloc)?;
    let course = Course::start(alloc, split, down)?;
    let sites = Sites::of(alloc, script)?;
    Ok(Stores {
        course,
        sites,
        message,
        frame,
    })
}

impl<U: UpEnd, D: DownEnd, C: Clock> Bridge<U, D, C> {
    /// Takes the turn of the next statement of a writer that has one left: takes once from the ring that orders come down,
    /// all that its look finds but at most 192 bytes, hears them, and sends the statement's frame in blocking mode or mutes
    /// it. It may wait for the reader. Takes no memory.
    pub fn append<R: Relief, W: Wait>(&mut self, rt: &W, writer: u8, relief: &mut R) -> Turn
        requires writer { writer < 8 }
        requires place { turns_of writer self.old.turns.turns < count self.old.script writer }
        requires relief { R.kept relief.old }
        ensures turns { self.new.turns.turns ≡ self.old.turns.turns ++ result ∷ [] }
        ensures writer { result.writer ≡ writer }
        ensures found { self.new.turns.found ≡ self.old.turns.found ++ self.new.down.found ∷ [] }
        ensures took { length self.new.down.got
            ≡ taken_by (length self.old.down.got) self.new.down.found }
        ensures script { self.new.script ≡ self.old.script }
        ensures up { self.new.up.split ≡ self.old.up.split }
        ensures tells { self.new.up.tells ≡ self.old.up.tells }
        ensures down { self.new.down.split ≡ self.old.down.split }
        ensures kept { IsKept self.new }
        ensures relief { R.kept relief.new }
    {
        let number = self.course.count() as u32;
        let turn = next_turn(
            &self.script,
            &self.stamp,
            &mut self.course,
            &mut self.down,
            &mut self.taken,
            writer,
        );
        send_turn(
            rt,
            &self.script,
            &self.sites,
            &mut self.up,
            &mut self.message,
            &mut self.frame,
            number,
            turn,
            relief,
        );
        turn
    }
}

impl<U: UpEnd + Drop, D: DownEnd + Drop, C: Clock + Drop> Bridge<U, D, C> {
    // A bridge at which no turn was taken, with room for all that will be.
    pub(crate) fn start(
        alloc: Global,
        script: Script,
        stamp: Stamp<C>,
        up: U,
        down: D,
    ) -> Result<Bridge<U, D, C>, Memory>
        requires pace { stamp ≡ pace_of script.settings.stamp }
        requires up { U.view up ≡ new_up (U.view up).split (U.view up).size (U.view up).tells }
        requires down { D.view down ≡ new_down (D.view down).split (D.view down).size }
        ensures script { IfOk result (λ bridge. bridge.script ≡ script) }
        ensures turns { IfOk result (λ bridge. bridge.turns.turns ≡ []) }
        ensures up { IfOk result (λ bridge. bridge.up ≡ U.view up) }
        ensures down { IfOk result (λ bridge. bridge.down ≡ D.view down) }
    {
        let split = Tag::of::<U, UpSplit>(&up);
        let orders = Tag::of::<D, DownSplit>(&down);
        let stores = prepare(alloc, &script, split, orders)?;
        Ok(Bridge {
            script,
            sites: stores.sites,
            course: stores.course,
            stamp,
            taken: [0; TAKEN_SIZE],
            message: stores.message,
            frame: stores.frame,
            up,
            down,
        })
    }

    // The turns, the two ends and the script.
    pub(crate) fn close(self) -> (Turns, U, D, Script)
        ensures turns { result.0 ≡ self.turns }
        ensures up { U.view result.1 ≡ self.up }
        ensures down { D.view result.2 ≡ self.down }
        ensures script { result.3 ≡ self.script }
        ensures kept { IsKept (record {
          script = result.3;
          turns = result.0;
          up = U.view result.1;
          down = D.view result.2;
        }) }
    {
        let Bridge {
            script,
            sites: _,
            course,
            stamp: _,
            taken: _,
            message: _,
            frame: _,
            up,
            down,
        } = self;
        (course.turns, up, down, script)
    }
}
