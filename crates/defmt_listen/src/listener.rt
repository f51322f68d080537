//! Who hears a stream of frames.

ghost use Rattle.std.specs.Prelude.{◌≡◌, ◌≤◌, ◌<◌, ◌++◌, ℕ, None, Some, List, length, take, drop, IfNone, IfOk, IfSome, OnErr, option_to_list};
ghost use Rattle.defmt_framing.specs.Told.{Tells, events, begun};
ghost use Rattle.defmt_framing.specs.Framing.{Framing, Stands, Hears};
ghost use Rattle.defmt_framing.specs.Notices.{HasText, told_by};
ghost use Rattle.defmt_listen.specs.Gathered.{IsKnownText};

use defmt_framing::Notice;
use dl_io::Memory;

/// Hears a stream of frames, and tells an event of each of its parts.
///
/// A listener is seen as what it tells by, and as what it keeps of the bytes that it heard.
pub trait Listener {
    /// Something that a part tells.
    type Event: Drop;

    /// Where a line comes from: what it has beside its text.
    type Origin: Drop;

    /// The line with this text.
    ghost line: { Self.Origin → List ℕ → Self.Event };

    /// What is known of the text of each line that it writes to a buffer.
    ghost known: { List ℕ → Type 0 };

    /// What each part tells.
    ghost tells: { Self → Tells Self.Event };

    /// What is kept of the bytes that were heard.
    ghost framing: { Self → Framing };

    /// Takes bytes up to and with the zero that ends the first part which tells something, and answers how many it took with
    /// a notice of that event, which may be a line whose text it wrote behind a place of the buffer. What stands in front of the place
    /// stays. Some byte is taken where there is one, and all where nothing is told. On want of memory nothing was taken, and the
    /// listener goes on from there.
    fn hear(
        &mut self,
        bytes: &[u8],
        text: &mut Vec<u8>,
        at: usize,
    ) -> Result<(usize, Notice<Self::Event, Self::Origin>), Memory>
        requires { at ≤ length text.old.items }
        ensures within { IfOk result (λ r. r.0 ≤ length bytes.now) }
        ensures hears { IfOk result (λ r. (stream : List ℕ) → Stands (framing self.old) stream
            → Hears (tells self.old) (framing self.new) stream (take r.0 bytes.now)
            (told_by line (drop at text.new.items) r.1)) }
        ensures text { IfOk result (λ r. HasText (drop at text.new.items) r.1) }
        ensures known { IfOk result (λ r. IsKnownText known (drop at text.new.items) r.1) }
        ensures front { take at text.new.items ≡ take at text.old.items }
        ensures some { IfOk result (λ r. 0 < length bytes.now → 0 < r.0) }
        ensures all { IfOk result (λ r. told_by line (drop at text.new.items) r.1 ≡ None
            → r.0 ≡ length bytes.now) }
        ensures same { tells self.new ≡ tells self.old }
        ensures err { OnErr result (framing self.new ≡ framing self.old) };

    /// Takes bytes as `hear` does where they begin a line whose text it writes at once: answers how many it took, where the line
    /// comes from, and how many bytes its text has. `None` says nothing of the bytes: nothing was taken, and `hear` tells what they
    /// begin. It stands beside `hear` since most of what is heard are lines, whose answer is small.
    fn hear_line(
        &mut self,
        bytes: &[u8],
        text: &mut Vec<u8>,
        at: usize,
    ) -> Option<(usize, Self::Origin, usize)>
        requires { at ≤ length text.old.items }
        ensures within { IfSome result (λ r. r.0 ≤ length bytes.now) }
        ensures some { IfSome result (λ r. 0 < r.0) }
        ensures hears { IfSome result (λ r. (stream : List ℕ) → Stands (framing self.old) stream
            → Hears (tells self.old) (framing self.new) stream (take r.0 bytes.now)
            (Some (line r.1 (take r.2 (drop at text.new.items))))) }
        ensures text { IfSome result (λ r. r.2 ≤ length (drop at text.new.items)) }
        ensures known { IfSome result (λ r. known (take r.2 (drop at text.new.items))) }
        ensures front { take at text.new.items ≡ take at text.old.items }
        ensures same { tells self.new ≡ tells self.old }
        ensures none { IfNone result (framing self.new ≡ framing self.old) }
    {
        let _ = (bytes.len(), text.len(), at);
        None
    }

    /// What the end of the stream tells beyond what was answered.
    fn finish(self) -> Option<Self::Event>
        ensures { (stream : List ℕ) → Stands (framing self) stream
            → events (tells self) stream ≡ begun (tells self) stream ++ option_to_list result };
}
