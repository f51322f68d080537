//! Who reports events.

ghost use Rattle.std.specs.Prelude.{◌≡◌, ◌≤◌, ◌+◌, ◌++◌, ◌∷◌, [], ℕ, List, false, length, take, drop, IfNone, IfSome, OnOk, OnErr};
ghost use Rattle.defmt_listen.specs.Heard.{IsSettled, Reporting};

use crate::listener::Listener;
use dl_io::{Bytes, Memory};
use std::alloc::Global;

/// What a reporter says of the lines with an origin.
#[derive(Clone, Copy)]
pub enum Passing {
    /// Of each of them its text and a newline are printed, and nothing else.
    Kept,
    /// Of none of them anything is printed.
    LeftOut,
    /// It doesn't say, and is asked for what it appends.
    Asked,
}

/// Reports the events of a listener, one after the other.
///
/// What is printed of an event may depend on the events before it. A reporter is its own state, which each event moves.
pub trait Reporter<L: Listener> {
    /// What is printed of an event, the reporter behind it, and whether it is a fault of the recording.
    ghost reporting: { Reporting Self L.Event };

    /// Appends what is printed of an event, and goes on behind it. On want of memory nothing was appended, and the reporter is as
    /// before.
    fn add_line(&mut self, alloc: Global, event: L::Event, out: &mut Bytes) -> Result<(), Memory>
        ensures appended { OnOk result (out.new.items
            ≡ out.old.items ++ reporting.line self.old event) }
        ensures moved { OnOk result (self.new ≡ reporting.after self.old event) }
        ensures err { OnErr result (out.new.items ≡ out.old.items) }
        ensures same { OnErr result (self.new ≡ self.old) };

    /// The same of the line with this text, of which the listener's `known` holds. It is no fault.
    fn add_text(
        &mut self,
        alloc: Global,
        origin: L::Origin,
        text: &[u8],
        out: &mut Bytes,
    ) -> Result<(), Memory>
        requires { L.known text.now }
        ensures appended { OnOk result (out.new.items
            ≡ out.old.items ++ reporting.line self.old (L.line origin text.now)) }
        ensures moved { OnOk result (self.new ≡ reporting.after self.old (L.line origin text.now)) }
        ensures fine { reporting.is_fault (L.line origin text.now) ≡ false }
        ensures err { OnErr result (out.new.items ≡ out.old.items) }
        ensures same { OnErr result (self.new ≡ self.old) };

    /// What is printed of each line with this origin, where that is settled before its text is seen. Then the reporter goes on behind
    /// that line, which is no fault; else it is as before.
    fn passes(&mut self, origin: &L::Origin) -> Passing
        ensures kept { result ≡ Passing.Kept → (text : List ℕ)
            → reporting.line self.old (L.line origin.now text) ≡ text ++ 10 ∷ [] }
        ensures left_out { result ≡ Passing.LeftOut → (text : List ℕ)
            → reporting.line self.old (L.line origin.now text) ≡ [] }
        ensures moved { IsSettled result → (text : List ℕ)
            → self.new ≡ reporting.after self.old (L.line origin.now text) }
        ensures fine { IsSettled result → (text : List ℕ)
            → reporting.is_fault (L.line origin.now text) ≡ false }
        ensures same { result ≡ Passing.Asked → self.new ≡ self.old }
    {
        let _ = origin;
        Passing::Asked
    }

    /// Makes of the text of a line with this origin, which stands behind a place of a buffer, what is printed of it, where that is cheap, and
    /// answers where that ends. What stands in front of the place stays. Then the reporter goes on behind that line, which is no fault;
    /// else all is as before.
    fn print_in_place(
        &mut self,
        origin: &L::Origin,
        text: &mut [u8],
        at: usize,
        size: usize,
    ) -> Option<usize>
        requires { at + size ≤ length text.old }
        ensures within { IfSome result (λ end. end ≤ length text.new) }
        ensures printed { IfSome result (λ end. take end text.new ≡ take at text.old
            ++ reporting.line self.old (L.line origin.now (take size (drop at text.old)))) }
        ensures moved { IfSome result (λ _. self.new
            ≡ reporting.after self.old (L.line origin.now (take size (drop at text.old)))) }
        ensures fine { IfSome result (λ _. reporting.is_fault
            (L.line origin.now (take size (drop at text.old))) ≡ false) }
        ensures text { IfNone result (text.new ≡ text.old) }
        ensures same { IfNone result (self.new ≡ self.old) }
    {
        let _ = origin;
        let _ = (text.len(), at, size);
        None
    }

    /// Whether an event is a fault of the recording.
    fn is_fault(&self, event: &L::Event) -> bool
        ensures { result ≡ reporting.is_fault event.now };
}
