//! The host as a listener.
ghost use Rattle.std.specs.Str.{IsUtf8};
ghost use Rattle.defmt_decode.specs.Event.{line_with, tells};

use defmt_decode::{Event, Host, Origin};
use defmt_framing::Notice;
use defmt_listen::Listener;
use dl_io::Memory;

/// A host that hears a recording.
#[derive(Drop)]
pub struct HostListener<'t> {
    pub host: Host<'t>,
}

impl<'t> Listener for HostListener<'t> {
    type Event = Event;

    type Origin = Origin;

    ghost line = { line_with };

    ghost known = { IsUtf8 };

    ghost tells = { λ listener. tells listener.host.table };

    ghost framing = { λ listener. listener.host.framing };

    fn hear(
        &mut self,
        bytes: &[u8],
        text: &mut Vec<u8>,
        at: usize,
    ) -> Result<(usize, Notice<Event, Origin>), Memory> {
        self.host.hear_any(bytes, text, at)
    }

    #[inline(always)]
    fn hear_line(
        &mut self,
        bytes: &[u8],
        text: &mut Vec<u8>,
        at: usize,
    ) -> Option<(usize, Origin, usize)> {
        self.host.hear_line(bytes, text, at)
    }

    fn finish(self) -> Option<Event> {
        self.host.finish()
    }
}
