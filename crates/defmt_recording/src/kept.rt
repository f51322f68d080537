//! A reporter that keeps the events.
ghost use Rattle.std.specs.Prelude.{◌≡◌, ◌++◌, [], false, IfOk, OnErr, OnOk};
ghost use Rattle.std.specs.Str.{IsUtf8};
ghost use Rattle.defmt_decode.specs.Event.{line_with};
ghost use Rattle.defmt_recording.specs.Keeping.{by_keeping};
ghost use Rattle.defmt_recording.specs.Output.{is_fault};

use crate::host_listener::HostListener;
use crate::output::is_fault;
use defmt_decode::{Event, Events, Origin};
use defmt_grammar::Text;
use defmt_listen::Reporter;
use dl_io::{Bytes, Memory};
use std::alloc::Global;
use std::str;

/// The events that were reported so far, of which nothing is printed.
#[derive(Drop)]
pub struct Kept {
    pub events: Events,
}

#[tactic(auto, unfolding(crate::specs::Output::is_fault))]
impl<'t> Reporter<HostListener<'t>> for Kept {
    ghost reporting = { by_keeping };

    fn add_line(&mut self, _alloc: Global, event: Event, _out: &mut Bytes) -> Result<(), Memory>
        ensures appended { OnOk result (_out.new.items ≡ _out.old.items ++ []) }
        ensures moved { OnOk result (self.new ≡ by_keeping.after self.old event) }
        ensures err { OnErr result (_out.new.items ≡ _out.old.items) }
        ensures same { OnErr result (self.new ≡ self.old) }
    {
        self.events.push(event)
    }

    fn add_text(
        &mut self,
        alloc: Global,
        origin: Origin,
        text: &[u8],
        _out: &mut Bytes,
    ) -> Result<(), Memory>
        requires { IsUtf8 text.now }
        ensures appended { OnOk result (_out.new.items ≡ _out.old.items ++ []) }
        ensures moved { OnOk result (self.new
            ≡ by_keeping.after self.old (line_with origin text.now)) }
        ensures fine { is_fault (line_with origin text.now) ≡ false }
        ensures err { OnErr result (_out.new.items ≡ _out.old.items) }
        ensures same { OnErr result (self.new ≡ self.old) }
    {
        let text = text_of(alloc, text)?;
        self.events.push(Event::Line {
            index: origin.index,
            place: origin.place,
            parts: origin.parts,
            text,
        })
    }

    fn is_fault(&self, event: &Event) -> bool
        ensures { result ≡ is_fault event.now }
    {
        is_fault(event)
    }
}

// UTF-8 as a text of its own.
fn text_of(alloc: Global, bytes: &[u8]) -> Result<Text, Memory>
    requires { IsUtf8 bytes.now }
    ensures { IfOk result (λ text. text ≡ bytes.now) }
{
    let Ok(text) = str::from_utf8(bytes) else {
        unreachable!();
    };
    Ok(Text::from_string(String::from_str(alloc, text)?))
}
