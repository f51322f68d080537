//! A text that a writer has to say, and all that one writer has to say.
ghost use Rattle.std.specs.Prelude.{◌≡◌, ◌∷◌, ◌++◌, [], IfOk, OnErr, OnOk};
ghost use Rattle.rtt_terminal.specs.Speech.{saying};

use dl_io::Memory;
use std::alloc::Global;
use std::marker::Model;

/// A text that a writer has to say, for one of the terminals, and how many statements of the log it makes before.
#[derive(Drop)]
pub struct Saying {
    behind: u32,
    terminal: u8,
    text: String,
}

impl Model for Saying {
    ghost use Rattle.std.specs.Prelude.{string_bytes};
    ghost use Rattle.rtt_terminal.specs.Codes.{coded_saying};
    ghost use Rattle.rtt_terminal.specs.Speech.{Saying as Told};

    ghost Value = { Told };

    ghost coded = { coded_saying };

    ghost view = { λ s. record { behind = s.behind; terminal = s.terminal; text = string_bytes s.text } };
}

impl Saying {
    // With a copy of a text.
    pub(crate) fn new(
        alloc: Global,
        behind: u32,
        terminal: u8,
        text: &str,
    ) -> Result<Saying, Memory>
        ensures { IfOk result (λ said. said ≡ saying behind terminal text.now) }
    {
        Ok(Saying {
            behind,
            terminal,
            text: String::from_str(alloc, text)?,
        })
    }

    /// How many statements of the log its writer makes before it. Takes no memory.
    pub fn behind(&self) -> u32
        ensures { result ≡ self.now.behind }
    {
        self.behind
    }

    /// Its terminal, from 0 to 15. Takes no memory.
    pub fn terminal(&self) -> u8
        ensures { result ≡ self.now.terminal }
    {
        self.terminal
    }

    /// Its text. Takes no memory.
    pub fn text(&self) -> &str
        ensures { result.now ≡ self.now.text }
    {
        self.text.as_str()
    }
}

/// What one writer has to say, seen as a list.
#[derive(Drop)]
pub struct Sayings {
    sayings: Vec<Saying>,
}

impl Model for Sayings {
    ghost use Rattle.std.specs.Prelude.{List};
    ghost use Rattle.rtt_terminal.specs.Codes.{coded_sayings};
    ghost use Rattle.rtt_terminal.specs.Speech.{Saying as Told};

    ghost Value = { List Told };

    ghost coded = { coded_sayings };

    ghost view = { λ s. s.sayings.items };
}

impl Sayings {
    /// Nothing. Takes no memory.
    pub fn new(alloc: Global) -> Self
        ensures { result ≡ [] }
    {
        Sayings {
            sayings: Vec::new(alloc),
        }
    }

    /// A copy.
    pub fn copy(&self, alloc: Global) -> Result<Sayings, Memory>
        ensures { IfOk result (λ copy. copy ≡ self.now) }
    {
        let mut copy = Sayings::new(alloc);
        for saying in &self.sayings {
            copy.push_copy(alloc, saying)?;
        }
        Ok(copy)
    }

    // Puts a copy behind the others.
    fn push_copy(&mut self, alloc: Global, item: &Saying) -> Result<(), Memory>
        ensures { OnOk result (self.new ≡ self.old ++ item.now ∷ []) }
    {
        let copy = Saying::new(alloc, item.behind(), item.terminal(), item.text())?;
        self.push(copy)
    }

    /// Puts one more behind the others. On `Memory` they stay.
    pub fn push(&mut self, item: Saying) -> Result<(), Memory>
        ensures ok { OnOk result (self.new ≡ self.old ++ item ∷ []) }
        ensures err { OnErr result (self.new ≡ self.old) }
    {
        self.sayings.push(item)?;
        Ok(())
    }

    /// All of them, in order. Takes no memory.
    pub fn as_slice(&self) -> &[Saying]
        ensures { result.now ≡ self.now }
    {
        self.sayings.as_slice()
    }
}
