//! Scripts.
ghost use Rattle.std.specs.Prelude.{◌≡◌, ◌++◌, ◌∷◌, ◌<◌, ℕ, Some, [], length, slice_get, OnOk, OnErr};
ghost use Rattle.std.specs.Option.{option_copied, option_map};
ghost use Rattle.defmt_script.specs.Lawful.{AllAreSound, IsLawful};
ghost use Rattle.defmt_script.specs.Script.{statements_by};
ghost use Rattle.defmt_script.specs.Turns.{told, told_of};
ghost use Rattle.defmt_values.specs.Sound.{AreSound};
ghost use Rattle.defmt_values.specs.declared.value.Statement.{Statement as AnyStatement};
ghost use Rattle.rtt_terminal.specs.Speech.{count_said, said_by};

use defmt_hooks::Level;
use defmt_intern::{Profile, Table};
use defmt_lines::{RingMode, Settings};
use defmt_spelling::Names;
use defmt_values::Statement;
use dl_io::Memory;
use rtt_terminal::Speech;
use std::alloc::Global;
use std::marker::Model;

/// The statements of one writer, seen as a list.
#[derive(Drop)]
pub struct Statements {
    statements: Vec<Statement>,
}

impl Model for Statements {
    ghost use Rattle.std.specs.Prelude.{List};
    ghost use Rattle.defmt_values.specs.declared.value.Statement.{Statement as AnyStatement};
    ghost use Rattle.defmt_script.specs.Codes.{coded_statements};

    ghost Value = { List AnyStatement };

    ghost coded = { coded_statements };

    ghost view = { λ s. s.statements.items };
}

impl Statements {
    /// No statements. Takes no memory.
    pub fn new(alloc: Global) -> Self
        ensures { result ≡ [] }
    {
        Statements {
            statements: Vec::new(alloc),
        }
    }

    // Makes the room of a full list four times as large, so that few statements are moved.
    fn make_room(&mut self) -> Result<(), Memory>
        ensures { self.new ≡ self.old }
    {
        let count = self.statements.len();
        if count == self.statements.capacity() {
            self.statements.reserve(count.saturating_mul(3))?;
        }
        Ok(())
    }

    /// Puts one more statement behind the others. On `Memory` the list is unchanged.
    pub fn push(&mut self, item: Statement) -> Result<(), Memory>
        ensures ok { OnOk result (self.new ≡ self.old ++ item ∷ []) }
        ensures err { OnErr result (self.new ≡ self.old) }
    {
        self.make_room()?;
        self.statements.push(item)?;
        Ok(())
    }

    /// The statements. Takes no memory.
    pub fn as_slice(&self) -> &[Statement]
        ensures { result.now ≡ self.now }
    {
        self.statements.as_slice()
    }
}

/// What a script says: a ring, orders of levels, a table of strings with their names and a profile, and the statements of
/// the writers 0 to 7 with the texts that they have to say on terminals.
///
/// Every script is lawful: its ring and stamps are within their limits, and so are its at most 64 orders; its reader isn't
/// late in blocking mode, its table has a timestamp exactly where it has stamps, and each of its at most 4,096 statements
/// fits the table, is a message's, and has a message of at most 2,000 and a text of at most 65,536 bytes. Its at most 4,096
/// texts may be spoken on one of 16 terminals, and each writer's stand among its statements in their order.
pub struct Script {
    settings: Settings,
    table: Table,
    names: Names,
    writers: Vec<Statements>,
    said: Speech,
}

// By hand, since a derived `Drop` is proved again in each crate that gives up a script, with those of all that a script holds.
impl Drop for Script {
    fn drop(self) {
        let Script {
            settings: _,
            table: _,
            names: _,
            writers: _,
            said: _,
        } = self;
    }
}

impl Model for Script {
    ghost use Rattle.std.specs.Prelude.{◌≡◌};
    ghost use Rattle.defmt_script.specs.Lawful.{AllAreSound, IsLawful as HoldsOfScripts};
    ghost use Rattle.defmt_script.specs.Script.{Script as Read};
    ghost use Rattle.defmt_script.specs.Codes.{coded_script};

    ghost Value = { Read };

    ghost coded = { coded_script };

    ghost view = { λ s. record {
      settings = s.settings;
      table = s.table.entries;
      names = s.names;
      writers = s.writers.items;
      said = s.said;
    } };

    ghost invariant = { λ s. HoldsOfScripts (record {
      settings = s.settings;
      table = s.table.entries;
      names = s.names;
      writers = s.writers.items;
      said = s.said;
    }) × (s.table.profile ≡ s.settings.profile) × AllAreSound s.writers.items };
}

impl Script {
    // A script of these parts. Its table gets the profile of the settings, whatever it had.
    pub(crate) fn new(
        settings: Settings,
        mut table: Table,
        names: Names,
        writers: Vec<Statements>,
        said: Speech,
    ) -> Self
        requires lawful { IsLawful (record {
          settings = settings;
          table = table.entries;
          names = names;
          writers = writers.items;
          said = said;
        }) }
        requires sound { AllAreSound writers.items }
        ensures { result ≡ record {
          settings = settings;
          table = table.entries;
          names = names;
          writers = writers.items;
          said = said;
        } }
    {
        table.set_profile(settings.profile);
        Script {
            settings,
            table,
            names,
            writers,
            said,
        }
    }

    /// What holds of every script.
    pub fn lawful(&self)
        ensures { IsLawful self.now }
    {
        let _ = &self.table;
    }

    /// The values of all statements are what their types say: texts are UTF-8, characters are Unicode scalar values and bytes
    /// are below 256. So their messages are read back.
    pub fn statements_are_sound(&self)
        ensures { (writer place : ℕ) (stm : AnyStatement)
            → slice_get (statements_by self.now writer) place ≡ Some stm → AreSound stm.args }
    {
        let _ = &self.writers;
    }

    /// The ring's size in bytes, from 16 to 65,536. Takes no memory.
    pub fn ring(&self) -> u32
        ensures { result ≡ self.now.settings.ring }
    {
        self.settings.ring
    }

    /// What a writer does where its frame doesn't fit. Takes no memory.
    pub fn mode(&self) -> RingMode
        ensures { result ≡ self.now.settings.mode }
    {
        self.settings.mode
    }

    /// Whether the reader takes nothing before the writers end. Takes no memory.
    pub fn late(&self) -> bool
        ensures { result ≡ self.now.settings.late }
    {
        self.settings.late
    }

    /// The first stamp and the step to the next, in microseconds; `None` exactly where there is no `stamp` line. Takes no
    /// memory.
    pub fn stamp(&self) -> Option<(u64, u64)>
        ensures { result ≡ self.now.settings.stamp }
    {
        self.settings.stamp
    }

    /// How messages are laid out: the table's profile. Takes no memory.
    pub fn profile(&self) -> Profile
        ensures { result ≡ self.now.settings.profile }
    {
        self.settings.profile
    }

    /// The order of a level with this number, from 0: the number of frames after which it is sent, and the level; `None`
    /// exactly past the last. Takes no memory.
    pub fn order(&self, number: u32) -> Option<(u32, Level)>
        ensures { result ≡ slice_get self.now.settings.orders number }
    {
        self.settings.orders.get(number)
    }

    /// The strings, with the indexes 1, 2, 3 and so on, and behind them the timestamp's entry where there are stamps, in the
    /// script's language. Takes no memory.
    pub fn table(&self) -> &Table
        ensures entries { result.now.entries ≡ self.now.table }
        ensures profile { result.now.profile ≡ self.now.settings.profile }
    {
        &self.table
    }

    /// The names of the strings, and the index of each. Takes no memory.
    pub fn names(&self) -> &Names
        ensures { result.now ≡ self.now.names }
    {
        &self.names
    }

    /// The statements of a writer, none for a number above 7. Takes no memory.
    pub fn statements(&self, writer: u8) -> &[Statement]
        ensures { result.now ≡ statements_by self.now writer }
    {
        match self.writers.get(usize::from(writer)) {
            Some(statements) => statements.as_slice(),
            None => &[],
        }
    }

    /// How many statements a writer has, 0 for each number above 7. Takes no memory.
    pub fn count(&self, writer: u8) -> u32
        ensures { result ≡ length (statements_by self.now writer) }
    {
        // So a writer has at most 4,096.
        self.lawful();
        self.statements(writer).len() as u32
    }

    /// The statement of a writer at a place, from 0; `None` exactly where the place isn't below the writer's count. Takes no
    /// memory.
    pub fn statement(&self, writer: u8, place: u32) -> Option<&Statement>
        ensures { option_copied result ≡ slice_get (statements_by self.now writer) place }
    {
        self.statements(writer).get(place as usize)
    }

    /// What the writers have to say on terminals. Takes no memory.
    pub fn speech(&self) -> &Speech
        ensures { result.now ≡ self.now.said }
    {
        &self.said
    }

    /// How many texts a writer has to say, 0 for each number above 7. Takes no memory.
    pub fn count_said(&self, writer: u8) -> u32
        ensures { result ≡ count_said self.now.said writer }
    {
        self.said.count(writer)
    }

    /// The terminal and the text that a writer has to say at a place, from 0; `None` exactly where the place isn't below the
    /// writer's count of texts. Takes no memory.
    pub fn said(&self, writer: u8, place: u32) -> Option<(u8, &str)>
        ensures { told_of result
            ≡ option_map told (slice_get (said_by self.now.said writer) place) }
    {
        let saying = self.said.get(writer, place)?;
        Some((saying.terminal(), saying.text()))
    }

    /// Lets the script go, and what it holds with it, without a walk to free that: for a program that is about to end.
    pub fn forget(self) {
        std::mem::forget(self);
    }
}
