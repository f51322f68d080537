//! Which events are shown.

ghost use Rattle.std.specs.Prelude.{◌≡◌};
ghost use Rattle.defmt_decode.specs.Shown.{shows, shows_entry, shows_line};

use crate::event::Event;
use defmt_hooks::{Judge, Rules, Watch, keeps, level_of};
use defmt_intern::{Entry, Table};
use std::marker::Model;

// Whether the rules show a line of this entry.
fn shows_entry(rules: &Rules, entry: &Entry) -> bool
    ensures { result ≡ shows_entry rules.now entry.now }
{
    match level_of(&entry.tag) {
        Some(level) => keeps(rules, level, entry.package.as_str()),
        None => true,
    }
}

/// Whether rules show a line with this index: where its entry in the table is of a level, they keep that level of the entry's
/// package. Takes no memory.
pub fn shows_line(rules: &Rules, table: &Table, index: u16) -> bool
    ensures { result ≡ shows_line rules.now table.now.entries index }
{
    match table.get(index) {
        Some(entry) => shows_entry(rules, entry),
        None => true,
    }
}

/// Whether rules show an event: a line by its index, as [`shows_line`] says, and every other event always. Takes no memory.
pub fn shows(rules: &Rules, table: &Table, event: &Event) -> bool
    ensures { result ≡ shows rules.now table.now.entries event.now }
{
    match event {
        Event::Line { index, .. } => shows_line(rules, table, *index),
        Event::Bad { .. } | Event::CutFront { .. } | Event::CutTail { .. } => true,
    }
}

/// Shows the lines that a watch keeps, and every event that is no line. Contracts see it as the rules of its watch.
///
/// A println line has no level, and is always shown.
#[derive(Drop)]
pub struct Screen<'a, J: Judge> {
    watch: Watch<'a, J>,
}

impl<'a, J: Judge> Model for Screen<'a, J> {
    ghost use Rattle.defmt_hooks.specs.declared.rules.Rules.{Rules};

    ghost Value = { Rules };

    ghost view = { λ s. s.watch };
}

impl<'a, J: Judge> Screen<'a, J> {
    /// A screen behind a watch. Takes no memory.
    pub fn new(watch: Watch<'a, J>) -> Screen<'a, J>
        ensures { result ≡ watch.entry }
    {
        Screen { watch }
    }

    // Whether a line of this entry is shown.
    fn shows_entry(&self, entry: &Entry) -> bool
        ensures { result ≡ shows_entry self.now entry.now }
    {
        match level_of(&entry.tag) {
            Some(level) => self.watch.keep(level, entry.package.as_str()),
            None => true,
        }
    }

    /// Whether a line with this index is shown: where its entry in the table is of a level, the rules keep that level of the
    /// entry's package. Takes no memory.
    pub fn shows_line(&self, table: &Table, index: u16) -> bool
        ensures { result ≡ shows_line self.now table.now.entries index }
    {
        match table.get(index) {
            Some(entry) => self.shows_entry(entry),
            None => true,
        }
    }

    /// Whether an event is shown: a line by its index, as `shows_line` says, and every other event always. Takes no memory.
    pub fn shows(&self, table: &Table, event: &Event) -> bool
        ensures { result ≡ shows self.now table.now.entries event.now }
    {
        match event {
            Event::Line { index, .. } => self.shows_line(table, *index),
            Event::Bad { .. } | Event::CutFront { .. } | Event::CutTail { .. } => true,
        }
    }
}
