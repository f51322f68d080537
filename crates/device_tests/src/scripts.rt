//! Scripts of rows, their stamps and sites, and what rows tell of a run.
ghost use Rattle.std.specs.Prelude.{◌≡◌, ◌≤◌, ◌+◌, ◌*◌, IfOk};
ghost use Rattle.defmt_frames.specs.Frames.{pace_of};
ghost use Rattle.defmt_macros.specs.Sites.{IsSite};

use defmt_hooks::{Clock, Stamp};
use defmt_intern::Table;
use defmt_logger::{Mark, Tape};
use defmt_macros::Site;
use defmt_script::{Script, read};
use defmt_values::own_form;
use std::alloc::Global;
use std::fmt::Write;
use std::test::Fail;
use test_rows::{put_digits, put_str};

pub(crate) fn script_of(alloc: Global, text: &str) -> Result<Script, Fail> {
    if text.len() > 10_000 {
        return Err(Fail::new("a long script"));
    }
    Ok(read(alloc, text.as_bytes())?)
}

// A clock that counts by a base and a step.
#[derive(Drop)]
pub(crate) struct Even {
    base: u64,
    step: u64,
    ghost within: { (base ≤ 281474976710656) × (step ≤ 281474976710656) },
}

impl Clock for Even {
    ghost ready = { λ e t. t ≤ 4096 };

    ghost gives = { λ e t stamp. stamp ≡ e.base + e.step * t };

    fn tick(&self, t: u32) -> u64 {
        self.base + self.step * u64::from(t)
    }
}

// The stamp of a script.
pub(crate) fn stamp_of(script: &Script) -> Stamp<Even>
    ensures { result ≡ pace_of script.now.settings.stamp }
{
    script.lawful();
    match script.stamp() {
        Some((base, step)) => Stamp::new(base, step, Even { base, step }),
        None => Stamp::new(0, 0, Even { base: 0, step: 0 }),
    }
}

// The site of an entry, with the slots of the entry's own text.
pub(crate) fn site_at(alloc: Global, table: &Table, index: u16) -> Result<Site, Fail>
    ensures { IfOk result (λ site. IsSite table.now.entries site.index site.tag site.slots) }
{
    let Ok(pieces) = own_form(table, index) else {
        return Err(Fail::new("no text"));
    };
    match Site::new(alloc, table, index, pieces.slots()) {
        Ok(site) => Ok(site),
        Err(_) => Err(Fail::new("no site")),
    }
}

// Puts the digits of bytes, or that there are none.
pub(crate) fn put_digits_or_nothing(out: &mut String, bytes: &[u8]) -> Result<(), Fail> {
    if bytes.is_empty() {
        return put_str(out, "nothing");
    }
    put_digits(out, bytes)
}

// Puts a line for each mark: the writer, the place, the stamp and what became of the frame.
pub(crate) fn put_marks(out: &mut String, tape: &Tape) -> Result<(), Fail> {
    for mark in tape.as_slice() {
        let Mark {
            writer,
            place,
            stamp,
            fate,
        } = *mark;
        write!(out, "{writer}.{place} at {stamp} {fate:?}\n")?;
    }
    Ok(())
}
