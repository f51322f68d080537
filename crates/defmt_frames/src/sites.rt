//! The sites of a script.
ghost use Rattle.std.specs.Prelude.{◌≡◌, ◌≤◌, ℕ, length, IfOk, IsSome, OnOk};
ghost use Rattle.std.specs.Option.{option_copied};
ghost use Rattle.defmt_script.specs.Script.{statements_by};
ghost use Rattle.defmt_macros.specs.declared.site.SiteFault.TheVariants.{Memory as OutOfMemory};
ghost use Rattle.defmt_frames.specs.Sites.{AreSitesOf, HasSites, HaveSites, IsMessage, IsPut, IsSiteOf, Keeps, row_at, site_at};

use defmt_intern::{Parsed, Table};
use defmt_macros::{Site, SiteFault};
use defmt_script::{Script, WRITERS};
use defmt_values::look_up;
use dl_io::Memory;
use std::alloc::Global;

/// For each string that a script's statements log, its site, by the string's index.
pub struct Sites {
    // At an index its site, where there is one.
    rows: Vec<Option<Site>>,
}

// By hand: a derived drop is proved again in each crate that drops such a value.
impl Drop for Sites {
    fn drop(self) {
        let Sites { rows: _ } = self;
    }
}

// The site of the string at an index, which is a message's.
fn site_of(alloc: Global, table: &Table, index: u16) -> Result<Site, Memory>
    requires { IsMessage table.now.entries index }
    ensures { IfOk result (λ site. IsSiteOf table.now.entries index site) }
{
    let Some((_, body)) = look_up(table, index) else {
        unreachable!()
    };
    let Parsed::One(pieces) = body else {
        unreachable!()
    };
    // The string is a message's with these slots, so nothing but memory can be missing.
    match Site::new(alloc, table, index, pieces.slots()) {
        Ok(site) => Ok(site),
        Err(fault) => Err(want_of(fault)),
    }
}

// The want of memory that a fault is.
fn want_of(fault: SiteFault) -> Memory
    requires { fault ≡ OutOfMemory }
{
    let SiteFault::Memory = fault else {
        unreachable!()
    };
    Memory
}

impl Sites {
    /// The sites of a script's statements, each string's once.
    ///
    /// # Errors
    /// `Memory` where there is none.
    pub fn of(alloc: Global, script: &Script) -> Result<Sites, Memory>
        ensures { IfOk result (λ sites. HasSites script.now sites) }
    {
        script.lawful();
        let mut sites = Sites {
            rows: Vec::new(alloc),
        };
        for writer in 0..WRITERS {
            sites.add_all(alloc, script, writer)?;
        }
        Ok(sites)
    }

    // Adds those of the sites of a writer's statements that aren't there yet.
    fn add_all(&mut self, alloc: Global, script: &Script, writer: u8) -> Result<(), Memory>
        requires own { AreSitesOf script.now.table self.old }
        ensures own { OnOk result (AreSitesOf script.now.table self.new) }
        ensures kept { OnOk result (Keeps self.old self.new) }
        ensures all { OnOk result (HaveSites self.new (statements_by script.now writer)) }
    {
        script.lawful();
        let statements = script.statements(writer);
        for place in 0..statements.len() {
            self.add(alloc, script.table(), statements[place].index)?;
        }
        Ok(())
    }

    // Adds the site of the string at an index, which is a message's, where it isn't there yet.
    fn add(&mut self, alloc: Global, table: &Table, index: u16) -> Result<(), Memory>
        requires own { AreSitesOf table.now.entries self.old }
        requires message { IsMessage table.now.entries index }
        ensures own { OnOk result (AreSitesOf table.now.entries self.new) }
        ensures kept { OnOk result (Keeps self.old self.new) }
        ensures there { OnOk result (IsSome (site_at self.new index)) }
    {
        if self.get(index).is_some() {
            return Ok(());
        }
        let site = site_of(alloc, table, index)?;
        put(&mut self.rows, index, site)?;
        Ok(())
    }

    // The site of the string at an index, where there is one. Takes no memory.
    pub(crate) fn get(&self, index: u16) -> Option<&Site>
        ensures { option_copied result ≡ site_at self.now index }
    {
        row(self.rows.as_slice(), index)
    }
}

// The site of a row.
fn row(rows: &[Option<Site>], index: u16) -> Option<&Site>
    ensures { option_copied result ≡ row_at rows.now index }
{
    match rows.get(index as usize) {
        Some(Some(site)) => Some(site),
        _ => None,
    }
}

// Makes rows without sites until there are this many.
fn grow(rows: &mut Vec<Option<Site>>, count: usize) -> Result<(), Memory>
    ensures room { OnOk result (count ≤ length rows.new.items) }
    ensures kept { (q : ℕ) → row_at rows.new.items q ≡ row_at rows.old.items q }
{
    'each: while rows.len() < count {
        rows.push(None)?;
    }
    Ok(())
}

// Puts a site into the row of its index.
fn put(rows: &mut Vec<Option<Site>>, index: u16, site: Site) -> Result<(), Memory>
    ensures { OnOk result (IsPut rows.old.items index site rows.new.items) }
{
    let place = index as usize;
    grow(rows, place + 1)?;
    rows[place] = Some(site);
    Ok(())
}
