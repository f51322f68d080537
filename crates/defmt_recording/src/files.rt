//! What is loaded before anything is read: the table, and the places of its statements in the sources.
ghost use Rattle.std.specs.Prelude.{◌≡◌, ◌≤◌, length, Ok, IfOk, IfErr};
ghost use Rattle.elf_table.specs.Names.{NamesTable};
ghost use Rattle.defmt_recording.specs.Calls.{files_of};
ghost use Rattle.defmt_recording.specs.Decoding.{ArePlaces, IsFile, Loaded, PlacesAt, RefusesFile, RefusesFiles, RefusesName, RefusesPlaces, RefusesPlacesAt, RefusesPlacesFile, RefusesTable, table_limit};
ghost use Rattle.defmt_places.specs.Places.{places_in};

use crate::fault::Fault;
use defmt_decode::PlannedTable;
use defmt_grammar::{Language, Text};
use defmt_intern::Table;
use defmt_places::{Places, PlacesFault, read_places};
use dl_io::{Bytes, ReadFault, Shelf, fetch_all};
use elf_table::{LoadFault, read_table};
use std::alloc::Global;

const FILE_LIMIT: usize = 67_108_864;

/// The table of this language that the file of this name names, with plans, and the places that another file tells, none where no file
/// is named.
pub fn load<F: Shelf>(
    alloc: Global,
    table: &str,
    language: Language,
    places: &Option<Text>,
    shelf: &mut F,
) -> Result<(PlannedTable, Places), Fault>
    ensures loaded { IfOk result (λ r. Loaded language (files_of F.files F.faults shelf.old shelf.new)
        table.now r.0) }
    ensures places { IfOk result (λ r. ArePlaces (files_of F.files F.faults shelf.old shelf.new)
        places.now r.1) }
    ensures refused { IfErr result (λ fault. RefusesFiles language
        (files_of F.files F.faults shelf.old shelf.new) table.now places.now fault) }
    ensures later { F.faults shelf.old ≤ F.faults shelf.new }
    ensures files { F.files shelf.new ≡ F.files shelf.old }
{
    let planned = load_table(alloc, table, language, shelf)?;
    match load_places(alloc, places, shelf) {
        Ok(places) => Ok((planned, places)),
        Err(fault) => Err(fault),
    }
}

// The table that the file of this name names.
fn load_table<F: Shelf>(
    alloc: Global,
    name: &str,
    language: Language,
    shelf: &mut F,
) -> Result<PlannedTable, Fault>
    ensures loaded { IfOk result (λ table. Loaded language
        (files_of F.files F.faults shelf.old shelf.new) name.now table) }
    ensures refused { IfErr result (λ fault. RefusesTable language
        (files_of F.files F.faults shelf.old shelf.new) name.now fault) }
    ensures later { F.faults shelf.old ≤ F.faults shelf.new }
    ensures files { F.files shelf.new ≡ F.files shelf.old }
{
    let file = match fetch(alloc, name, shelf) {
        Ok(file) => file,
        Err(fault) => return Err(fault),
    };
    match planned_of(alloc, file.as_slice(), language) {
        Ok(table) => Ok(table),
        Err(fault) => Err(fault),
    }
}

// The places that the file of this name tells, none where no file is named.
fn load_places<F: Shelf>(alloc: Global, name: &Option<Text>, shelf: &mut F) -> Result<Places, Fault>
    ensures places { IfOk result (λ places. ArePlaces
        (files_of F.files F.faults shelf.old shelf.new) name.now places) }
    ensures refused { IfErr result (λ fault. RefusesPlaces
        (files_of F.files F.faults shelf.old shelf.new) name.now fault) }
    ensures later { F.faults shelf.old ≤ F.faults shelf.new }
    ensures files { F.files shelf.new ≡ F.files shelf.old }
{
    match name {
        None => Ok(Places::new(alloc)),
        Some(name) => places_at(alloc, name.as_str(), shelf),
    }
}

fn places_at<F: Shelf>(alloc: Global, name: &str, shelf: &mut F) -> Result<Places, Fault>
    ensures places { IfOk result (λ places. PlacesAt
        (files_of F.files F.faults shelf.old shelf.new) name.now places) }
    ensures refused { IfErr result (λ fault. RefusesPlacesAt
        (files_of F.files F.faults shelf.old shelf.new) name.now fault) }
    ensures later { F.faults shelf.old ≤ F.faults shelf.new }
    ensures files { F.files shelf.new ≡ F.files shelf.old }
{
    let file = match fetch(alloc, name, shelf) {
        Ok(file) => file,
        Err(fault) => return Err(fault),
    };
    match places_of(alloc, file.as_slice()) {
        Ok(places) => Ok(places),
        Err(fault) => Err(fault),
    }
}

// The places that a file tells.
fn places_of(alloc: Global, file: &[u8]) -> Result<Places, Fault>
    requires { length file.now ≤ table_limit }
    ensures told { IfOk result (λ places. places_in file.now ≡ Ok places) }
    ensures refused { IfErr result (λ fault. RefusesPlacesFile file.now fault) }
{
    match read_places(alloc, file) {
        Ok(places) => Ok(places),
        Err(PlacesFault::Refused { line, cause }) => Err(Fault::Places { line, cause }),
        Err(PlacesFault::Memory) => Err(Fault::Memory),
    }
}

fn fetch<F: Shelf>(alloc: Global, name: &str, shelf: &mut F) -> Result<Bytes, Fault>
    ensures fetched { IfOk result (λ file. IsFile (F.files shelf.old) name.now file.items) }
    ensures within { IfOk result (λ file. length file.items ≤ table_limit) }
    ensures refused { IfErr result (λ fault. RefusesName
        (files_of F.files F.faults shelf.old shelf.new) name.now fault) }
    ensures later { F.faults shelf.old ≤ F.faults shelf.new }
    ensures files { F.files shelf.new ≡ F.files shelf.old }
{
    match fetch_all(alloc, shelf, name, FILE_LIMIT) {
        Ok(file) => Ok(file),
        Err(ReadFault::Failed) => Err(Fault::Shelf),
        Err(ReadFault::Long { .. }) => Err(Fault::Long),
        Err(ReadFault::Memory) => Err(Fault::Memory),
    }
}

fn planned_of(alloc: Global, file: &[u8], language: Language) -> Result<PlannedTable, Fault>
    requires { length file.now ≤ table_limit }
    ensures names { IfOk result (λ table. NamesTable language file.now table) }
    ensures refused { IfErr result (λ fault. RefusesFile language file.now fault) }
{
    let table = table_of(alloc, file, language)?;
    Ok(PlannedTable::new(alloc, table)?)
}

fn table_of(alloc: Global, file: &[u8], language: Language) -> Result<Table, Fault>
    requires { length file.now ≤ table_limit }
    ensures names { IfOk result (λ table. NamesTable language file.now table) }
    ensures refused { IfErr result (λ fault. RefusesFile language file.now fault) }
{
    match read_table(alloc, file, language) {
        Ok(table) => Ok(table),
        Err(LoadFault::Elf { cause, part, place }) => Err(Fault::Elf { cause, part, place }),
        Err(LoadFault::Names { cause, symbol }) => Err(Fault::Names { cause, symbol }),
        Err(LoadFault::Memory) => Err(Fault::Memory),
    }
}
