//! The symbols that mark the wire version, the encoding and the profile.

ghost use Rattle.std.specs.Prelude.{◌<◌, MatchBool};
ghost use Rattle.elf_section.specs.Checks.{Passed, Goes, Tells, SaysIn, SaysAny, IsSaid, HasMarker, SayProfile};
ghost use Rattle.elf_section.specs.Bytes.{MaySay};
ghost use Rattle.elf_section.specs.Table.{IsOpen};

use crate::bytes::{behind, unquoted};
use crate::fault::{Cause, Fault};
use crate::table::{SymbolTable, first_byte, symbol_name};
use defmt_intern::Profile;

// Whether a name that begins with this byte may say something behind a front.
fn may_say(first: u8, front: &[u8]) -> bool
    ensures { MaySay first front.now result }
{
    match front {
        [] => true,
        [byte, ..] => first == *byte || first == b'"',
    }
}

// What a symbol says behind a front.
fn says<'a>(file: &[u8], table: &SymbolTable<'a>, k: u64, front: &[u8]) -> Option<&'a [u8]>
    requires open { IsOpen file.now table.now }
    requires above { 0 < k }
    requires below { k < table.now.count }
    ensures { SaysIn file.now table.now.number front.now k result }
{
    if !may_say(first_byte(file, table, k), front) {
        return None;
    }
    match symbol_name(file, table, k) {
        Some(name) => behind(unquoted(name), front),
        None => None,
    }
}

// Whether a symbol says something behind a front.
fn says_any(file: &[u8], table: &SymbolTable<'_>, k: u64, front: &[u8]) -> bool
    requires open { IsOpen file.now table.now }
    requires above { 0 < k }
    requires below { k < table.now.count }
    ensures { MatchBool result (SaysAny file.now table.now.number front.now k)
        (SaysAny file.now table.now.number front.now k → ⊥) }
{
    match says(file, table, k, front) {
        Some(_) => true,
        None => false,
    }
}

// Whether some symbol does.
fn is_said(file: &[u8], table: &SymbolTable<'_>, front: &[u8]) -> bool
    requires { IsOpen file.now table.now }
    ensures { MatchBool result (IsSaid file.now table.now.number front.now)
        (IsSaid file.now table.now.number front.now → ⊥) }
{
    for k in 1..table.count {
        if says_any(file, table, k, front) {
            return true;
        }
    }
    false
}

// Whether some symbol says this value behind the front, and none another.
fn has_marker(file: &[u8], table: &SymbolTable<'_>, front: &[u8], value: &[u8]) -> bool
    requires { IsOpen file.now table.now }
    ensures { MatchBool result (HasMarker file.now table.now.number front.now value.now)
        (HasMarker file.now table.now.number front.now value.now → ⊥) }
{
    let mut seen = false;
    'symbols: for k in 1..table.count {
        if let Some(rest) = says(file, table, k, front) {
            if rest != value {
                return false;
            }
            seen = true;
        }
    }
    seen
}

/// The markers of the version and the encoding.
pub fn check_markers(file: &[u8], table: &SymbolTable<'_>) -> Result<(), Fault>
    requires open { IsOpen file.now table.now }
    requires passed { Passed file.now 15 }
    ensures { Goes file.now 17 result }
{
    if !has_marker(file, table, b"_defmt_version_ = ", b"4") {
        return Err(Cause::Version.alone());
    }
    if !has_marker(file, table, b"_defmt_encoding_ = ", b"rzcobs") {
        return Err(Cause::Encoding.alone());
    }
    Ok(())
}

// The profile that the symbols say, the first where none speaks of one.
fn said_profile(file: &[u8], table: &SymbolTable<'_>) -> Option<Profile>
    requires { IsOpen file.now table.now }
    ensures { SayProfile file.now table.now.number result }
{
    if !is_said(file, table, b"_defmt_profile_ = ") {
        return Some(Profile::One);
    }
    if has_marker(file, table, b"_defmt_profile_ = ", b"1") {
        return Some(Profile::One);
    }
    if has_marker(file, table, b"_defmt_profile_ = ", b"2") {
        return Some(Profile::Two);
    }
    None
}

/// The marker of the profile.
pub fn check_profile(file: &[u8], table: &SymbolTable<'_>) -> Result<Profile, Fault>
    requires open { IsOpen file.now table.now }
    requires passed { Passed file.now 17 }
    ensures { Tells file.now result }
{
    match said_profile(file, table) {
        Some(profile) => Ok(profile),
        None => Err(Cause::Profile.alone()),
    }
}
