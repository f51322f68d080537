//! An entry together with what its text stands for.

ghost use Rattle.std.specs.Prelude.{◌≤◌, length};

use crate::entry::Entry;
use crate::parsed::Parsed;

/// What a table keeps at an index. What the text stands for was read in the table's language.
#[derive(Drop)]
pub struct Kept {
    pub entry: Entry,
    pub parsed: Parsed,
    ghost short: { length entry.text ≤ 4096 },
}
