//! Values of arguments, and the lists of them.
ghost use Rattle.std.specs.Prelude.{◌≡◌, IfOk, OnOk, OnErr, map};
ghost use Rattle.std.specs.List.{slice_get};
ghost use Rattle.std.specs.Option.{option_copied, option_map};
ghost use Rattle.defmt_values.specs.Plain.{vals_get, no_vals, snoc, vals_len, vals_empty};
ghost use Rattle.defmt_values.specs.Sound.{AreSound};
ghost use Rattle.defmt_values.specs.View.{plain, vals_of};

mod lists;

use crate::sound::value_is_sound;
use defmt_grammar::Text;
use dl_io::{Bytes, Memory};
use std::alloc::Global;
use std::marker::Model;

/// A value of one argument (defmt book, the types that a format string names).
#[cycle(values)]
#[derive(Drop)]
pub enum Value {
    /// An unsigned number of any width.
    Uint(u128),
    /// A signed number of any width.
    Int(i128),
    /// A truth value.
    Bool(bool),
    /// A character.
    Char(char),
    /// A text that is sent whole.
    Str(Text),
    /// The index of an interned text.
    Istr(u16),
    /// Bytes, also those of a byte array.
    Bytes(Bytes),
    /// A number whose bits are shown in parts.
    Bits(u128),
    /// A value with a format string of its own.
    Format(Node),
    /// A list of values of one entry.
    Seq(Seq),
    /// The bits of a float.
    Float(u64),
    /// Values with format strings of their own, one behind the other.
    Sequence(Nodes),
}

/// What is logged: the index of an entry, and the arguments of its text.
pub struct Statement {
    /// The index of the entry in the table.
    pub index: u16,
    /// The arguments in the order of their positions.
    pub args: Args,
}

// By hand: a derived drop is proved again in each crate that drops such a value.
impl Drop for Statement {
    fn drop(self) {
        let Statement { index: _, args: _ } = self;
    }
}

/// A value with a format string of its own.
#[cycle(values)]
#[derive(Drop)]
pub struct Node {
    /// The index of its entry in the table.
    pub index: u16,
    /// The number of its variant, where the entry is an enum.
    pub variant: Option<u8>,
    /// The arguments of the entry's text, or of the variant's.
    pub args: Args,
}

/// A list of values of one entry.
#[cycle(values)]
#[derive(Drop)]
pub struct Seq {
    /// The index of their entry, `None` exactly where there are none.
    pub index: Option<u16>,
    /// The elements in their order.
    pub items: Items,
}

/// An element of a list.
#[cycle(values)]
#[derive(Drop)]
pub struct Item {
    /// The number of its variant, where the list's entry is an enum.
    pub variant: Option<u8>,
    /// The arguments of the entry's text, or of the variant's.
    pub args: Args,
}

/// A list of values.
#[cycle(values)]
pub struct Args {
    items: Vec<Value>,
}

// By hand: a derived drop is proved again in each crate that drops such a value.
impl Drop for Args {
    #[cycle(values)]
    fn drop(self) {
        let Args { items: _ } = self;
    }
}

impl Model for Args {
    ghost use Rattle.defmt_values.specs.Plain.{Vals};
    ghost use Rattle.defmt_values.specs.Codes.{coded_vals};

    ghost Value = { Vals };

    ghost coded = { coded_vals };

    ghost use Rattle.std.specs.Prelude.{map};
    ghost use Rattle.defmt_values.specs.Plain.{vals_size};
    ghost use Rattle.defmt_values.specs.View.{plain, vals_of};

    ghost view = { λ a. vals_of (map plain a.items.items) };

    ghost use Rattle.defmt_values.specs.Sound.{AreSound};

    ghost invariant = { λ a. AreSound (vals_of (map plain a.items.items)) };

    ghost size = { vals_size };

    ghost use Rattle.defmt_values.specs.Falls.{values_fall};

    ghost size_decreases = { λ a h. values_fall a.items.items };
}

/// A list of elements.
#[cycle(values)]
pub struct Items {
    items: Vec<Item>,
}

// By hand: a derived drop is proved again in each crate that drops such a value.
impl Drop for Items {
    #[cycle(values)]
    fn drop(self) {
        let Items { items: _ } = self;
    }
}

impl Model for Items {
    ghost use Rattle.defmt_values.specs.Plain.{Elems};
    ghost use Rattle.defmt_values.specs.Codes.{coded_elems};

    ghost Value = { Elems };

    ghost coded = { coded_elems };

    ghost use Rattle.defmt_values.specs.Plain.{elems_size};
    ghost use Rattle.defmt_values.specs.View.{elems_of};

    ghost view = { λ a. elems_of a.items.items };

    ghost use Rattle.defmt_values.specs.Sound.{ElemsSound};

    ghost invariant = { λ a. ElemsSound (elems_of a.items.items) };

    ghost size = { elems_size };

    ghost use Rattle.defmt_values.specs.Falls.{items_fall};

    ghost size_decreases = { λ a h. items_fall a.items.items };
}

/// A list of values with format strings of their own.
#[cycle(values)]
pub struct Nodes {
    items: Vec<Node>,
}

// By hand: a derived drop is proved again in each crate that drops such a value.
impl Drop for Nodes {
    #[cycle(values)]
    fn drop(self) {
        let Nodes { items: _ } = self;
    }
}

impl Model for Nodes {
    ghost use Rattle.defmt_values.specs.Plain.{Nodes};
    ghost use Rattle.defmt_values.specs.Codes.{coded_nodes};

    ghost Value = { Nodes };

    ghost coded = { coded_nodes };

    ghost use Rattle.defmt_values.specs.Plain.{nodes_size};
    ghost use Rattle.defmt_values.specs.View.{nodes_of};

    ghost view = { λ a. nodes_of a.items.items };

    ghost use Rattle.defmt_values.specs.Sound.{NodesSound};

    ghost invariant = { λ a. NodesSound (nodes_of a.items.items) };

    ghost size = { nodes_size };

    ghost use Rattle.defmt_values.specs.Falls.{nodes_fall};

    ghost size_decreases = { λ a h. nodes_fall a.items.items };
}

impl Args {
    /// The empty list. It grows by this allocator. Takes no memory.
    pub fn new(alloc: Global) -> Self
        ensures { result ≡ no_vals }
    {
        Args {
            items: Vec::new(alloc),
        }
    }

    /// An empty list that asks for room for so many values. It grows by this allocator.
    pub fn with_room(alloc: Global, count: usize) -> Result<Self, Memory>
        ensures { IfOk result (λ args. args ≡ no_vals) }
    {
        Ok(Args {
            items: Vec::with_capacity(alloc, count)?,
        })
    }

    /// Takes all values out. Takes no memory.
    pub fn clear(&mut self)
        ensures { self.new ≡ no_vals }
    {
        self.items.clear();
    }

    /// The values in their order. Takes no memory.
    pub fn as_slice(&self) -> &[Value]
        ensures { self.now ≡ vals_of (map plain result.now) }
    {
        self.items.as_slice()
    }

    /// The value of a position. Takes no memory.
    pub fn get(&self, position: u8) -> Option<&Value>
        ensures { option_map (λ v. plain v.now) result ≡ vals_get self.now position }
    {
        at(self.as_slice(), position)
    }

    /// How many values there are. Takes no memory.
    #[tactic(auto, using(crate::proofs::Pushes::vals_count))]
    pub fn len(&self) -> usize
        ensures { result ≡ vals_len self.now }
    {
        self.items.len()
    }

    /// Whether there is none. Takes no memory.
    #[tactic(auto, using(crate::proofs::Pushes::vals_none))]
    pub fn is_empty(&self) -> bool
        ensures { result ≡ vals_empty self.now }
    {
        self.items.is_empty()
    }

    /// Appends a value. Where memory runs out the list is unchanged.
    pub fn push(&mut self, item: Value) -> Result<(), Memory>
        ensures ok { OnOk result (self.new ≡ snoc self.old (plain item)) }
        ensures err { OnErr result (self.new ≡ self.old) }
    {
        value_is_sound(&item);
        self.items.push(item)?;
        Ok(())
    }

    /// What the types of the values say of them. Takes no memory.
    pub fn are_sound(&self)
        ensures { AreSound self.now }
    {
        let _ = &self.items;
    }
}

fn at(values: &[Value], position: u8) -> Option<&Value>
    ensures { option_copied result ≡ slice_get values.now position }
{
    values.get(usize::from(position))
}
