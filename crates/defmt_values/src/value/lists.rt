//! The lists of elements and of values with format strings of their own.
ghost use Rattle.std.specs.Prelude.{◌≡◌, OnOk, OnErr};
ghost use Rattle.defmt_values.specs.Plain.{no_elems, no_nodes, snoc_elem, snoc_node, elems_len, elems_empty, nodes_len, nodes_empty};
ghost use Rattle.defmt_values.specs.Sound.{ElemsSound, NodesSound};
ghost use Rattle.defmt_values.specs.View.{elems_of, nodes_of};

use super::{Item, Items, Node, Nodes};
use dl_io::Memory;
use std::alloc::Global;

impl Items {
    /// The empty list. It grows by this allocator. Takes no memory.
    pub fn new(alloc: Global) -> Self
        ensures { result ≡ no_elems }
    {
        Items {
            items: Vec::new(alloc),
        }
    }

    /// The elements in their order. Takes no memory.
    pub fn as_slice(&self) -> &[Item]
        ensures { self.now ≡ elems_of result.now }
    {
        self.items.as_slice()
    }

    /// How many elements there are. Takes no memory.
    #[tactic(auto, using(crate::proofs::Pushes::elems_count))]
    pub fn len(&self) -> usize
        ensures { result ≡ elems_len self.now }
    {
        self.items.len()
    }

    /// Whether there is none. Takes no memory.
    #[tactic(auto, using(crate::proofs::Pushes::elems_none))]
    pub fn is_empty(&self) -> bool
        ensures { result ≡ elems_empty self.now }
    {
        self.items.is_empty()
    }

    /// Appends an element. Where memory runs out the list is unchanged.
    pub fn push(&mut self, item: Item) -> Result<(), Memory>
        ensures ok { OnOk result (self.new ≡ snoc_elem self.old item.variant item.args) }
        ensures err { OnErr result (self.new ≡ self.old) }
    {
        item.args.are_sound();
        self.items.push(item)?;
        Ok(())
    }

    /// What the types of the values in the elements say of them. Takes no memory.
    pub fn are_sound(&self)
        ensures { ElemsSound self.now }
    {
        let _ = &self.items;
    }
}

impl Nodes {
    /// The empty list. It grows by this allocator. Takes no memory.
    pub fn new(alloc: Global) -> Self
        ensures { result ≡ no_nodes }
    {
        Nodes {
            items: Vec::new(alloc),
        }
    }

    /// The values in their order. Takes no memory.
    pub fn as_slice(&self) -> &[Node]
        ensures { self.now ≡ nodes_of result.now }
    {
        self.items.as_slice()
    }

    /// How many values there are. Takes no memory.
    #[tactic(auto, using(crate::proofs::Pushes::nodes_count))]
    pub fn len(&self) -> usize
        ensures { result ≡ nodes_len self.now }
    {
        self.items.len()
    }

    /// Whether there is none. Takes no memory.
    #[tactic(auto, using(crate::proofs::Pushes::nodes_none))]
    pub fn is_empty(&self) -> bool
        ensures { result ≡ nodes_empty self.now }
    {
        self.items.is_empty()
    }

    /// Appends a value. Where memory runs out the list is unchanged.
    pub fn push(&mut self, item: Node) -> Result<(), Memory>
        ensures ok { OnOk result (self.new ≡ snoc_node self.old item.index item.variant item.args) }
        ensures err { OnErr result (self.new ≡ self.old) }
    {
        item.args.are_sound();
        self.items.push(item)?;
        Ok(())
    }

    /// What the types of the values inside say of them. Takes no memory.
    pub fn are_sound(&self)
        ensures { NodesSound self.now }
    {
        let _ = &self.items;
    }
}
