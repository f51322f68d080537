//! The texts of one terminal.
ghost use Rattle.std.specs.Prelude.{◌≡◌, ◌<◌, [], ◌∷◌, ◌++◌, length, OnOk, OnErr, slice_get, Some};

use dl_io::Memory;
use std::alloc::Global;
use std::marker::Model;

/// Texts in their order, seen as the list of them.
#[derive(Drop)]
pub struct Screen {
    texts: Vec<String>,
}

impl Model for Screen {
    ghost use Rattle.std.specs.Prelude.{List, ℕ, map, string_bytes};

    ghost Value = { List (List ℕ) };

    ghost view = { λ s. map string_bytes s.texts.items };
}

impl Screen {
    /// No texts. They grow by this allocator. Takes no memory.
    pub fn new(alloc: Global) -> Self
        ensures { result ≡ [] }
    {
        Screen {
            texts: Vec::new(alloc),
        }
    }

    /// Puts a text behind the others. On `Memory` they stay.
    pub fn push(&mut self, alloc: Global, text: &str) -> Result<(), Memory>
        ensures ok { OnOk result (self.new ≡ self.old ++ text.now ∷ []) }
        ensures err { OnErr result (self.new ≡ self.old) }
    {
        self.texts.push(String::from_str(alloc, text)?)?;
        Ok(())
    }

    /// How many texts there are.
    pub fn len(&self) -> usize
        ensures { result ≡ length self.now }
    {
        self.texts.len()
    }

    /// The text at a place.
    pub fn text(&self, place: usize) -> &str
        requires { place < length self.now }
        ensures { slice_get self.now place ≡ Some result.now }
    {
        self.texts[place].as_str()
    }
}
