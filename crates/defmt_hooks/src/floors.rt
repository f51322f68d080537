//! Packages with a floor of their own.
ghost use Rattle.std.specs.Prelude.{◌≡◌, [], ◌∷◌, ◌++◌, length, OnOk, OnErr};
ghost use Rattle.std.specs.List.{list_any};
ghost use Rattle.std.specs.Map.{lookup};
ghost use Rattle.std.specs.Str.{bytes_eq};

use crate::level::Floor;
use defmt_grammar::Text;
use dl_io::Memory;
use std::alloc::Global;
use std::marker::Model;

/// A list of packages, each with its floor.
pub struct Floors {
    items: Vec<(Text, Floor)>,
}

// By hand: a derived drop is proved again in each crate that drops such a value.
impl Drop for Floors {
    fn drop(self) {
        let Floors { items: _ } = self;
    }
}

impl Model for Floors {
    ghost use Rattle.std.specs.Prelude.{List, ℕ};
    ghost use Rattle.defmt_hooks.specs.declared.level.Floor.{Floor};

    ghost Value = { List (List ℕ × Floor) };

    ghost view = { λ f. f.items.items };
}

impl Floors {
    /// The empty list. It grows by this allocator. Takes no memory.
    pub fn new(alloc: Global) -> Self
        ensures { result ≡ [] }
    {
        Floors {
            items: Vec::new(alloc),
        }
    }

    /// Appends a package and its floor. Where memory runs out the list is unchanged.
    pub fn push(&mut self, item: (Text, Floor)) -> Result<(), Memory>
        ensures ok { OnOk result (self.new ≡ self.old ++ item ∷ []) }
        ensures err { OnErr result (self.new ≡ self.old) }
    {
        self.items.push(item)?;
        Ok(())
    }

    /// The packages and their floors, in their order. Takes no memory.
    pub fn as_slice(&self) -> &[(Text, Floor)]
        ensures { result.now ≡ self.now }
    {
        &self.items
    }

    /// How many packages there are. Takes no memory.
    pub fn len(&self) -> usize
        ensures { result ≡ length self.now }
    {
        self.items.len()
    }

    /// Whether a package of this name is in the list. Takes no memory.
    pub fn contains(&self, name: &str) -> bool
        ensures { result ≡ list_any (λ p. bytes_eq p.0 name.now) self.now }
    {
        self.items.iter().any(|p| p.0.as_str() == name)
    }

    /// The floor of the first pair whose package has this name, `None` where no pair's has. Takes no memory.
    pub fn get(&self, name: &str) -> Option<Floor>
        ensures { result ≡ lookup (bytes_eq name.now) self.now }
    {
        let mut left = self.as_slice();
        while let [(package, floor), more @ ..] = left {
            if name == package.as_str() {
                return Some(*floor);
            }
            left = more;
        }
        None
    }
}
