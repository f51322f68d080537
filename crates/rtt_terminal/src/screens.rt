//! The texts of all terminals.
ghost use Rattle.std.specs.Prelude.{◌≡◌, ◌<◌, ◌+◌, ◌^◌, [], length, IfOk, OnOk, slice_get, Some};
ghost use Rattle.rtt_terminal.specs.Stream.{screens, screen_at, with_text};

use crate::screen::Screen;
use dl_io::Memory;
use std::alloc::Global;
use std::marker::Model;

// How many terminals there are.
const TERMINALS: usize = 16;

/// The texts of each of the 16 terminals, in their order, seen as 16 lists of texts.
#[derive(Drop)]
pub struct Screens {
    screens: Vec<Screen>,
}

impl Model for Screens {
    ghost use Rattle.std.specs.Prelude.{◌≡◌, List, ℕ, length};
    ghost use Rattle.rtt_terminal.specs.Stream.{AreFew};

    ghost Value = { List (List (List ℕ)) };

    ghost view = { λ s. s.screens.items };

    ghost invariant = { λ s. (length s.screens.items ≡ 16) × AreFew s.screens.items };
}

impl Screens {
    /// How many texts a terminal has, which is below 16. Takes no memory.
    pub fn count(&self, terminal: u8) -> u32
        requires { terminal < 16 }
        ensures { result ≡ length (screen_at self.now terminal) }
    {
        let screen = &self.screens[usize::from(terminal)];
        screen.len() as u32
    }

    /// A terminal's text at a place. The terminal is below 16, and the place below its count. Takes no memory.
    pub fn text(&self, terminal: u8, place: u32) -> &str
        requires terminal { terminal < 16 }
        requires place { place < length (screen_at self.now terminal) }
        ensures { slice_get (screen_at self.now terminal) place ≡ Some result.now }
    {
        let screen = &self.screens[usize::from(terminal)];
        screen.text(place as usize)
    }

    // No texts.
    pub(crate) fn new(alloc: Global) -> Result<Self, Memory>
        ensures { IfOk result (λ all. all ≡ screens []) }
    {
        let mut screens = Vec::new(alloc);
        'screens: while screens.len() < TERMINALS {
            screens.push(Screen::new(alloc))?;
        }
        Ok(Screens { screens })
    }

    // Puts a text behind those of a terminal.
    pub(crate) fn push(&mut self, alloc: Global, terminal: u8, text: &str) -> Result<(), Memory>
        requires terminal { terminal < 16 }
        requires few { length (screen_at self.old terminal) + 1 < 2 ^ 32 }
        ensures { OnOk result (self.new ≡ with_text self.old terminal text.now) }
    {
        self.screens[usize::from(terminal)].push(alloc, text)
    }
}
