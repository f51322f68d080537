//! Why rules are not read.

use dl_io::Memory;

/// Why rules weren't read.
#[derive(Clone, Copy, Debug, Drop)]
pub enum RuleFault {
    /// The text spells no rules.
    Spelling,
    /// Want of memory.
    Memory,
}

impl From<Memory> for RuleFault {
    ghost use Rattle.std.specs.Prelude.{◌≡◌};
    ghost use Rattle.defmt_hooks.specs.declared.fault.RuleFault.TheVariants.{Memory as OutOfMemory};

    ghost from_gives = { λ _ e. e ≡ OutOfMemory };

    fn from(_: Memory) -> RuleFault {
        RuleFault::Memory
    }
}

impl From<defmt_grammar::Memory> for RuleFault {
    ghost use Rattle.std.specs.Prelude.{◌≡◌};
    ghost use Rattle.defmt_hooks.specs.declared.fault.RuleFault.TheVariants.{Memory as OutOfMemory};

    ghost from_gives = { λ _ e. e ≡ OutOfMemory };

    fn from(_: defmt_grammar::Memory) -> RuleFault {
        RuleFault::Memory
    }
}
