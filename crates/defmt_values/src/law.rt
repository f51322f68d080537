//! The law on first causes.
ghost use Rattle.std.specs.Prelude.{◌≡◌, ◌⊎◌, ℕ};
ghost use Rattle.defmt_intern.specs.Table.{Map};
ghost use Rattle.defmt_values.specs.Faults.{StatementFault};
ghost use Rattle.defmt_values.specs.Fits.{Fits};
ghost use Rattle.defmt_values.specs.Plain.{Vals};

/// A statement fits, or has a first cause for which it doesn't; it has one at most, and never both.
pub fn one_cause()
    ensures some { (t : Map) (index : ℕ) (vs : Vals)
        → Fits t index vs ⊎ ((cause : ℕ) × StatementFault t index vs cause) }
    ensures one { (t : Map) (index : ℕ) (vs : Vals) (a b : ℕ) → StatementFault t index vs a
        → StatementFault t index vs b → a ≡ b }
    ensures never_both { (t : Map) (index : ℕ) (vs : Vals) (cause : ℕ) → Fits t index vs
        → StatementFault t index vs cause → ⊥ }
{}
