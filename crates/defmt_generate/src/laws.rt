//! Laws of generated scripts.
ghost use Rattle.std.specs.Prelude.{◌≡◌, ◌≤◌, ◌++◌, ℕ, Ok, length};
ghost use Rattle.std.specs.Str.Lines.{lines};
ghost use Rattle.defmt_generate.specs.Generated.{generated};
ghost use Rattle.defmt_generate.specs.Lines.{head_lines, statement_lines};
ghost use Rattle.defmt_script.specs.Reads.{Reads};
ghost use Rattle.defmt_script.specs.Script.{Script, count_all};

/// A generated script is no longer than a script may be, 4,194,304 bytes.
pub fn scripts_are_short()
    ensures { (count : ℕ) → count ≤ 4096 → length (generated count) ≤ 4194304 }
{}

/// The lines of a generated text are the nine that set it up and one for each statement.
pub fn generated_lines()
    ensures { (count : ℕ) → lines (generated count) ≡ head_lines ++ statement_lines 0 count }
{}

/// A generated text reads as a script, which has so many statements.
pub fn generated_reads()
    ensures { (count : ℕ) → count ≤ 4096
        → (script : Script) × Reads (generated count) (Ok script)
        × (count_all script.writers ≡ count) }
{}
