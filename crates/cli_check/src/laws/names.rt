//! The names of caveats.

ghost use Rattle.std.specs.Prelude.{ℕ};
ghost use Rattle.slot_caveats.specs.declared.caveat.Caveat.{Caveat};
ghost use Rattle.cli_caveats.specs.Texts.{caveat_text};
ghost use Rattle.check_lines.specs.Counting.{held_line, skipped_line};
ghost use Rattle.check_require.specs.Names.{caveat_name};
ghost use Rattle.check_require.specs.declared.caveats.CaveatName.TheVariants.{HeldSector, SkippedBlock};
ghost use Rattle.cli_check.specs.Names.{HasName};
ghost use Rattle.cli_check.specs.Reporting.{name_of};

/// A team allows a caveat by the first word behind `caveat` in its line.
pub fn names_are_first_words()
    ensures contents { (x : Caveat) → HasName (caveat_text x) (caveat_name (name_of x)) }
    ensures held { (event : ℕ) → HasName (held_line event) (caveat_name HeldSector) }
    ensures skipped { (event : ℕ) → HasName (skipped_line event) (caveat_name SkippedBlock) }
{}
