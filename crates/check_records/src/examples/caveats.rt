//! Worked caveats of scripts, by computing.

ghost use Rattle.std.specs.Prelude.{◌≡◌, ◌∷◌, [], false, true};
ghost use Rattle.pico_board.specs.declared.Step.TheVariants.{Erase, Program, Raise};
ghost use Rattle.slot_choice.specs.Examples.{window_at};
ghost use Rattle.part_table.specs.Families.{absolute_family, arm_s_family};
ghost use Rattle.uf2_place.specs.declared.answer.Accepted.TheVariants as accepted;
ghost use Rattle.text_lines.specs.declared.outcome.BlockOutcome.TheVariants as blocks;
ghost use Rattle.text_lines.specs.declared.outcome.Refusal.TheVariants.{NoTarget};
ghost use Rattle.boot_sweep.specs.Moving.{Done as Did};
ghost use Rattle.check_records.specs.Caveats.{block_holds, holds_back, is_outside};
ghost use Rattle.check_records.specs.Examples.{block_of, target_of};

/// A block holds its page back where it erases more than it programs: the target's first sector
/// alone, or that and its own.
pub fn blocks_that_hold_back()
    ensures none { holds_back [] ≡ false }
    ensures programmed { holds_back (Did (Program 32 []) ∷ []) ≡ false }
    ensures erased { holds_back (Did (Erase 2) ∷ Did (Program 32 []) ∷ []) ≡ false }
    ensures held { holds_back (Did (Erase 2) ∷ []) ≡ true }
    ensures beside { holds_back (Did (Erase 2) ∷ Did (Erase 3) ∷ Did (Program 48 []) ∷ []) ≡ true }
    ensures raised { holds_back (Did (Raise 2 1) ∷ []) ≡ false }
{}

/// What an accepted block says of its download.
pub fn blocks_of_gated_downloads()
    ensures taken { block_holds (blocks.Accepted 0 accepted.Taken) (Did (Erase 2) ∷ []) ≡ true }
    ensures plain { block_holds (blocks.Accepted 0 accepted.Taken)
        (Did (Erase 2) ∷ Did (Program 32 []) ∷ []) ≡ false }
    ensures done { block_holds (blocks.Accepted 0 (accepted.Done (target_of true))) [] ≡ true }
    ensures done_plain { block_holds (blocks.Accepted 0 (accepted.Done (target_of false)))
        (Did (Erase 2) ∷ []) ≡ false }
    ensures again { block_holds (blocks.Accepted 0 accepted.Again) (Did (Erase 2) ∷ []) ≡ false }
    ensures skipped { block_holds (blocks.Accepted 0 accepted.Skipped) (Did (Erase 2) ∷ [])
        ≡ false }
    ensures refused { block_holds (blocks.Refused NoTarget) (Did (Erase 2) ∷ []) ≡ false }
{}

/// A block is skipped for its page where that is not wholly in the flash, and its flags are those
/// of a block for the flash that names its family, the absolute one.
pub fn blocks_outside_the_flash()
    ensures inside { is_outside 0x2000 (block_of 0x2000 absolute_family 0x10001f00) ≡ false }
    ensures behind { is_outside 0x2000 (block_of 0x2000 absolute_family 0x10002000) ≡ true }
    ensures across { is_outside 0x2000 (block_of 0x2000 absolute_family 0x10001f01) ≡ true }
    ensures before { is_outside 0x2000 (block_of 0x2000 absolute_family 0x0fffff00) ≡ true }
    ensures other_flash { is_outside 0x2000 (block_of 0x2001 absolute_family 0x10002000) ≡ false }
    ensures no_family { is_outside 0x2000 (block_of 0 absolute_family 0x10002000) ≡ false }
    ensures other_family { is_outside 0x2000 (block_of 0x2000 arm_s_family 0x10002000) ≡ false }
{}
