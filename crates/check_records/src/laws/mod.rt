//! Laws on records and on scripts that are played again, each the `ensures` of a function that
//! does nothing.

ghost use Rattle.std.specs.Prelude.{◌≡◌, ◌↔◌, ◌∷◌, ◌++◌, [], List, None, Some, false, map, ℕ};
ghost use Rattle.pico_board.specs.declared.Step.{Step};
ghost use Rattle.pico_board.specs.declared.boot.Cpu.{Cpu};
ghost use Rattle.boot_script.specs.Events.{EventView};
ghost use Rattle.boot_machine.specs.Plays.{powerless};
ghost use Rattle.pico_board.specs.Content.{Content};
ghost use Rattle.pico_board.specs.Steps.{CutOf, after_all};
ghost use Rattle.part_table.specs.declared.Target.{Target};
ghost use Rattle.uf2_place.specs.declared.block.Uf2.{Uf2};
ghost use Rattle.uf2_place.specs.Placement.{grown, is_whole_download};
ghost use Rattle.boot_sweep.specs.Moving.{Done};
ghost use Rattle.check_records.specs.Caveats.{first_event, holds_back, script_caveats};
ghost use Rattle.check_records.specs.GatedBlocks.{is_gated_block};
ghost use Rattle.check_records.specs.Repeats.{DiffersOnlyIn};
ghost use Rattle.check_records.specs.Unerased.{IsFirstUnerased, IsUnerased, first_unerased};

/// The number that is told is that of the first step that programs a page whose sector no step
/// before it erases, and none is told where there is no such step.
pub fn the_first_unerased_step_is_told()
    ensures some { (steps : List Step) (k : ℕ)
        → (first_unerased steps ≡ Some k) ↔ IsFirstUnerased steps k }
    ensures none { (steps : List Step)
        → (first_unerased steps ≡ None) ↔ ((k : ℕ) → IsUnerased steps k → ⊥) }
{}

/// Steps come to the same end from two contents that differ only in sectors that they erase and in
/// bits that they raise. Where each program's sector is erased by a step before it, so do a content
/// and one that a loss of power in the steps leaves of it.
pub fn steps_that_are_done_again_come_to_one_end()
    ensures one { (steps : List Step) (c d : Content) → DiffersOnlyIn steps c d
        → after_all d steps ≡ after_all c steps }
    ensures cut { (steps : List Step) (c d : Content) → first_unerased steps ≡ None
        → CutOf c steps d → DiffersOnlyIn steps c d }
    ensures again { (steps : List Step) (c d : Content) → first_unerased steps ≡ None
        → CutOf c steps d → after_all d steps ≡ after_all c steps }
{}

/// Where a download is not done with a block, the block erases more than it programs exactly where
/// it begins a gated one.
pub fn a_gated_download_begins_by_holding_back()
    ensures first { (t : Target) (b : Uf2) → is_whole_download (b ∷ []) ≡ false
        → holds_back (map (λ s. Done s) (grown t [] (b ∷ []))) ≡ t.gated }
    ensures later { (t : Target) (first b : Uf2) (former : List Uf2)
        → is_whole_download (first ∷ former) ≡ false
        → is_whole_download (first ∷ (former ++ b ∷ [])) ≡ false
        → holds_back (map (λ s. Done s) (grown t (first ∷ former) (first ∷ (former ++ b ∷ []))))
        ≡ false }
{}

/// The event of `held-sector` is the first that is a block of a gated download: it is taken into
/// one, which is current behind it, or with it one is done; and no power is lost in it.
pub fn the_first_block_of_a_gated_download_is_told()
    ensures { (c : Content) (cpu : Cpu) (events : List EventView)
        → (script_caveats c cpu events).held
        ≡ first_event is_gated_block 0 (powerless c cpu) events }
{}
