//! Worked examples of the definitions, proved by computing: each is the `ensures` of a function
//! that does nothing.

ghost use Rattle.std.specs.Prelude.{◌≡◌, [], ◌∷◌, Some, None};
ghost use Rattle.pico_board.specs.declared.boot.Cpu.TheVariants.{Arm, Riscv};
ghost use Rattle.pico_board.specs.Content.{Content};
ghost use Rattle.pico_board.specs.Examples.{window_at};
ghost use Rattle.slot_choice.specs.declared.unit.Member.TheVariants.{A, B};
ghost use Rattle.boot_rules.specs.declared.decision.Decision.TheVariants.{Bootsel, Start};
ghost use Rattle.boot_rules.specs.declared.decision.Fall.{Fall};
ghost use Rattle.worked_flashes.specs.Flashes.{bare_owner, owned_content};
ghost use Rattle.cli_boot.specs.Works.{decided_data, windows_of};
ghost use Rattle.cli_boot.specs.Examples.{first_part, second_part, found_with_parts, paired_start_in};

/// The windows of a flash: those of its table's partitions, in table order; without a table its
/// two slots, or all of it.
pub fn windows_of_flashes()
    ensures slots { windows_of None 0x40000 0x20000 Arm
        ≡ window_at 0 0x20000 ∷ window_at 0x20000 0x20000 ∷ [] }
    ensures least_slots { windows_of None 0x4000 0x2000 Riscv
        ≡ window_at 0 0x2000 ∷ window_at 0x2000 0x2000 ∷ [] }
    ensures whole { windows_of None 0x40000 0x1000 Arm ≡ window_at 0 0x40000 ∷ [] }
    ensures table { windows_of (Some (found_with_parts
        (first_part ∷ second_part ∷ []))) 0x40000 0x1000 Arm
        ≡ window_at 0x2000 0x1e000 ∷ window_at 0x20000 0x1e000 ∷ [] }
    ensures turned { windows_of (Some (found_with_parts
        (second_part ∷ first_part ∷ []))) 0x40000 8192 Arm
        ≡ window_at 0x20000 0x1e000 ∷ window_at 0x2000 0x1e000 ∷ [] }
    ensures no_partition { windows_of (Some (found_with_parts [])) 0x40000 0x20000 Arm ≡ [] }
{}

/// The data of a start are the windows that its partition owns in the content's table. A start in
/// the other member has the other windows. A fall has none.
pub fn data_of_decisions()
    ensures first { decided_data (owned_content bare_owner bare_owner)
        (Start (paired_start_in (window_at 0x2000 0x8000) A (window_at 0xa000 0x8000)))
        ≡ window_at 0x12000 0x8000 ∷ [] }
    ensures second { decided_data (owned_content bare_owner bare_owner)
        (Start (paired_start_in (window_at 0xa000 0x8000) B (window_at 0x2000 0x8000)))
        ≡ window_at 0x1a000 0x8000 ∷ [] }
    ensures fall { (c : Content) (fall : Fall) → decided_data c (Bootsel fall) ≡ [] }
{}
