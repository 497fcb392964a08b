//! Worked examples of the lines that look at the OTP, at partitions and at the kind of a boot,
//! proved by computing: each is the `ensures` of a function that does nothing.

ghost use Rattle.std.specs.Prelude.{◌≡◌, [], ◌∷◌, None, Some, false};
ghost use Rattle.pico_board.specs.declared.boot.BootKind.TheVariants.{Normal, Update};
ghost use Rattle.boot_rules.specs.declared.decision.Decision.TheVariants.{Bootsel, Start};
ghost use Rattle.boot_rules.specs.declared.decision.Fall.{Fall};
ghost use Rattle.slot_caveats.specs.declared.caveat.Caveat.{Caveat};
ghost use Rattle.boot_caveats.specs.ChoiceCaveats.{update_of_nothing};
ghost use Rattle.boot_caveats.specs.PartCaveats.{ignore_flags, no_read, of_parts};
ghost use Rattle.slot_caveats.specs.Examples.{first, first_pair, in_slot, lone_third, part_with, part_without_read, second, start_of, table_of_parts};

/// The ignore flags of a pair, bits 9 and 10, are compared in the B; the A has no owner.
pub fn flags_of_pairs()
    ensures same { of_parts ignore_flags
        (Some (table_of_parts false 0 0 (part_with 0x600 ∷ part_with 0x602 ∷ []))) ≡ [] }
    ensures arm { of_parts ignore_flags
        (Some (table_of_parts false 0 0 (part_with 0 ∷ part_with 0x202 ∷ [])))
        ≡ Caveat.IgnoreFlags 1 ∷ [] }
    ensures riscv { of_parts ignore_flags
        (Some (table_of_parts false 0 0 (part_with 0x400 ∷ part_with 2 ∷ [])))
        ≡ Caveat.IgnoreFlags 1 ∷ [] }
    ensures other_flag { of_parts ignore_flags
        (Some (table_of_parts false 0 0 (part_with 0x800 ∷ part_with 2 ∷ []))) ≡ [] }
    ensures alone { of_parts ignore_flags
        (Some (table_of_parts false 0 0 (part_with 0 ∷ part_with 0x200 ∷ []))) ≡ [] }
    ensures owned { of_parts ignore_flags
        (Some (table_of_parts false 0 0 (part_with 0 ∷ part_with 4 ∷ part_with 0x20a ∷ []))) ≡ [] }
    ensures no_table { of_parts ignore_flags None ≡ [] }
{}

/// A start in a partition that lacks secure read, bit 26 of its location word.
pub fn starts_without_read()
    ensures lacks { of_parts (no_read (Start (start_of first)))
        (Some (table_of_parts false 0 0 (part_without_read ∷ []))) ≡ Caveat.NoRead 0 ∷ [] }
    ensures has { of_parts (no_read (Start (start_of first)))
        (Some (table_of_parts false 0 0 (part_with 0 ∷ []))) ≡ [] }
    ensures elsewhere { of_parts (no_read (Start (start_of second)))
        (Some (table_of_parts false 0 0 (part_without_read ∷ []))) ≡ [] }
    ensures fall { of_parts (no_read (Bootsel Fall.NoImage))
        (Some (table_of_parts false 0 0 (part_without_read ∷ []))) ≡ [] }
{}

/// An update of an address at which no member starts, and which has no caveat of a table slot.
pub fn updates_of_nothing()
    ensures between { update_of_nothing (Update 0x10003000) 0x1000 in_slot (first_pair ∷ [])
        ≡ Some (Caveat.UpdateOfNothing 0x10003000) }
    ensures first_member { update_of_nothing (Update 0x10002000) 0x1000 in_slot (first_pair ∷ [])
        ≡ None }
    ensures second_member { update_of_nothing (Update 0x10004000) 0x1000 in_slot (first_pair ∷ [])
        ≡ None }
    ensures later { update_of_nothing (Update 0x10006000) 0x1000 in_slot
        (first_pair ∷ lone_third ∷ []) ≡ None }
    ensures offset { update_of_nothing (Update 0x2000) 0x1000 in_slot (first_pair ∷ [])
        ≡ Some (Caveat.UpdateOfNothing 0x2000) }
    ensures slot { update_of_nothing (Update 0x10001000) 0x1000 in_slot (first_pair ∷ []) ≡ None }
    ensures no_table { update_of_nothing (Update 0x10001000) 0x1000 None (first_pair ∷ [])
        ≡ Some (Caveat.UpdateOfNothing 0x10001000) }
    ensures normal { update_of_nothing Normal 0x1000 in_slot (first_pair ∷ []) ≡ None }
{}
