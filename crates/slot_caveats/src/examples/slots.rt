//! Worked examples of what stands in the table slots, proved by computing: each is the `ensures` of
//! a function that does nothing.

ghost use Rattle.std.specs.Prelude.{◌≡◌, [], ◌∷◌, None, Some, Ok, Err, false, true};
ghost use Rattle.block_loop.specs.declared.fault.LoopFault.{LoopFault};
ghost use Rattle.part_table.specs.declared.table.TableFault.{TableFault};
ghost use Rattle.boot_rules.specs.declared.slots.SlotFault.{SlotFault};
ghost use Rattle.boot_rules.specs.Tables.{slot_window};
ghost use Rattle.slot_caveats.specs.declared.caveat.Caveat.{Caveat};
ghost use Rattle.slot_caveats.specs.SlotCaveats.{has_other_order, image_in_slot, is_executable, slot_caveats, slot_end, table_fault};
ghost use Rattle.slot_caveats.specs.Examples.{across, arm_word, bare, block_with, in_slot, sector_with, six_sectors, table_of_parts, table_sector, three_sectors};

/// The first IMAGE_TYPE item says whether a block is executable, whatever else it says.
pub fn blocks_of_executables()
    ensures arm { is_executable (block_with 0 (0x10210142 ∷ [])) ≡ true }
    ensures other_chip { is_executable (block_with 0 (0x00010142 ∷ [])) ≡ true }
    ensures data { is_executable (block_with 0 (0x00020142 ∷ [])) ≡ false }
    ensures none { is_executable (block_with 0 (0x00000248 ∷ 0 ∷ [])) ≡ false }
    ensures later { is_executable (block_with 0 (0x00020142 ∷ 0x10210142 ∷ [])) ≡ false }
{}

/// An image in a slot, beside a table; its loop may leave the slot.
pub fn images_in_slots()
    ensures inside { image_in_slot (three_sectors 0 0 (sector_with (arm_word ∷ [])) bare) in_slot 0
        (slot_window 0x1000 0) ≡ Some (Caveat.ImageInSlot 0) }
    ensures no_table { image_in_slot (three_sectors 0 0 (sector_with (arm_word ∷ [])) bare) None 0
        (slot_window 0x1000 0) ≡ None }
    ensures second { image_in_slot (three_sectors 0 0 bare (sector_with (arm_word ∷ []))) in_slot 1
        (slot_window 0x1000 1) ≡ Some (Caveat.ImageInSlot 1) }
    ensures data { image_in_slot (three_sectors 0 0 (sector_with (0x00020142 ∷ [])) bare) in_slot 0
        (slot_window 0x1000 0) ≡ None }
    ensures outside { image_in_slot (six_sectors (across 0x2000)) in_slot 0 (slot_window 0x2000 0)
        ≡ Some (Caveat.ImageInSlot 0) }
    ensures broken { image_in_slot (six_sectors (across 0x1ffc)) in_slot 0 (slot_window 0x2000 0)
        ≡ None }
{}

/// A loop that is broken in a slot, and whose next block stands behind it.
pub fn ends_of_slots()
    ensures behind { slot_end (six_sectors (across 0x2000)) None (slot_window 0x2000 0)
        ≡ Some (Caveat.SlotEnd (slot_window 0x2000 0) 0x100) }
    ensures no_block { slot_end (six_sectors (across 0x1ffc)) None (slot_window 0x2000 0) ≡ None }
    ensures table { slot_end (six_sectors (across 0x2000)) in_slot (slot_window 0x2000 0) ≡ None }
    ensures least { slot_end (six_sectors (across 0x2000)) None (slot_window 0x1000 0) ≡ None }
    ensures second { slot_end (six_sectors (across 0x2000)) None (slot_window 0x2000 1) ≡ None }
    ensures before_fault { slot_caveats (six_sectors (across 0x2000)) 0x2000 None
        (Err (SlotFault.Loop (LoopFault.Broken 0x100))) (Err (SlotFault.Table TableFault.BadItem))
        ≡ Caveat.SlotEnd (slot_window 0x2000 0) 0x100
        ∷ Caveat.FaultyTable 1 TableFault.BadItem ∷ [] }
{}

/// The faults of a table that are told: not its digest's, and not the range's of a short flash.
pub fn faults_of_tables()
    ensures item { table_fault 0x2000 0 (Err (SlotFault.Table TableFault.BadItem))
        ≡ Some (Caveat.FaultyTable 0 TableFault.BadItem) }
    ensures hash { table_fault 0x2000 0 (Err (SlotFault.Table TableFault.Hash)) ≡ None }
    ensures short { table_fault 0xfff000 1 (Err (SlotFault.Table (TableFault.Range 2))) ≡ None }
    ensures whole { table_fault 0x1000000 1 (Err (SlotFault.Table (TableFault.Range 2)))
        ≡ Some (Caveat.FaultyTable 1 (TableFault.Range 2)) }
    ensures no_table { table_fault 0x2000 0 (Err SlotFault.NoTable) ≡ None }
    ensures broken { table_fault 0x2000 0 (Err (SlotFault.Loop (LoopFault.Broken 4))) ≡ None }
    ensures sound { table_fault 0x2000 0 (Ok (table_of_parts false 0 0 [])) ≡ None }
{}

/// The order of the items of a table's block, in either spelling of PARTITION_TABLE.
pub fn orders_of_tables()
    ensures first { has_other_order (table_sector (0x0000020a ∷ 0xfc008000 ∷ 0x00000248 ∷ 0 ∷ []))
        ≡ false }
    ensures later { has_other_order (table_sector (0x00000248 ∷ 0 ∷ 0x0000020a ∷ 0xfc008000 ∷ []))
        ≡ true }
    ensures long { has_other_order (table_sector (0x0000028a ∷ 0xfc008000 ∷ [])) ≡ false }
    ensures none { has_other_order (table_sector (0x00000248 ∷ 0 ∷ [])) ≡ false }
{}
