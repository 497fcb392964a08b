//! Worked examples of the definitions, proved by computing: each is the `ensures` of a function
//! that does nothing.

pub mod slots;

ghost use Rattle.std.specs.Prelude.{◌≡◌, [], ◌∷◌, None, Some, Ok, Err, true, false};
ghost use Rattle.block_loop.specs.declared.fault.LoopFault.{LoopFault};
ghost use Rattle.image_def.specs.declared.fault.DefFault.{DefFault};
ghost use Rattle.image_check.specs.declared.why.Why.{Why};
ghost use Rattle.part_table.specs.declared.table.TableFault.{TableFault};
ghost use Rattle.boot_rules.specs.declared.slots.SlotFault.{SlotFault};
ghost use Rattle.slot_caveats.specs.declared.caveat.Caveat.{Caveat};
ghost use Rattle.slot_caveats.specs.OtpCaveats.{critical_caveats, otp_caveats, raw_critical, raw_flags, raw_slot_size, secure_boot, short_slots};
ghost use Rattle.slot_caveats.specs.Same.{is_same_caveat};
ghost use Rattle.slot_caveats.specs.TableCaveats.{short_flash, table_tie, unread_caveats, unread_families};
ghost use Rattle.slot_caveats.specs.Examples.{otp_from, part_with, table_of_parts};

/// Secure boot is asked for by three of the rows 0x040 to 0x047, by bit 0 alone.
pub fn rows_of_secure_boot()
    ensures two { secure_boot (otp_from 0x040 (1 ∷ 1 ∷ [])) ≡ None }
    ensures three { secure_boot (otp_from 0x040 (1 ∷ 0xffffff ∷ 3 ∷ [])) ≡ Some Caveat.SecureBoot }
    ensures last { secure_boot (otp_from 0x045 (1 ∷ 1 ∷ 1 ∷ [])) ≡ Some Caveat.SecureBoot }
    ensures apart { secure_boot (otp_from 0x040 (1 ∷ 0 ∷ 0 ∷ 1 ∷ 0 ∷ 0 ∷ 0 ∷ 1 ∷ []))
        ≡ Some Caveat.SecureBoot }
    ensures before { secure_boot (otp_from 0x03f (1 ∷ 1 ∷ 1 ∷ [])) ≡ None }
    ensures behind { secure_boot (otp_from 0x046 (1 ∷ 1 ∷ 1 ∷ [])) ≡ None }
    ensures other_bits { secure_boot (otp_from 0x040 (2 ∷ 4 ∷ 0xfffffe ∷ 8 ∷ [])) ≡ None }
{}

/// The bits of the boot flags and of the slot size that are not read.
pub fn rows_that_are_not_read()
    ensures read { raw_flags (otp_from 0x048 (3 ∷ [])) 0x048 ≡ None }
    ensures unread { raw_flags (otp_from 0x048 (4 ∷ [])) 0x048 ≡ Some (Caveat.RawFlags 0x048 4) }
    ensures all { raw_flags (otp_from 0x048 (0xffffff ∷ [])) 0x048
        ≡ Some (Caveat.RawFlags 0x048 0xfffffc) }
    ensures copy { raw_flags (otp_from 0x049 (3 ∷ [])) 0x049 ≡ Some (Caveat.RawFlags 0x049 3) }
    ensures no_copy { raw_flags (otp_from 0x049 (0 ∷ [])) 0x049 ≡ None }
    ensures size { raw_slot_size (otp_from 0x055 (15 ∷ [])) ≡ None }
    ensures unread_size { raw_slot_size (otp_from 0x055 (16 ∷ [])) ≡ Some (Caveat.RawSlotSize 16) }
    ensures whole_size { raw_slot_size (otp_from 0x055 (0x512345 ∷ []))
        ≡ Some (Caveat.RawSlotSize 0x512340) }
    ensures order { otp_caveats (otp_from 0x040
        (1 ∷ 1 ∷ 1 ∷ 0 ∷ 0 ∷ 0 ∷ 0 ∷ 0 ∷ 5 ∷ 6 ∷ 7 ∷ 0 ∷ 0 ∷ 0 ∷ 0 ∷ 0 ∷ 0 ∷ 0 ∷ 0 ∷ 0 ∷ 0
        ∷ 0x11 ∷ []))
        ≡ Caveat.SecureBoot ∷ Caveat.RawFlags 0x048 4 ∷ Caveat.RawFlags 0x049 6
        ∷ Caveat.RawFlags 0x04a 7 ∷ Caveat.RawSlotSize 16 ∷ [] }
{}

/// A table's range fault is a caveat in a flash that is shorter than 16 MiB.
pub fn tables_for_a_longer_flash()
    ensures shorter { short_flash 0xfff000 1 (Err (SlotFault.Table (TableFault.Range 2)))
        ≡ Some (Caveat.ShortFlash 1 2) }
    ensures whole { short_flash 0x1000000 1 (Err (SlotFault.Table (TableFault.Range 2))) ≡ None }
    ensures other { short_flash 0x2000 1 (Err (SlotFault.Table (TableFault.Overlap 0 2))) ≡ None }
    ensures no_table { short_flash 0x2000 1 (Err SlotFault.NoTable) ≡ None }
    ensures table { short_flash 0x2000 0 (Ok (table_of_parts false 0 0 [])) ≡ None }
{}

/// What is not read of a table: family bits of its unpartitioned word, and flag bit 11.
pub fn bits_of_tables()
    ensures absolute { unread_families 0xfc008000 ≡ 0 }
    ensures families { unread_families 0xfc0fc000 ≡ 0xf4000 }
    ensures lowest { unread_families 0x4000 ≡ 0x4000 }
    ensures below { unread_families 0x2000 ≡ 0 }
    ensures highest { unread_families 0x80000 ≡ 0x80000 }
    ensures above { unread_families 0x100000 ≡ 0 }
    ensures sides { unread_caveats (Some (table_of_parts false 0 0xfc018000
        (part_with 0x800 ∷ part_with 0x1400 ∷ part_with 0xfff ∷ [])))
        ≡ Caveat.UnreadTargets 0x10000 ∷ Caveat.UnreadSide 0 ∷ Caveat.UnreadSide 2 ∷ [] }
    ensures none { unread_caveats (Some (table_of_parts false 0 0xfc008000 (part_with 0 ∷ [])))
        ≡ [] }
    ensures no_table { unread_caveats None ≡ [] }
{}

/// Two tables of one version that differ in some field; the first is no singleton.
pub fn tables_of_one_version()
    ensures words { table_tie (Ok (table_of_parts false 9 1 [])) (Ok (table_of_parts false 9 2 []))
        ≡ Some Caveat.TableTie }
    ensures same { table_tie (Ok (table_of_parts false 9 1 [])) (Ok (table_of_parts false 9 1 []))
        ≡ None }
    ensures alone { table_tie (Ok (table_of_parts true 9 1 [])) (Ok (table_of_parts false 9 2 []))
        ≡ None }
    ensures other_alone { table_tie (Ok (table_of_parts false 9 1 []))
        (Ok (table_of_parts true 9 1 [])) ≡ Some Caveat.TableTie }
    ensures versions { table_tie (Ok (table_of_parts false 9 1 []))
        (Ok (table_of_parts false 10 2 [])) ≡ None }
    ensures parts { table_tie (Ok (table_of_parts false 9 1 (part_with 0 ∷ [])))
        (Ok (table_of_parts false 9 1 (part_with 1 ∷ []))) ≡ Some Caveat.TableTie }
    ensures more { table_tie (Ok (table_of_parts false 9 1 (part_with 0 ∷ [])))
        (Ok (table_of_parts false 9 1 [])) ≡ Some Caveat.TableTie }
    ensures one { table_tie (Ok (table_of_parts false 9 1 [])) (Err SlotFault.NoTable) ≡ None }
    ensures other { table_tie (Err SlotFault.NoTable) (Ok (table_of_parts false 9 1 [])) ≡ None }
{}

/// Critical flags count bit by bit where three of the eight copies have them; bit 0 of the second
/// row is that of secure boot.
pub fn copies_of_critical_flags()
    ensures two { raw_critical (otp_from 0x038 (2 ∷ 2 ∷ [])) 0x038 0 ≡ None }
    ensures three { raw_critical (otp_from 0x038 (2 ∷ 3 ∷ 0x800002 ∷ [])) 0x038 0
        ≡ Some (Caveat.RawCritical 0x038 2) }
    ensures bits { raw_critical (otp_from 0x038 (1 ∷ 3 ∷ 7 ∷ 6 ∷ 4 ∷ 8 ∷ 8 ∷ [])) 0x038 0
        ≡ Some (Caveat.RawCritical 0x038 7) }
    ensures highest { raw_critical (otp_from 0x03d (0x800000 ∷ 0x800000 ∷ 0x800000 ∷ [])) 0x038 0
        ≡ Some (Caveat.RawCritical 0x038 0x800000) }
    ensures behind { raw_critical (otp_from 0x03e (2 ∷ 2 ∷ 2 ∷ [])) 0x038 0 ≡ None }
    ensures before { raw_critical (otp_from 0x03f (2 ∷ 2 ∷ 2 ∷ [])) 0x040 1 ≡ None }
    ensures secure { raw_critical (otp_from 0x040 (1 ∷ 1 ∷ 1 ∷ [])) 0x040 1 ≡ None }
    ensures beside { raw_critical (otp_from 0x040 (9 ∷ 9 ∷ 9 ∷ [])) 0x040 1
        ≡ Some (Caveat.RawCritical 0x040 8) }
    ensures order { critical_caveats
        (otp_from 0x038 (1 ∷ 1 ∷ 1 ∷ 0 ∷ 0 ∷ 0 ∷ 0 ∷ 0 ∷ 9 ∷ 9 ∷ 9 ∷ []))
        ≡ Caveat.RawCritical 0x038 1 ∷ Caveat.RawCritical 0x040 8 ∷ [] }
{}

/// A slot size of which two do not fit into the flash, by bits 0 to 3 of its row.
pub fn slot_sizes_that_do_not_fit()
    ensures fits { short_slots (otp_from 0x055 (1 ∷ [])) 0x4000 ≡ None }
    ensures short { short_slots (otp_from 0x055 (1 ∷ [])) 0x3000
        ≡ Some (Caveat.ShortSlots 0x2000) }
    ensures least { short_slots (otp_from 0x055 (0 ∷ [])) 0x2000 ≡ None }
    ensures greatest { short_slots (otp_from 0x055 (11 ∷ [])) 0xfff000
        ≡ Some (Caveat.ShortSlots 0x800000) }
    ensures whole { short_slots (otp_from 0x055 (11 ∷ [])) 0x1000000 ≡ None }
    ensures past { short_slots (otp_from 0x055 (12 ∷ [])) 0x2000 ≡ None }
    ensures low_bits { short_slots (otp_from 0x055 (0x11 ∷ [])) 0x3000
        ≡ Some (Caveat.ShortSlots 0x2000) }
{}

/// Two caveats are the same where they are of one variant and tell the same.
pub fn caveats_that_are_the_same()
    ensures same { is_same_caveat (Caveat.RawFlags 0x048 4) (Caveat.RawFlags 0x048 4) ≡ true }
    ensures variant { is_same_caveat (Caveat.RawFlags 0x048 4) (Caveat.RawCritical 0x048 4)
        ≡ false }
    ensures first { is_same_caveat (Caveat.RawFlags 0x048 4) (Caveat.RawFlags 0x049 4) ≡ false }
    ensures second { is_same_caveat (Caveat.RawFlags 0x048 4) (Caveat.RawFlags 0x048 8) ≡ false }
    ensures window { is_same_caveat (Caveat.Tie (record { start = 0; len = 8 })
        (record { start = 8; len = 8 }))
        (Caveat.Tie (record { start = 0; len = 8 }) (record { start = 8; len = 4 })) ≡ false }
    ensures rule { is_same_caveat
        (Caveat.MayStart (record { start = 0; len = 8 }) (Why.Loop (LoopFault.Broken 4)))
        (Caveat.MayStart (record { start = 0; len = 8 }) (Why.Loop (LoopFault.Broken 8)))
        ≡ false }
    ensures rules { is_same_caveat
        (Caveat.MayStart (record { start = 0; len = 8 }) (Why.Items (DefFault.BadRow 1)))
        (Caveat.MayStart (record { start = 0; len = 8 }) (Why.Items (DefFault.RepeatedRow 1)))
        ≡ false }
    ensures fault { is_same_caveat (Caveat.FaultyTable 0 (TableFault.Link 2))
        (Caveat.FaultyTable 0 (TableFault.Range 2)) ≡ false }
{}
