//! Worked examples of the definitions, proved by computing: each is the `ensures` of a function
//! that does nothing.

ghost use Rattle.std.specs.Prelude.{◌≡◌, [], ◌∷◌, ◌++◌, codes, None, Some, Err, true, false};
ghost use Rattle.block_loop.specs.declared.fault.LoopFault.TheVariants.{NoBlock, Broken, TooMany, Overlap};
ghost use Rattle.part_table.specs.declared.table.TableFault.{TableFault};
ghost use Rattle.boot_rules.specs.declared.slots.SlotFault.{SlotFault};
ghost use Rattle.boot_reasons.specs.declared.slots.TableReason.{TableReason};
ghost use Rattle.boot_reasons.specs.declared.looks.UnitReason.{UnitReason};
ghost use Rattle.cli_explain.specs.Examples.{alone_look, bare_reasons, example_part, pair_look, slots_look, table_reasons};
ghost use Rattle.cli_explain.specs.Partitions.{families_text, flags_text, id_text, name_text, partition_fields_text, rights_text};
ghost use Rattle.cli_explain.specs.Texts.{explain_text, look_lines, otp_text, slot_fault_text, slot_text, told_text, unit_reason_text, units_lines, unreached_text};

/// Names: none, one of no byte, and bytes on both sides of those that stand as they are.
pub fn names_of_partitions()
    ensures none { name_text None ≡ codes "none" }
    ensures empty { name_text (Some (record { items = [] })) ≡ 0x22 ∷ 0x22 ∷ [] }
    ensures plain { name_text (Some (record { items = codes "A ~" }))
        ≡ 0x22 ∷ codes "A ~" ++ 0x22 ∷ [] }
    ensures low { name_text (Some (record { items = 0x1f ∷ [] }))
        ≡ 0x22 ∷ 0x5c ∷ codes "x1f" ++ 0x22 ∷ [] }
    ensures short { name_text (Some (record { items = 0 ∷ 0xf ∷ [] }))
        ≡ 0x22 ∷ 0x5c ∷ codes "x00" ++ 0x5c ∷ codes "x0f" ++ 0x22 ∷ [] }
    ensures high { name_text (Some (record { items = 0x7f ∷ 0xff ∷ [] }))
        ≡ 0x22 ∷ 0x5c ∷ codes "x7f" ++ 0x5c ∷ codes "xff" ++ 0x22 ∷ [] }
    ensures quote { name_text (Some (record { items = 0x22 ∷ 0x5c ∷ [] }))
        ≡ 0x22 ∷ 0x5c ∷ codes "x22" ++ 0x5c ∷ codes "x5c" ++ 0x22 ∷ [] }
{}

/// Ids, families, rights, links and flags.
pub fn fields_of_partitions()
    ensures no_id { id_text None ≡ codes "none" }
    ensures id { id_text (Some 0x123456789abcdef) ≡ codes "0x0123456789abcdef" }
    ensures no_family { families_text (example_part 0 []) ≡ codes "none" }
    ensures all_families { families_text (example_part 0xfc000 [])
        ≡ codes "rp2040,absolute,data,rp2350-arm-s,rp2350-riscv,rp2350-arm-ns" }
    ensures extra_families { families_text (example_part 0x20000 (0xe48bff59 ∷ 1 ∷ []))
        ≡ codes "rp2350-arm-s,0xe48bff59,0x00000001" }
    ensures rights { rights_text (example_part 0 []).location
        ≡ codes "secure=rw,nonsecure=r,bootloader=w" }
    ensures reads { rights_text 0x54000000 ≡ codes "secure=r,nonsecure=r,bootloader=r" }
    ensures writes { rights_text 0xa8000000 ≡ codes "secure=w,nonsecure=w,bootloader=w" }
    ensures no_rights { rights_text 0 ≡ codes "secure=none,nonsecure=none,bootloader=none" }
    ensures plain { flags_text (example_part 0 [])
        ≡ codes "rights=secure=rw,nonsecure=r,bootloader=w link=none ignored=none reboot=yes" }
    ensures second { flags_text (example_part 0x221a [])
        ≡ codes "rights=secure=rw,nonsecure=r,bootloader=w link=a=3 ignored=arm reboot=no" }
    ensures owned { flags_text (example_part 0x47c [])
        ≡ codes "rights=secure=rw,nonsecure=r,bootloader=w link=owner=15 ignored=riscv reboot=yes" }
    ensures ignored { flags_text (example_part 0x600 [])
        ≡ codes "rights=secure=rw,nonsecure=r,bootloader=w link=none ignored=both reboot=yes" }
    ensures place { partition_fields_text (example_part 0 [])
        ≡ codes "window=0x00002000+0x00002000 name=none id=none families=none" }
{}

/// Why a slot has no table, and why a table is that of the flash.
pub fn texts_of_slots()
    ensures no_block { slot_text 1 (Err (SlotFault.Loop NoBlock)) ≡ codes "slot 1 fault=no-block" }
    ensures broken { slot_text 0 (Err (SlotFault.Loop (Broken 0x100)))
        ≡ codes "slot 0 fault=loop broken at=0x00000100" }
    ensures too_many { slot_fault_text (SlotFault.Loop TooMany) ≡ codes "loop too-many" }
    ensures overlap { slot_fault_text (SlotFault.Loop (Overlap 1 3)) ≡ codes "loop overlap 1 3" }
    ensures no_table { slot_fault_text SlotFault.NoTable ≡ codes "no-table" }
    ensures bad_item { slot_fault_text (SlotFault.Table TableFault.BadItem) ≡ codes "bad-item" }
    ensures permissions { slot_fault_text (SlotFault.Table (TableFault.Permissions 14))
        ≡ codes "permissions 14" }
    ensures range { slot_fault_text (SlotFault.Table (TableFault.Range 0)) ≡ codes "range 0" }
    ensures shared { slot_fault_text (SlotFault.Table (TableFault.Overlap 0 2))
        ≡ codes "overlap 0 2" }
    ensures link { slot_fault_text (SlotFault.Table (TableFault.Link 3)) ≡ codes "link 3" }
    ensures hash { slot_fault_text (SlotFault.Table TableFault.Hash) ≡ codes "hash" }
    ensures none { told_text None ≡ codes "table none" }
    ensures singleton { told_text (Some (record { slot = 0; because = TableReason.Singleton }))
        ≡ codes "table slot=0 because=singleton" }
    ensures version { told_text (Some (record { slot = 1; because = TableReason.Version }))
        ≡ codes "table slot=1 because=version" }
    ensures otp { otp_text true false 0x20000
        ≡ codes "otp rollback-required=yes flash-off=no slot-size=0x00020000" }
    ensures unreached { unreached_text 14 ≡ codes "unit 14 not-reached" }
{}

/// The lines of units, numbered from 0 on: what each unit is, its images and what it takes; and
/// the units that are not reached.
pub fn lines_of_units()
    ensures parts { units_lines (alone_look ∷ pair_look ∷ []) 2
        ≡ codes "unit 0 alone 0\nimage window=0x00002000+0x00002000 fault=no-definition\n"
        ++ (codes "unit 0 takes none\nunit 1 pair 1 2\nimage window=0x00004000+0x00002000 "
        ++ (codes "ok version=1.2 rollback=3 trial=no\n"
        ++ (codes "image window=0x00006000+0x00002000 fault=digest\n"
        ++ (codes "unit 1 takes window=0x00004000+0x00002000 because=only\n"
        ++ codes "unit 2 not-reached\nunit 3 not-reached\n")))) }
    ensures slots { look_lines 0 slots_look
        ≡ codes "unit 0 slots\nimage window=0x00000000+0x00002000 ok version=1.1 "
        ++ (codes "rollback=none trial=no\nimage window=0x00002000+0x00002000 ok version=1.0 "
        ++ (codes "rollback=none trial=yes\n"
        ++ codes "unit 0 takes window=0x00002000+0x00002000 because=updated\n")) }
    ensures version { unit_reason_text UnitReason.Version ≡ codes "version" }
    ensures tie { unit_reason_text UnitReason.Tie ≡ codes "tie" }
{}

/// The whole texts of two boots. One has a table, whose partitions are numbered from 0 on, while
/// flash boot is off. The other has no table.
pub fn texts_of_reasons()
    ensures table { explain_text table_reasons
        ≡ codes "bootsel flash-off\notp rollback-required=no flash-off=yes slot-size=0x00001000\n"
        ++ (codes "slot 0 table version=1.9 partitions=2 singleton=yes\nslot 1 fault=no-block\n"
        ++ (codes "table slot=0 because=only\npartition 0 window=0x00002000+0x00002000 "
        ++ (codes "name=none id=none families=none rights=secure=rw,nonsecure=r,bootloader=w "
        ++ (codes "link=none ignored=none reboot=yes\n"
        ++ (codes "partition 1 window=0x00004000+0x00002000 name=none id=none families=none "
        ++ (codes "rights=secure=rw,nonsecure=rw,bootloader=rw link=a=0 ignored=none "
        ++ codes "reboot=yes\n")))))) }
    ensures bare { explain_text bare_reasons
        ≡ codes "start window=0x00000000+0x00002000 block=0x00000114 pc=0x10000201 "
        ++ (codes "sp=0x20082000 limit=0x00000000 version=0.0 rollback=none trial=no\n"
        ++ (codes "otp rollback-required=yes flash-off=no slot-size=0x00001000\n"
        ++ (codes "slot 0 fault=no-table\nslot 1 fault=no-block\ntable none\nunit 0 whole\n"
        ++ (codes "image window=0x00000000+0x00002000 ok version=0.0 rollback=none trial=no\n"
        ++ codes "unit 0 takes window=0x00000000+0x00002000 because=only\n")))) }
{}
