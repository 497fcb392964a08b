//! Worked examples of texts, each with the answer that the rules give.

ghost use Rattle.std.specs.Prelude.{◌≡◌, ◌++◌, ℕ, [], ◌∷◌, true, false, codes, length, replicate, is_ok, IfSome, None, Some, Ok, Err, option_map};
ghost use Rattle.part_table.specs.declared.table.TableFault.{TableFault};
ghost use Rattle.part_table.specs.Families.{family_names};
ghost use Rattle.part_table.specs.Examples.{pair_version, owned_table, named_table, table_with, plain_partition, partition_with};
ghost use Rattle.pico_board.specs.declared.boot.Cpu.{Cpu};
ghost use Rattle.serde_json.specs.Data.{Data};
ghost use Rattle.serde_json.specs.Read.{read};
ghost use Rattle.table_json.specs.declared.members.Shape.TheVariants.{OfPartition, OfPermissions, OfSpec, OfTable, OfUnpartitioned};
ghost use Rattle.table_json.specs.Members.{names_of};
ghost use Rattle.table_json.specs.Says.{SaysText};
ghost use Rattle.table_json.specs.Seals.{spec_with};
ghost use Rattle.table_json.specs.Examples.{table_said, first_partition_in, spec_in, all_rights, rights, part, part_and, partition_with_members, table_of_parts, flagged_partition, part_value, part_missing, top_value, top_missing, outside_value, name_member, list_of, nested, versioned, plain_spec};

pub mod otps;

use crate::{Field, JsonFault, Place};
use part_table::TableFault;
use pico_board::Cpu;

/// Whole tables.
pub fn tables_are_read()
    ensures pair { table_said
        (codes "{\"version\":[1,0],\"unpartitioned\":{\"families\":[\"absolute\"],"
        ++ all_rights ++ codes "},\"partitions\":["
        ++ codes "{\"first\":2,\"last\":31,\"families\":[\"rp2350-arm-s\"]," ++ all_rights
        ++ codes "},{\"first\":32,\"last\":61,\"families\":[\"rp2350-arm-s\"]," ++ all_rights
        ++ codes ",\"link\":[\"a\",0]}]}")
        ≡ Some (Ok (pair_version 1 0)) }
    ensures owners { table_said (table_of_parts
        (part (codes "2") (codes "9") (codes ",\"families\":[\"rp2350-arm-s\"]") ++ codes ","
        ++ part (codes "10") (codes "17")
        (codes ",\"families\":[\"rp2350-arm-s\"],\"link\":[\"a\",0]") ++ codes ","
        ++ part (codes "18") (codes "25")
        (codes ",\"families\":[\"data\"],\"link\":[\"owner\",0]") ++ codes ","
        ++ part (codes "26") (codes "33")
        (codes ",\"families\":[\"data\"],\"link\":[\"a\",2]")))
        ≡ Some (Ok owned_table) }
    ensures named { table_said
        (codes "{\"singleton\":true,\"unpartitioned\":{" ++ rights [] [] []
        ++ codes "},\"partitions\":["
        ++ part (codes "2") (codes "3")
        (codes ",\"id\":9833440827789222417,\"families\":[286331153,3834380122],"
        ++ codes "\"name\":\"abcd\"")
        ++ codes "]}")
        ≡ Some (Ok named_table) }
    ensures empty { table_said (table_of_parts []) ≡ Some (Ok (table_with [])) }
{}

/// Sector numbers on both sides of their bound.
pub fn sectors_are_read()
    ensures last_one { first_partition_in (part (codes "8191") (codes "8191") [])
        ≡ Some (Ok (plain_partition 0xffffffff 0xfc000000)) }
    ensures first_past { first_partition_in (part (codes "8192") (codes "2") [])
        ≡ part_value Field.First }
    ensures last_past { first_partition_in (part (codes "2") (codes "8192") [])
        ≡ part_value Field.Last }
    ensures none_before { first_partition_in (part (codes "0") (codes "0") [])
        ≡ Some (Ok (plain_partition 0xfc000000 0xfc000000)) }
{}

/// A number is one without a sign, a point or an exponent.
pub fn numbers_are_whole()
    ensures point { first_partition_in (part (codes "2.0") (codes "3") [])
        ≡ part_value Field.First }
    ensures sign { first_partition_in (part (codes "-2") (codes "3") []) ≡ part_value Field.First }
    ensures minus_zero { first_partition_in (part (codes "-0") (codes "3") [])
        ≡ part_value Field.First }
    ensures exponent { first_partition_in (part (codes "2e0") (codes "3") [])
        ≡ part_value Field.First }
    ensures text { first_partition_in (part (codes "\"2\"") (codes "3") [])
        ≡ part_value Field.First }
    ensures null { part_and (codes ",\"id\":null") ≡ part_value Field.Id }
{}

/// Ids on both sides of their bound.
pub fn ids_are_read()
    ensures greatest { part_and (codes ",\"id\":18446744073709551615")
        ≡ Some (Ok (partition_with 0xfc000001 (Some 0xffffffffffffffff) [] None)) }
    ensures zero { part_and (codes ",\"id\":0")
        ≡ Some (Ok (partition_with 0xfc000001 (Some 0) [] None)) }
    ensures past { part_and (codes ",\"id\":18446744073709551616") ≡ part_value Field.Id }
{}

/// Names on both sides of their bound of length.
pub fn names_are_read()
    ensures empty { part_and (name_member 0)
        ≡ Some (Ok (partition_with 0xfc001000 None [] (Some (record { items = [] })))) }
    ensures longest { part_and
        (name_member 127)
        ≡ Some (Ok (partition_with 0xfc001000 None []
        (Some (record { items = replicate 127 97 })))) }
    ensures past { part_and (name_member 128) ≡ part_value Field.Name }
    ensures number { part_and (codes ",\"name\":1") ≡ part_value Field.Name }
{}

/// Links of both types, and both sides of the bound of their numbers.
pub fn links_are_read()
    ensures first { part_and (codes ",\"link\":[\"a\",15]") ≡ flagged_partition 0x7a }
    ensures owner { part_and (codes ",\"link\":[\"owner\",15]") ≡ flagged_partition 0x7c }
    ensures zero { part_and (codes ",\"link\":[\"owner\",0]") ≡ flagged_partition 4 }
    ensures past { part_and (codes ",\"link\":[\"a\",16]") ≡ part_value Field.Link }
    ensures word { part_and (codes ",\"link\":[\"b\",0]") ≡ part_value Field.Link }
    ensures short { part_and (codes ",\"link\":[\"a\"]") ≡ part_value Field.Link }
    ensures long { part_and (codes ",\"link\":[\"a\",0,0]") ≡ part_value Field.Link }
    ensures turned { part_and (codes ",\"link\":[0,\"a\"]") ≡ part_value Field.Link }
{}

/// Each mark has its bit.
pub fn marks_are_read()
    ensures arm { part_and (codes ",\"ignore_arm\":true") ≡ flagged_partition 0x200 }
    ensures riscv { part_and (codes ",\"ignore_riscv\":true") ≡ flagged_partition 0x400 }
    ensures stays { part_and (codes ",\"no_reboot\":true") ≡ flagged_partition 0x2000 }
    ensures none { part_and
        (codes ",\"ignore_arm\":false,\"ignore_riscv\":false,\"no_reboot\":false")
        ≡ flagged_partition 0 }
    ensures number { part_and (codes ",\"ignore_arm\":1") ≡ part_value Field.IgnoreArm }
{}

/// Each family by name has its bit; others are kept as numbers, at most three of them.
pub fn families_are_read()
    ensures rp2040 { part_and (codes ",\"families\":[\"rp2040\"]") ≡ flagged_partition 0x4000 }
    ensures absolute { part_and (codes ",\"families\":[\"absolute\"]") ≡ flagged_partition 0x8000 }
    ensures data { part_and (codes ",\"families\":[\"data\"]") ≡ flagged_partition 0x10000 }
    ensures rp2350_arm_s { part_and (codes ",\"families\":[\"rp2350-arm-s\"]")
        ≡ flagged_partition 0x20000 }
    ensures rp2350_riscv { part_and (codes ",\"families\":[\"rp2350-riscv\"]")
        ≡ flagged_partition 0x40000 }
    ensures rp2350_arm_ns { part_and
        (codes ",\"families\":[\"rp2350-arm-ns\"]") ≡ flagged_partition 0x80000 }
    ensures twice { part_and (codes ",\"families\":[\"data\",\"data\"]")
        ≡ flagged_partition 0x10000 }
    ensures three { part_and (codes ",\"families\":[1,4294967295,3834380121]")
        ≡ Some (Ok (partition_with 0xfc000180 None (1 ∷ 0xffffffff ∷ 0xe48bff59 ∷ []) None)) }
    ensures mixed { part_and (codes ",\"families\":[7,\"data\",7]")
        ≡ Some (Ok (partition_with 0xfc010100 None (7 ∷ 7 ∷ []) None)) }
{}

/// What is no list of families.
pub fn families_have_bounds()
    ensures four { part_and (codes ",\"families\":[1,2,3,4]") ≡ part_value Field.Families }
    ensures past { part_and (codes ",\"families\":[4294967296]") ≡ part_value Field.Families }
    ensures other { part_and (codes ",\"families\":[\"rp2350\"]") ≡ part_value Field.Families }
    ensures text { part_and (codes ",\"families\":\"data\"") ≡ part_value Field.Families }
    ensures outside { table_said
        (codes "{\"unpartitioned\":{\"families\":[1]," ++ all_rights
        ++ codes "},\"partitions\":[]}")
        ≡ outside_value Field.Families }
{}

/// Each right has its bit, in both words.
pub fn permissions_are_read()
    ensures none { partition_with_members (rights [] [] []) ≡ Some (Ok (plain_partition 0x0 0x0)) }
    ensures secure_read { partition_with_members (rights (codes "r") [] [])
        ≡ Some (Ok (plain_partition 0x4000000 0x4000000)) }
    ensures secure_write { partition_with_members (rights (codes "w") [] [])
        ≡ Some (Ok (plain_partition 0x8000000 0x8000000)) }
    ensures nonsecure_read { partition_with_members (rights [] (codes "r") [])
        ≡ Some (Ok (plain_partition 0x10000000 0x10000000)) }
    ensures nonsecure_write { partition_with_members (rights [] (codes "w") [])
        ≡ Some (Ok (plain_partition 0x20000000 0x20000000)) }
    ensures boot_read { partition_with_members (rights [] [] (codes "r"))
        ≡ Some (Ok (plain_partition 0x40000000 0x40000000)) }
    ensures boot_write { partition_with_members (rights [] [] (codes "w"))
        ≡ Some (Ok (plain_partition 0x80000000 0x80000000)) }
    ensures all { partition_with_members (rights (codes "rw") (codes "rw") (codes "rw"))
        ≡ Some (Ok (plain_partition 0xfc000000 0xfc000000)) }
{}

/// A partition says the permissions in both its words. The bits 20 to 25 of its flag word say
/// nothing.
pub fn words_of_partitions()
    ensures another { (i : ℕ) (d : Data)
        → ¬ (SaysText i d (plain_partition 0xfc006002 0xf8000000)) }
    ensures silent { IfSome (read (part (codes "2") (codes "3") []))
        (λ d. SaysText 0 d (plain_partition 0xfc006002 0xfff00000)) }
{}

/// Permissions are an object with exactly three members.
pub fn permissions_are_exact()
    ensures turned { partition_with_members (rights (codes "wr") [] [])
        ≡ part_value Field.Permissions }
    ensures more { partition_with_members (codes "\"permissions\":"
        ++ codes "{\"secure\":\"\",\"nonsecure\":\"\",\"bootloader\":\"\",\"x\":\"\"}")
        ≡ part_value Field.Permissions }
    ensures fewer { partition_with_members (codes "\"permissions\":"
        ++ codes "{\"secure\":\"\",\"nonsecure\":\"\"}")
        ≡ part_value Field.Permissions }
    ensures text { partition_with_members (codes "\"permissions\":"
        ++ codes "\"rw\"")
        ≡ part_value Field.Permissions }
    ensures null { partition_with_members (codes "\"permissions\":"
        ++ codes "{\"secure\":null,\"nonsecure\":\"\",\"bootloader\":\"\"}")
        ≡ part_value Field.Permissions }
{}

/// Versions on both sides of their bound, and other forms.
pub fn versions_are_read()
    ensures greatest { table_said
        (codes "{\"version\":[65535,65535],\"unpartitioned\":{" ++ all_rights
        ++ codes "},\"partitions\":[]}")
        ≡ Some (Ok (versioned 65535 65535)) }
    ensures major_first { table_said
        (codes "{\"version\":[1,2],\"unpartitioned\":{" ++ all_rights
        ++ codes "},\"partitions\":[]}")
        ≡ Some (Ok (versioned 1 2)) }
    ensures major_past { table_said
        (codes "{\"version\":[65536,0],\"unpartitioned\":{" ++ all_rights
        ++ codes "},\"partitions\":[]}")
        ≡ top_value Field.Version }
    ensures minor_past { table_said
        (codes "{\"version\":[0,65536],\"unpartitioned\":{" ++ all_rights
        ++ codes "},\"partitions\":[]}")
        ≡ top_value Field.Version }
    ensures short { table_said
        (codes "{\"version\":[1],\"unpartitioned\":{" ++ all_rights
        ++ codes "},\"partitions\":[]}")
        ≡ top_value Field.Version }
    ensures long { table_said
        (codes "{\"version\":[1,0,0],\"unpartitioned\":{" ++ all_rights
        ++ codes "},\"partitions\":[]}")
        ≡ top_value Field.Version }
    ensures text { table_said
        (codes "{\"version\":\"1.0\",\"unpartitioned\":{" ++ all_rights
        ++ codes "},\"partitions\":[]}")
        ≡ top_value Field.Version }
{}

/// Fifteen partitions are judged, one after the other; sixteen are too many.
pub fn partitions_are_counted()
    ensures fifteen { table_said
        (codes "{\"unpartitioned\":{" ++ all_rights ++ codes "},\"partitions\":"
        ++ list_of 14 (codes "0")
        ++ codes "}")
        ≡ Some (Err (JsonFault.Value (Place.Partition 0) Field.Families)) }
    ensures sixteen { table_said
        (codes "{\"unpartitioned\":{" ++ all_rights ++ codes "},\"partitions\":"
        ++ list_of 15 (codes "0")
        ++ codes "}")
        ≡ top_value Field.Partitions }
    ensures second { table_said (table_of_parts (part (codes "2") (codes "3") [] ++ codes ",{}"))
        ≡ Some (Err (JsonFault.Missing (Place.Partition 1) Field.First)) }
{}

/// A member of another object is not listed, nor is one of another tool's text. An object has no
/// more members than those that the other examples give it. No family is named `rp2350-arm`.
pub fn members_belong_to_their_objects()
    ensures table_id { table_said (codes "{\"id\":1,\"unpartitioned\":{" ++ all_rights
        ++ codes "},\"partitions\":[]}") ≡ Some (Err (JsonFault.Unknown Place.Top)) }
    ensures outside_first { table_said (codes "{\"unpartitioned\":{\"first\":1," ++ all_rights
        ++ codes "},\"partitions\":[]}") ≡ Some (Err (JsonFault.Unknown Place.Unpartitioned)) }
    ensures part_start { part_and (codes ",\"start\":2")
        ≡ Some (Err (JsonFault.Unknown (Place.Partition 0))) }
    ensures part_size { part_and (codes ",\"size\":4096")
        ≡ Some (Err (JsonFault.Unknown (Place.Partition 0))) }
    ensures part_version { part_and (codes ",\"version\":[1,0]")
        ≡ Some (Err (JsonFault.Unknown (Place.Partition 0))) }
    ensures spec_families { spec_in (codes "{\"processor\":\"arm\",\"families\":[]}")
        ≡ Some (Err (JsonFault.Unknown Place.Top)) }
    ensures rights_first { partition_with_members (codes "\"permissions\":"
        ++ codes "{\"secure\":\"\",\"nonsecure\":\"\",\"bootloader\":\"\",\"first\":\"\"}")
        ≡ part_value Field.Permissions }
    ensures family { part_and (codes ",\"families\":[\"rp2350-arm\"]")
        ≡ part_value Field.Families }
    ensures table_members { length (names_of OfTable) ≡ 4 }
    ensures outside_members { length (names_of OfUnpartitioned) ≡ 2 }
    ensures part_members { length (names_of OfPartition) ≡ 10 }
    ensures rights_members { length (names_of OfPermissions) ≡ 3 }
    ensures spec_members { length (names_of OfSpec) ≡ 5 }
    ensures families { length family_names ≡ 6 }
{}

/// Two faults of the top object each: the first of them is the answer.
pub fn tops_are_judged_in_order()
    ensures list { table_said (codes "[]") ≡ top_value Field.Partitions }
    ensures unknown_version { table_said (codes "{\"x\":0,\"version\":0}")
        ≡ Some (Err (JsonFault.Unknown Place.Top)) }
    ensures unknown_missing { table_said (codes "{\"x\":0}")
        ≡ Some (Err (JsonFault.Unknown Place.Top)) }
    ensures version_singleton { table_said (codes "{\"singleton\":0,\"version\":0}")
        ≡ top_value Field.Version }
    ensures singleton_missing { table_said (codes "{\"singleton\":0}") ≡ top_value Field.Singleton }
    ensures unpartitioned_partitions { table_said (codes "{}") ≡ top_missing Field.Unpartitioned }
    ensures partitions_value { table_said (codes "{\"unpartitioned\":0}")
        ≡ top_missing Field.Partitions }
    ensures top_inner { table_said (codes "{\"unpartitioned\":0,\"partitions\":0}")
        ≡ top_value Field.Partitions }
{}

/// Unpartitioned comes before the partitions, and each before the faults of the whole table.
pub fn parts_are_judged_in_order()
    ensures no_object { table_said
        (codes "{\"unpartitioned\":0,\"partitions\":[0]}")
        ≡ outside_value Field.Families }
    ensures unknown { table_said
        (codes "{\"unpartitioned\":{\"x\":0,\"families\":0},\"partitions\":[0]}")
        ≡ Some (Err (JsonFault.Unknown Place.Unpartitioned)) }
    ensures families { table_said
        (codes "{\"unpartitioned\":{\"families\":0},\"partitions\":[0]}")
        ≡ outside_value Field.Families }
    ensures missing { table_said
        (codes "{\"unpartitioned\":{},\"partitions\":[0]}")
        ≡ Some (Err (JsonFault.Missing Place.Unpartitioned Field.Permissions)) }
    ensures value { table_said
        (codes "{\"unpartitioned\":{\"permissions\":0},\"partitions\":[0]}")
        ≡ outside_value Field.Permissions }
    ensures part_part { table_said
        (table_of_parts (part (codes "2") (codes "3") (codes ",\"no_reboot\":0")
        ++ codes ",{\"x\":0}"))
        ≡ Some (Err (JsonFault.Value (Place.Partition 0) Field.NoReboot)) }
    ensures part_range { table_said (table_of_parts (part (codes "0") (codes "0") [] ++ codes ",0"))
        ≡ Some (Err (JsonFault.Value (Place.Partition 1) Field.Families)) }
{}

/// Two faults of a partition each: the first of them is the answer.
pub fn partitions_are_judged_in_order()
    ensures list { first_partition_in (codes "[]") ≡ part_value Field.Families }
    ensures unknown_first { first_partition_in (codes "{\"x\":0}")
        ≡ Some (Err (JsonFault.Unknown (Place.Partition 0))) }
    ensures first_last { first_partition_in (codes "{\"last\":8192}") ≡ part_missing Field.First }
    ensures first_value { first_partition_in (codes "{\"first\":8192}") ≡ part_value Field.First }
    ensures last_families { first_partition_in (codes "{\"first\":2,\"families\":0}")
        ≡ part_missing Field.Last }
    ensures families_permissions { first_partition_in
        (codes "{\"first\":2,\"last\":3,\"families\":0}")
        ≡ part_value Field.Families }
    ensures permissions_id { first_partition_in (codes "{\"first\":2,\"last\":3,\"id\":-1}")
        ≡ part_missing Field.Permissions }
    ensures id_name { part_and (codes ",\"name\":0,\"id\":-1") ≡ part_value Field.Id }
    ensures name_link { part_and (codes ",\"link\":0,\"name\":0") ≡ part_value Field.Name }
    ensures link_arm { part_and (codes ",\"ignore_arm\":0,\"link\":0") ≡ part_value Field.Link }
    ensures arm_riscv { part_and (codes ",\"ignore_riscv\":0,\"ignore_arm\":0")
        ≡ part_value Field.IgnoreArm }
    ensures riscv_stays { part_and (codes ",\"no_reboot\":0,\"ignore_riscv\":0")
        ≡ part_value Field.IgnoreRiscv }
    ensures stays { part_and (codes ",\"no_reboot\":0") ≡ part_value Field.NoReboot }
{}

/// A block of 640 bytes is a table, and one of 644 bytes is too long.
pub fn sizes_are_judged()
    ensures fits { option_map is_ok
        (table_said (table_of_parts (part (codes "2") (codes "2") (name_member 127) ++ codes ","
        ++ part (codes "3") (codes "3") (name_member 127) ++ codes ","
        ++ part (codes "4") (codes "4") (name_member 127) ++ codes ","
        ++ part (codes "5") (codes "5") (name_member 127) ++ codes ","
        ++ part (codes "6") (codes "6") (codes ",\"id\":1,\"families\":[1]"))))
        ≡ Some true }
    ensures too_long { table_said
        (table_of_parts (part (codes "0") (codes "0") (name_member 127) ++ codes ","
        ++ part (codes "0") (codes "0") (name_member 127) ++ codes ","
        ++ part (codes "0") (codes "0") (name_member 127) ++ codes ","
        ++ part (codes "0") (codes "0") (name_member 127) ++ codes ","
        ++ part (codes "0") (codes "0") (codes ",\"id\":1,\"families\":[1,2]")))
        ≡ Some (Err (JsonFault.TooLong 644)) }
{}

/// The faults of the whole table, in a flash of 4096 sectors; two of them are not free.
pub fn faults_are_those_of_tables()
    ensures overlap { table_said (table_of_parts (part (codes "2") (codes "31") [] ++ codes ","
        ++ part (codes "31") (codes "61") []))
        ≡ Some (Err (JsonFault.Table (TableFault.Overlap 0 1))) }
    ensures low { table_said (table_of_parts (part (codes "1") (codes "1") []))
        ≡ Some (Err (JsonFault.Table (TableFault.Range 0))) }
    ensures lowest { option_map is_ok
        (table_said (table_of_parts (part (codes "2") (codes "2") [])))
        ≡ Some true }
    ensures high { table_said (table_of_parts (part (codes "4096") (codes "4096") []))
        ≡ Some (Err (JsonFault.Table (TableFault.Range 0))) }
    ensures highest { option_map is_ok
        (table_said (table_of_parts (part (codes "4095") (codes "4095") [])))
        ≡ Some true }
    ensures link { table_said
        (table_of_parts (part (codes "2") (codes "2") (codes ",\"link\":[\"a\",0]")))
        ≡ Some (Err (JsonFault.Table (TableFault.Link 0))) }
{}

/// Specs, with their defaults.
pub fn specs_are_read()
    ensures least { spec_in (codes "{\"processor\":\"arm\"}") ≡ plain_spec Cpu.Arm None [] }
    ensures riscv { spec_in (codes "{\"processor\":\"riscv\",\"trial\":false}")
        ≡ plain_spec Cpu.Riscv None [] }
    ensures version { spec_in
        (codes "{\"processor\":\"arm\",\"version\":[1,9]}")
        ≡ Some (Ok (spec_with Cpu.Arm
        (record { major = 1; minor = 9 }) None (record { items = [] }) false)) }
    ensures trial { spec_in
        (codes "{\"processor\":\"arm\",\"trial\":true}")
        ≡ Some (Ok (spec_with Cpu.Arm
        (record { major = 0; minor = 0 }) None (record { items = [] }) true)) }
    ensures rollback { spec_in (codes "{\"processor\":\"arm\",\"rollback\":1}")
        ≡ plain_spec Cpu.Arm (Some 1) [] }
    ensures rows { spec_in (codes "{\"processor\":\"arm\",\"rollback\":65535,\"rows\":[65535,0]}")
        ≡ plain_spec Cpu.Arm (Some 65535) (65535 ∷ 0 ∷ []) }
    ensures last_of_two { spec_in (codes "{\"processor\":0,\"processor\":\"arm\"}")
        ≡ plain_spec Cpu.Arm None [] }
{}

/// Specs with values on both sides of their bounds.
pub fn specs_have_bounds()
    ensures processor { spec_in (codes "{\"processor\":\"x86\"}") ≡ top_value Field.Processor }
    ensures rollback { spec_in (codes "{\"processor\":\"arm\",\"rollback\":65536}")
        ≡ top_value Field.Rollback }
    ensures row { spec_in (codes "{\"processor\":\"arm\",\"rows\":[65536]}")
        ≡ top_value Field.Rows }
    ensures thirty_two { spec_in
        (codes "{\"processor\":\"arm\",\"rows\":" ++ list_of 31 (codes "7") ++ codes "}")
        ≡ plain_spec Cpu.Arm None (replicate 32 7) }
    ensures thirty_three { spec_in
        (codes "{\"processor\":\"arm\",\"rows\":" ++ list_of 32 (codes "7") ++ codes "}")
        ≡ top_value Field.Rows }
    ensures rows_number { spec_in (codes "{\"processor\":\"arm\",\"rows\":7}")
        ≡ top_value Field.Rows }
    ensures trial { spec_in (codes "{\"processor\":\"arm\",\"trial\":null}")
        ≡ top_value Field.Trial }
{}

/// Two faults of a spec each: the first of them is the answer.
pub fn specs_are_judged_in_order()
    ensures list { spec_in (codes "[]") ≡ top_value Field.Processor }
    ensures unknown_processor { spec_in (codes "{\"x\":0}")
        ≡ Some (Err (JsonFault.Unknown Place.Top)) }
    ensures missing_version { spec_in (codes "{\"version\":0}") ≡ top_missing Field.Processor }
    ensures processor_version { spec_in (codes "{\"version\":0,\"processor\":0}")
        ≡ top_value Field.Processor }
    ensures version_rollback { spec_in
        (codes "{\"processor\":\"arm\",\"rollback\":-1,\"version\":0}")
        ≡ top_value Field.Version }
    ensures rollback_rows { spec_in (codes "{\"processor\":\"arm\",\"rows\":0,\"rollback\":-1}")
        ≡ top_value Field.Rollback }
    ensures rows_trial { spec_in (codes "{\"processor\":\"arm\",\"trial\":0,\"rows\":0}")
        ≡ top_value Field.Rows }
{}

/// A text nests at most 127 deep.
pub fn texts_nest_so_deep()
    ensures deepest { spec_in (nested 127) ≡ top_value Field.Processor }
    ensures past { spec_in (nested 128) ≡ None }
{}
