//! Worked examples of info commands: the words of each reply, each check, both sides of each
//! bound, and commands that fail two checks.

ghost use Rattle.std.specs.Prelude.{◌≡◌, Err, None, Ok, Some, [], ◌∷◌, false, true};
ghost use Rattle.part_table.specs.Examples.{named_table, pair_table, pair_version};
ghost use Rattle.info_reply.specs.declared.ask.Ask.TheVariants.{Device, Partition, Table, Target};
ghost use Rattle.info_reply.specs.Asks.{asked_info};
ghost use Rattle.info_reply.specs.Examples.{info, riscv_device, sized_info, status_on, target_with, words_on};
ghost use Rattle.info_reply.specs.Infos.{device_words, table_words};

/// The words of a table, and the word 0 without one.
pub fn tables()
    ensures pair { table_words 0 (Some pair_table) ≡ 0x80000002 ∷ 0 ∷ 0 ∷ 0xfc008000 ∷ 0xfc03e002
        ∷ 0xfc020000 ∷ 0xfc07a020 ∷ 0xfc020002 ∷ [] }
    ensures version { table_words 1 (Some (pair_version 1 2)) ≡ 0x80000002 ∷ 0x10002 ∷ 1
        ∷ 0xfc008000 ∷ 0xfc03e002 ∷ 0xfc020000 ∷ 0xfc07a020 ∷ 0xfc020002 ∷ [] }
    ensures singleton { table_words 1 (Some named_table) ≡ 0x80000101 ∷ 0 ∷ 1 ∷ 0 ∷ 0xfc006002
        ∷ 0xfc001101 ∷ [] }
    ensures none { table_words 1 None ≡ 0 ∷ [] }
    ensures on { words_on (Some named_table) None Table ≡ 0x80000101 ∷ 0 ∷ 1 ∷ 0 ∷ 0xfc006002
        ∷ 0xfc001101 ∷ [] }
{}

/// The words of a target, and the word 0 without one.
pub fn targets()
    ensures gated { words_on None (Some (target_with true false)) (Target 0xe48bff59)
        ≡ 1 ∷ 0x20000 ∷ 0x1e000 ∷ 1 ∷ [] }
    ensures stay { words_on None (Some (target_with false true)) (Target 0)
        ≡ 1 ∷ 0x20000 ∷ 0x1e000 ∷ 2 ∷ [] }
    ensures both { words_on None (Some (target_with true true)) (Target 0)
        ≡ 1 ∷ 0x20000 ∷ 0x1e000 ∷ 3 ∷ [] }
    ensures none { words_on (Some pair_table) None (Target 0xe48bff56) ≡ 0 ∷ [] }
{}

/// The words of the board.
pub fn boards()
    ensures arm { words_on None None Device ≡ 262144 ∷ 0 ∷ 2 ∷ 4096 ∷ [] }
    ensures riscv { device_words riscv_device ≡ 8192 ∷ 1 ∷ 3 ∷ 131072 ∷ [] }
{}

/// The words of a partition with an id, two extra families and a name, and of one without.
#[tactic(auto, unfolding(block_codec::specs::Words::word_of))]
pub fn partitions()
    ensures named { words_on (Some named_table) None (Partition 0) ≡ 0xfc006002 ∷ 0xfc001101
        ∷ 0x44332211 ∷ 0x88776655 ∷ 0x11111111 ∷ 0xe48bff5a ∷ 0x63626104 ∷ 0x64 ∷ [] }
    ensures plain { words_on (Some pair_table) None (Partition 1) ≡ 0xfc07a020 ∷ 0xfc020002 ∷ [] }
{}

/// What commands ask for, and kinds that are none.
pub fn kinds_of_infos()
    ensures id { (info 256 1 0).id ≡ 0x8b }
    ensures table { asked_info (info 256 1 7) [] ≡ Ok Table }
    ensures target { asked_info (info 256 2 0xe48bff59) [] ≡ Ok (Target 0xe48bff59) }
    ensures device { asked_info (info 16 3 7) [] ≡ Ok Device }
    ensures partition { asked_info (info 256 4 0x01000002) [] ≡ Ok (Partition 0x01000002) }
    ensures zero { asked_info (info 256 0 0) [] ≡ Err 11 }
    ensures five { asked_info (info 256 5 0) [] ≡ Err 11 }
{}

/// The checks of a command, both sides of each bound, and two that fail.
pub fn refusals()
    ensures size_fifteen { asked_info (sized_info 15 256 1 0) [] ≡ Err 2 }
    ensures size_seventeen { asked_info (sized_info 17 256 1 0) [] ≡ Err 2 }
    ensures transfer { asked_info (info 255 1 0) [] ≡ Err 3 }
    ensures half { asked_info (info 254 1 0) [] ≡ Err 3 }
    ensures none { asked_info (info 0 1 0) [] ≡ Ok Table }
    ensures payload { asked_info (info 256 1 0) (0 ∷ []) ≡ Err 3 }
    ensures size_and_transfer { asked_info (sized_info 15 255 1 0) [] ≡ Err 2 }
    ensures size_and_kind { asked_info (sized_info 15 256 0 0) [] ≡ Err 2 }
    ensures transfer_and_kind { asked_info (info 255 0 0) [] ≡ Err 3 }
    ensures payload_and_kind { asked_info (info 256 5 0) (0 ∷ []) ≡ Err 3 }
{}

/// Replies that are as long as the transfer length, and one word longer; partitions that are none;
/// and both.
#[tactic(auto, unfolding(block_codec::specs::Words::word_of))]
pub fn replies()
    ensures whole { status_on (Some pair_table) None Table 32 ≡ 0 }
    ensures longer { status_on (Some pair_table) None Table 28 ≡ 12 }
    ensures room { status_on (Some pair_table) None Table 256 ≡ 0 }
    ensures none { status_on None None Table 4 ≡ 0 }
    ensures none_longer { status_on None None Table 0 ≡ 12 }
    ensures target { status_on None (Some (target_with true true)) (Target 0) 16 ≡ 0 }
    ensures target_longer { status_on None (Some (target_with true true)) (Target 0) 12 ≡ 12 }
    ensures last_part { status_on (Some pair_table) None (Partition 1) 8 ≡ 0 }
    ensures no_part { status_on (Some pair_table) None (Partition 2) 256 ≡ 16 }
    ensures without_table { status_on None None (Partition 0) 256 ≡ 16 }
    ensures part_longer { status_on (Some named_table) None (Partition 0) 28 ≡ 12 }
    ensures part_whole { status_on (Some named_table) None (Partition 0) 32 ≡ 0 }
    ensures no_part_and_longer { status_on None None (Partition 0) 0 ≡ 16 }
{}
