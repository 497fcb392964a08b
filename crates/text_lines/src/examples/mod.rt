//! Worked examples of the texts, proved by computing: each is the `ensures` of a function that does
//! nothing.

ghost use Rattle.std.specs.Prelude.{◌≡◌, ◌-◌, ◌^◌, ◌++◌, ℕ, List, [], ◌∷◌, length, codes, replicate, Some, None, Err, true, false};
ghost use Rattle.sha2.specs.Sha256.{sha256};
ghost use Rattle.pico_board.specs.declared.window.Window.{Window};
ghost use Rattle.block_loop.specs.declared.fault.LoopFault.TheVariants.{Broken, TooMany, Overlap};
ghost use Rattle.image_def.specs.declared.fault.DefFault.TheVariants.{Repeated, BadItem, BadRow, RepeatedRow};
ghost use Rattle.load_map.specs.declared.load.MapFault.TheVariants.{Storage, Runtime, CoversBlock};
ghost use Rattle.image_check.specs.declared.why.Why.TheVariants.{NoBlock, Loop, NoDefinition, NotForProcessor, Items, Trial, RollbackRequired, Below, Map, Entry, Digest, Delta};
ghost use Rattle.image_check.specs.declared.why.EntryFault.TheVariants.{Table, InBlock, Pc};
ghost use Rattle.uf2_place.specs.declared.block.Uf2Fault.{Uf2Fault};
ghost use Rattle.uf2_place.specs.declared.block.Uf2Fault.TheVariants.{Magic, Payload, Alignment, Number};
ghost use Rattle.uf2_place.specs.declared.answer.Accepted.{Accepted};
ghost use Rattle.uf2_place.specs.declared.answer.Accepted.TheVariants.{Skipped, Again, Taken, Done};
ghost use Rattle.uf2_place.specs.declared.answer.PlaceFault.{PlaceFault};
ghost use Rattle.uf2_place.specs.declared.answer.PlaceFault.TheVariants as faults;
ghost use Rattle.boot_rules.specs.declared.decision.Decision.TheVariants.{Start, Bootsel};
ghost use Rattle.boot_rules.specs.declared.decision.Fall.{Fall};
ghost use Rattle.boot_rules.specs.declared.decision.Fall.TheVariants.{Requested, FlashOff, NoImage};
ghost use Rattle.text_lines.specs.Texts.{decision_line, table_text, image_text, valid_text, data_text};
ghost use Rattle.text_lines.specs.Faults.{why_text};
ghost use Rattle.text_lines.specs.Events.{boot_text, booted_text, IsOutcome, outcome_text};
ghost use Rattle.text_lines.specs.Outcomes.{accepted_outcome, answered, boot_outcome, command_outcome, ram_start_outcome, refused_outcome, with_boot};
ghost use Rattle.text_lines.specs.declared.outcome.CommandAnswer.{CommandAnswer};
ghost use Rattle.text_lines.specs.declared.outcome.CommandAnswer.TheVariants as answers;
ghost use Rattle.text_lines.specs.declared.outcome.Refusal.{Refusal};
ghost use Rattle.text_lines.specs.declared.outcome.Refusal.TheVariants as refusals;
ghost use Rattle.text_lines.specs.declared.outcome.BlockOutcome.TheVariants as block_outcomes;
ghost use Rattle.text_lines.specs.declared.outcome.EventOutcome.{EventOutcome};
ghost use Rattle.text_lines.specs.declared.outcome.EventOutcome.TheVariants as events;
ghost use Rattle.text_lines.specs.Examples.{image_in, ram_image, start_of, widest, command, small_window, example_image, example_choice, example_found};

/// The texts of boots, and of boots that an event asks for.
pub fn boots()
    ensures start { boot_text (start_of (image_in 0x2000 0x1e000 0x100 1 0 None false))
        ≡ codes "boot start window=0x00002000+0x0001e000 block=0x00000100 pc=0x10000201 "
        ++ codes "sp=0x20082000 limit=0x00000000 version=1.0 rollback=none trial=no" }
    ensures trial { boot_text (start_of (image_in 0x20000 0x1e000 0x100 1 1 (Some 3) true))
        ≡ codes "boot start window=0x00020000+0x0001e000 block=0x00000100 pc=0x10000201 "
        ++ codes "sp=0x20082000 limit=0x00000000 version=1.1 rollback=3 trial=yes" }
    ensures requested { boot_text (Bootsel Requested) ≡ codes "boot bootsel requested" }
    ensures flash_off { boot_text (Bootsel FlashOff) ≡ codes "boot bootsel flash-off" }
    ensures no_image { boot_text (Bootsel NoImage) ≡ codes "boot bootsel no-image" }
    ensures booted { booted_text (Bootsel NoImage) ≡ codes " boot bootsel no-image" }
{}

/// The texts of commands. A reply is shown for a read, an info command and an OTP read with status
/// 0, and for no other.
pub fn commands()
    ensures xip { outcome_text (command_outcome (command 0x07 1) 0 [])
        ≡ codes "cmd 0x07 token=0x00000001 status=0" }
    ensures refused { outcome_text (command_outcome (command 0x0d 4) 17 [])
        ≡ codes "cmd 0x0d token=0x00000004 status=17" }
    ensures read { outcome_text (command_outcome (command 0x84 1) 0 (0x61 ∷ 0x62 ∷ 0x63 ∷ []))
        ≡ codes "cmd 0x84 token=0x00000001 status=0 reply=3 sha256=ba7816bf8f01cfea"
        ++ codes "414140de5dae2223b00361a396177a9cb410ff61f20015ad" }
    ensures info { outcome_text (command_outcome (command 0x8b 2) 0 [])
        ≡ codes "cmd 0x8b token=0x00000002 status=0 reply=0 sha256=e3b0c44298fc1c14"
        ++ codes "9afbf4c8996fb92427ae41e4649b934ca495991b7852b855" }
    ensures otp_read { outcome_text (command_outcome (command 0x8c 3) 0 [])
        ≡ codes "cmd 0x8c token=0x00000003 status=0 reply=0 sha256=e3b0c44298fc1c14"
        ++ codes "9afbf4c8996fb92427ae41e4649b934ca495991b7852b855" }
    ensures not_served { outcome_text (command_outcome (command 0x8b 2) 12 [])
        ≡ codes "cmd 0x8b token=0x00000002 status=12" }
    ensures write { outcome_text (command_outcome (command 0x05 1) 0 [])
        ≡ codes "cmd 0x05 token=0x00000001 status=0" }
{}

/// What commands are answered, as values.
pub fn answers_of_commands()
    ensures done { command_outcome (command 0x07 1) 0 [] ≡ answered (command 0x07 1) answers.Done }
    ensures no_reply { command_outcome (command 0x05 1) 0 (1 ∷ [])
        ≡ answered (command 0x05 1) answers.Done }
    ensures refused { command_outcome (command 0x84 1) 1 (1 ∷ [])
        ≡ answered (command 0x84 1) (answers.Refused 1) }
    ensures replied { (digest : List ℕ) → digest ≡ sha256 (7 ∷ 9 ∷ [])
        → command_outcome (command 0x84 1) 0 (7 ∷ 9 ∷ [])
        ≡ answered (command 0x84 1) (answers.Replied (record { count = 2; digest = digest })) }
    ensures ram { ram_start_outcome (command 0x0a 2) ram_image
        ≡ answered (command 0x0a 2) (answers.RamStarted ram_image) }
{}

/// A boot stands behind the event that asks for it, or by itself. No event but a command and a
/// block that is accepted asks for one.
pub fn boots_of_events()
    ensures alone { boot_outcome None (Bootsel NoImage) ≡ events.Booted (Bootsel NoImage) }
    ensures command { boot_outcome (Some (command_outcome (command 0x0a 2) 0 [])) (Bootsel NoImage)
        ≡ answered (command 0x0a 2) (answers.Booted (Bootsel NoImage)) }
    ensures block { (accepted : Accepted)
        → boot_outcome (Some (accepted_outcome 3 accepted)) (Bootsel NoImage)
        ≡ events.Block (block_outcomes.Downloaded 3 (Bootsel NoImage)) }
    ensures form { (fault : Uf2Fault) → with_boot (events.Block (block_outcomes.BadForm fault))
        (Bootsel NoImage) ≡ events.Block (block_outcomes.BadForm fault) }
    ensures refused { (refusal : Refusal)
        → with_boot (events.Block (block_outcomes.Refused refusal))
        (Bootsel NoImage) ≡ events.Block (block_outcomes.Refused refusal) }
    ensures once { with_boot (events.Block (block_outcomes.Downloaded 3 (Bootsel NoImage)))
        (Bootsel Requested) ≡ events.Block (block_outcomes.Downloaded 3 (Bootsel NoImage)) }
    ensures off { with_boot events.Off (Bootsel NoImage) ≡ events.Off }
    ensures ignored { with_boot events.Ignored (Bootsel NoImage) ≡ events.Ignored }
    ensures end { with_boot events.Ended (Bootsel NoImage) ≡ events.Ended }
    ensures armed { with_boot events.CutArmed (Bootsel NoImage) ≡ events.CutArmed }
    ensures lost { with_boot events.PowerLost (Bootsel NoImage) ≡ events.PowerLost }
    ensures booted { with_boot (events.Booted (Bootsel NoImage)) (Bootsel Requested)
        ≡ events.Booted (Bootsel NoImage) }
    ensures bought { with_boot events.Bought (Bootsel NoImage) ≡ events.Bought }
    ensures none { with_boot events.NothingToBuy (Bootsel NoImage) ≡ events.NothingToBuy }
    ensures magic { with_boot events.BadMagic (Bootsel NoImage) ≡ events.BadMagic }
{}

/// Commands that reboot.
pub fn reboots()
    ensures boot { outcome_text (answered (command 0x0a 2) (answers.Booted (Bootsel NoImage)))
        ≡ codes "cmd 0x0a token=0x00000002 status=0 boot bootsel no-image" }
    ensures ram { outcome_text (ram_start_outcome (command 0x0a 2) ram_image)
        ≡ codes "cmd 0x0a token=0x00000002 status=0 boot start ram=0x20000000+0x0000001c "
        ++ codes "block=0x00000008 pc=0x20000021 sp=0x20082000 limit=0x00000000 version=0.0 "
        ++ codes "rollback=none trial=no" }
{}

/// The texts of UF2 blocks.
pub fn blocks()
    ensures magic { outcome_text (events.Block (block_outcomes.BadForm Magic))
        ≡ codes "uf2 bad magic" }
    ensures payload { outcome_text (events.Block (block_outcomes.BadForm Payload))
        ≡ codes "uf2 bad payload" }
    ensures alignment { outcome_text (events.Block (block_outcomes.BadForm Alignment))
        ≡ codes "uf2 bad alignment" }
    ensures number { outcome_text (events.Block (block_outcomes.BadForm Number))
        ≡ codes "uf2 bad number" }
    ensures no_target { outcome_text (refused_outcome faults.NoTarget)
        ≡ codes "uf2 refused no-target" }
    ensures outside { outcome_text (refused_outcome faults.Outside) ≡ codes "uf2 refused outside" }
    ensures not_permitted { outcome_text (refused_outcome faults.NotPermitted)
        ≡ codes "uf2 refused not-permitted" }
    ensures power_lost { refused_outcome faults.PowerLost ≡ events.PowerLost }
    ensures skipped { outcome_text (accepted_outcome 7 Skipped) ≡ codes "uf2 skipped" }
    ensures again { outcome_text (accepted_outcome 1 Again) ≡ codes "uf2 1 again" }
    ensures taken { outcome_text (accepted_outcome 65535 Taken) ≡ codes "uf2 65535 taken" }
    ensures stay { (w : Window) → outcome_text (accepted_outcome 1
        (Done (record { window = w; gated = true; stay = true }))) ≡ codes "uf2 1 done stay" }
    ensures done { (w : Window) → outcome_text (accepted_outcome 1
        (Done (record { window = w; gated = true; stay = false }))) ≡ codes "uf2 1 done" }
    ensures booted { outcome_text (events.Block
        (block_outcomes.Downloaded 1 (start_of (image_in 0 0x100000 0x114 0 0 None false))))
        ≡ codes "uf2 1 done boot start window=0x00000000+0x00100000 block=0x00000114 pc=0x10000201 "
        ++ codes "sp=0x20082000 limit=0x00000000 version=0.0 rollback=none trial=no" }
{}

/// The texts of the other events.
pub fn other_events()
    ensures off { outcome_text events.Off ≡ codes "off" }
    ensures ignored { outcome_text events.Ignored ≡ codes "ignored" }
    ensures cut { outcome_text events.CutArmed ≡ codes "cut armed" }
    ensures power { outcome_text events.PowerLost ≡ codes "power lost" }
    ensures end { outcome_text events.Ended ≡ codes "end" }
    ensures bought { outcome_text events.Bought ≡ codes "buy done" }
    ensures none { outcome_text events.NothingToBuy ≡ codes "buy none" }
    ensures magic { outcome_text events.BadMagic ≡ codes "cmd bad-magic" }
    ensures boots { outcome_text (events.Booted (Bootsel NoImage)) ≡ codes "boot bootsel no-image" }
{}

/// The law on the longest text speaks of all numbers that the fields hold, the greatest ones too,
/// and of all decisions, forms and refusals.
pub fn the_greatest_numbers_are_told()
    ensures boots { IsOutcome (events.Booted (start_of widest)) }
    ensures falls { (fall : Fall) → IsOutcome (events.Booted (Bootsel fall)) }
    ensures refused { IsOutcome
        (answered (command 0xff 0xffffffff) (answers.Refused (2 ^ 32 - 1))) }
    ensures done { IsOutcome (answered (command 0xff 0xffffffff) answers.Done) }
    ensures replied { IsOutcome (answered (command 0xff 0xffffffff)
        (answers.Replied (record { count = 2 ^ 32 - 1; digest = replicate 32 255 }))) }
    ensures rebooted { IsOutcome
        (answered (command 0x0a 0xffffffff) (answers.Booted (start_of widest))) }
    ensures ram { IsOutcome (ram_start_outcome (command 0x0a 0xffffffff) widest) }
    ensures without_rollback { IsOutcome (ram_start_outcome (command 0x0a 0) ram_image) }
    ensures placed { (accepted : Accepted) → IsOutcome (accepted_outcome (2 ^ 32 - 1) accepted) }
    ensures downloaded { IsOutcome
        (events.Block (block_outcomes.Downloaded (2 ^ 32 - 1) (start_of widest))) }
    ensures forms { (fault : Uf2Fault) → IsOutcome (events.Block (block_outcomes.BadForm fault)) }
    ensures refusals { (fault : PlaceFault) → IsOutcome (refused_outcome fault) }
{}

/// A longest text: a reboot command that starts an image with the greatest numbers.
pub fn a_longest_text()
    ensures text { outcome_text
        (answered (command 0x0a 0xffffffff) (answers.Booted (start_of widest)))
        ≡ codes "cmd 0x0a token=0xffffffff status=0 boot start window=0xffffffff+0xffffffff "
        ++ codes "block=0xffffffff pc=0xffffffff sp=0xffffffff limit=0xffffffff "
        ++ codes "version=65535.65535 rollback=65535 trial=yes" }
    ensures len { length (outcome_text
        (answered (command 0x0a 0xffffffff) (answers.Booted (start_of widest)))) ≡ 181 }
{}

/// The lines of images that start, and those of the falls.
pub fn decision_lines()
    ensures start { decision_line (Start (example_choice (example_image 0 0 None false)))
        ≡ codes "start window=0x00000000+0x00002000 block=0x00000114 pc=0x10000201 sp=0x20082000 "
        ++ codes "limit=0x00000000 version=0.0 rollback=none trial=no\n" }
    ensures trial { decision_line (Start (example_choice (example_image 1 10 (Some 3) true)))
        ≡ codes "start window=0x00000000+0x00002000 block=0x00000114 pc=0x10000201 sp=0x20082000 "
        ++ codes "limit=0x00000000 version=1.10 rollback=3 trial=yes\n" }
    ensures requested { decision_line (Bootsel Requested) ≡ codes "bootsel requested\n" }
    ensures flash_off { decision_line (Bootsel FlashOff) ≡ codes "bootsel flash-off\n" }
    ensures no_image { decision_line (Bootsel NoImage) ≡ codes "bootsel no-image\n" }
{}

/// The texts of tables, windows and data.
pub fn window_texts()
    ensures none { table_text None ≡ codes "table none" }
    ensures found { table_text (Some example_found)
        ≡ codes "table slot=1 version=1.9 partitions=2" }
    ensures valid { valid_text small_window (example_image 1 9 (Some 3) false)
        ≡ codes "image window=0x00000000+0x00002000 ok version=1.9 rollback=3" }
    ensures invalid { image_text small_window (Err (Loop TooMany))
        ≡ codes "image window=0x00000000+0x00002000 fault=loop too-many" }
    ensures data { data_text small_window ≡ codes "data window=0x00000000+0x00002000" }
{}

/// Why an image is not valid.
pub fn reasons()
    ensures no_block { why_text NoBlock ≡ codes "no-block" }
    ensures broken { why_text (Loop (Broken 0x100)) ≡ codes "loop broken at=0x00000100" }
    ensures too_many { why_text (Loop TooMany) ≡ codes "loop too-many" }
    ensures overlap { why_text (Loop (Overlap 1 3)) ≡ codes "loop overlap 1 3" }
    ensures no_definition { why_text NoDefinition ≡ codes "no-definition" }
    ensures not_for_processor { why_text NotForProcessor ≡ codes "not-for-processor" }
    ensures repeated { why_text (Items (Repeated 0x42)) ≡ codes "item repeated 0x42" }
    ensures bad_item { why_text (Items (BadItem 0x06)) ≡ codes "item bad 0x06" }
    ensures bad_row { why_text (Items (BadRow 0x0bf)) ≡ codes "row bad 0x0bf" }
    ensures repeated_row { why_text (Items (RepeatedRow 0xefd)) ≡ codes "row repeated 0xefd" }
    ensures trial { why_text Trial ≡ codes "trial" }
    ensures rollback_required { why_text RollbackRequired ≡ codes "rollback-required" }
    ensures below { why_text (Below 3 4) ≡ codes "rollback 3 below 4" }
    ensures storage { why_text (Map (Storage 0)) ≡ codes "map storage 0" }
    ensures runtime { why_text (Map (Runtime 1)) ≡ codes "map runtime 1" }
    ensures covers_block { why_text (Map (CoversBlock 12)) ≡ codes "map covers-block 12" }
    ensures table { why_text (Entry Table) ≡ codes "entry table" }
    ensures in_block { why_text (Entry InBlock) ≡ codes "entry in-block" }
    ensures pc { why_text (Entry Pc) ≡ codes "entry pc" }
    ensures digest { why_text Digest ≡ codes "digest" }
    ensures delta { why_text Delta ≡ codes "delta" }
{}
