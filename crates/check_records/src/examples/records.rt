//! Worked examples of events that did nothing, and of downloads that stay open.

ghost use Rattle.std.specs.Prelude.{◌≡◌, Err, None, Ok, Some, [], ◌∷◌, codes, false, replicate, true};
ghost use Rattle.boot_machine.specs.Examples.{arm_uf2_of_two, begun_download, busy, idle, machine_at, told_command, told_done, told_refused, uf2_block};
ghost use Rattle.boot_machine.specs.Machines.{InBootsel, Off};
ghost use Rattle.boot_rules.specs.declared.decision.Decision.{Decision};
ghost use Rattle.boot_script.specs.Events.{EventView};
ghost use Rattle.image_def.specs.declared.started.Started.{Started};
ghost use Rattle.pico_board.specs.Content.{Content};
ghost use Rattle.text_lines.specs.declared.outcome.BlockOutcome.TheVariants as blocks;
ghost use Rattle.text_lines.specs.declared.outcome.CommandAnswer.TheVariants as answers;
ghost use Rattle.text_lines.specs.declared.outcome.EventOutcome.TheVariants as events;
ghost use Rattle.text_lines.specs.declared.outcome.Refusal.{Refusal};
ghost use Rattle.text_lines.specs.declared.outcome.ReplySum.{ReplySum};
ghost use Rattle.text_lines.specs.Outcomes.{accepted_outcome, refused_outcome};
ghost use Rattle.uf2_place.specs.declared.answer.Accepted.{Accepted};
ghost use Rattle.uf2_place.specs.declared.answer.Accepted.TheVariants as accepted;
ghost use Rattle.uf2_place.specs.declared.answer.PlaceFault.TheVariants.{Outside};
ghost use Rattle.uf2_place.specs.declared.block.Uf2Fault.{Uf2Fault};
ghost use Rattle.check_records.specs.declared.downloads.Share.TheVariants.{Begins, Continues, Drops, Keeps};
ghost use Rattle.check_records.specs.declared.downloads.Stage.TheVariants.{Done, Lost, Taken};
ghost use Rattle.check_records.specs.Examples.{arm_of_two, begun_with, erratum_block, open_at};
ghost use Rattle.check_records.specs.Idle.{idle_from, is_idle, refused_of};
ghost use Rattle.check_records.specs.Shares.{block_share, counts, is_like, kind_at, kind_of, other_share, share_of};
ghost use Rattle.check_records.specs.Unfinished.{first_number, is_beginning, open_from};

/// An event that comes without power did nothing, but where power was lost before it. Ignored
/// events, buys of nothing, other bytes than a command's, commands with a status, and blocks that
/// break their form or are refused did nothing. Reads that are refused are none of these.
pub fn events_that_did_nothing()
    ensures off { is_idle false events.Off ≡ true }
    ensures off_behind_lost_power { is_idle true events.Off ≡ false }
    ensures ignored { is_idle true events.Ignored ≡ true }
    ensures buy_none { is_idle true events.NothingToBuy ≡ true }
    ensures bad_magic { is_idle true events.BadMagic ≡ true }
    ensures refused_write { is_idle true (told_refused 0x05 10) ≡ true }
    ensures refused_read { is_idle false (told_refused 0x84 4) ≡ false }
    ensures refused_info { is_idle false (told_refused 0x8b 16) ≡ false }
    ensures refused_rows { is_idle false (told_refused 0x8c 4) ≡ false }
    ensures below_read { is_idle false (told_refused 0x83 1) ≡ true }
    ensures above_read { is_idle false (told_refused 0x85 1) ≡ true }
    ensures below_info { is_idle false (told_refused 0x8a 1) ≡ true }
    ensures above_rows { is_idle false (told_refused 0x8d 1) ≡ true }
    ensures bad_block { (fault : Uf2Fault)
        → is_idle true (events.Block (blocks.BadForm fault)) ≡ true }
    ensures refused_block { (refusal : Refusal)
        → is_idle true (events.Block (blocks.Refused refusal)) ≡ true }
{}

/// No other event did nothing: neither a skipped block nor one that comes again.
pub fn other_outcomes()
    ensures done { is_idle false (told_done 0x05) ≡ false }
    ensures replied { (reply : ReplySum)
        → is_idle false (told_command 0x84 (answers.Replied reply)) ≡ false }
    ensures rebooted { (d : Decision)
        → is_idle false (told_command 0x0a (answers.Booted d)) ≡ false }
    ensures ram { (image : Started)
        → is_idle false (told_command 0x0a (answers.RamStarted image)) ≡ false }
    ensures accepted_block { (answer : Accepted)
        → is_idle false (accepted_outcome 0 answer) ≡ false }
    ensures downloaded { (d : Decision)
        → is_idle false (events.Block (blocks.Downloaded 0 d)) ≡ false }
    ensures ended { is_idle false events.Ended ≡ false }
    ensures armed { is_idle false events.CutArmed ≡ false }
    ensures lost { is_idle false events.PowerLost ≡ false }
    ensures booted { (d : Decision) → is_idle false (events.Booted d) ≡ false }
    ensures bought { is_idle false events.Bought ≡ false }
{}

/// The events that did nothing are counted, and the first of them is told.
pub fn the_first_is_told()
    ensures none { refused_of (idle_from false 0 (events.CutArmed ∷ events.Bought ∷ [])) ≡ None }
    ensures first { refused_of (idle_from false 0
        (events.CutArmed ∷ events.Ignored ∷ events.Bought ∷ events.BadMagic ∷ []))
        ≡ Some (record { count = 2; first = 1; outcome = events.Ignored }) }
    ensures without_power { refused_of (idle_from false 0 (events.Off ∷ events.Off ∷ []))
        ≡ Some (record { count = 2; first = 0; outcome = events.Off }) }
    ensures behind_lost_power { refused_of (idle_from false 0
        (events.Off ∷ events.PowerLost ∷ events.Off ∷ []))
        ≡ Some (record { count = 1; first = 0; outcome = events.Off }) }
{}

/// A block begins a download where it is taken, also as its last one, or loses power, and no
/// download of its family and its number of blocks is current.
pub fn blocks_that_begin()
    ensures taken { block_share None (Ok (arm_uf2_of_two 0x10000000 0))
        (accepted_outcome 0 accepted.Taken) ≡ Begins arm_of_two Taken }
    ensures lost { block_share None (Ok (arm_uf2_of_two 0x10000000 0)) events.PowerLost
        ≡ Begins arm_of_two Lost }
    ensures done { block_share None (Ok (uf2_block 0x2000 0x10000000 0 1 0xe48bff59))
        (accepted_outcome 0 (accepted.Done begun_download.target))
        ≡ Begins (begun_with 0xe48bff59 1 0) Done }
    ensures continued { block_share (Some arm_of_two.kind) (Ok (arm_uf2_of_two 0x10000000 1))
        (accepted_outcome 1 (accepted.Done begun_download.target)) ≡ Continues Done }
    ensures another_count { block_share (Some arm_of_two.kind)
        (Ok (uf2_block 0x2000 0x10000000 1 3 0xe48bff59)) (accepted_outcome 1 accepted.Taken)
        ≡ Begins (begun_with 0xe48bff59 3 1) Taken }
    ensures another_family { block_share (Some arm_of_two.kind)
        (Ok (uf2_block 0x2000 0x10000000 1 2 0xe48bff5a)) (accepted_outcome 1 accepted.Taken)
        ≡ Begins (begun_with 0xe48bff5a 2 1) Taken }
    ensures refused { block_share None (Ok (arm_uf2_of_two 0x10000000 0)) (refused_outcome Outside)
        ≡ Keeps }
    ensures skipped { block_share None (Ok (arm_uf2_of_two 0x10000000 0))
        (accepted_outcome 0 accepted.Skipped) ≡ Keeps }
    ensures again { block_share (Some arm_of_two.kind) (Ok (arm_uf2_of_two 0x10000000 0))
        (accepted_outcome 0 accepted.Again) ≡ Keeps }
    ensures form { (fault : Uf2Fault) → block_share None (Err fault) events.PowerLost ≡ Keeps }
{}

/// The kind of the current download is that of its first block. Another event keeps a download that
/// is current behind it.
pub fn events_that_keep()
    ensures kind { kind_at (Some begun_download) ≡ Some arm_of_two.kind }
    ensures none { kind_at None ≡ None }
    ensures keeps { other_share (InBootsel busy) ≡ Keeps }
    ensures idle { other_share (InBootsel idle) ≡ Drops }
    ensures off { other_share Off ≡ Drops }
    ensures other_bytes { (c : Content)
        → share_of (machine_at c (InBootsel busy)) (EventView.Uf2 (replicate 512 0)) ≡ Keeps }
    ensures without_power { (c : Content)
        → share_of (machine_at c Off) (EventView.Uf2 (replicate 512 0)) ≡ Drops }
{}

/// Downloads are of one kind where their family and their number of blocks are the same.
pub fn blocks_of_a_kind()
    ensures same { is_like arm_of_two.kind (kind_of (arm_uf2_of_two 0x10001000 1)) ≡ true }
    ensures another_count { is_like arm_of_two.kind (begun_with 0xe48bff59 3 0).kind ≡ false }
    ensures another_family { is_like arm_of_two.kind (begun_with 0xe48bff5a 2 0).kind ≡ false }
{}

/// Block 0 of 2 of the absolute family begins no download. Its second block does, and so does a
/// first block of another number of blocks, or of another family.
pub fn the_lone_block_begins_none()
    ensures lone { counts erratum_block ≡ false }
    ensures second { counts (begun_with 0xe48bff57 2 1) ≡ true }
    ensures of_one { counts (begun_with 0xe48bff57 1 0) ≡ true }
    ensures of_three { counts (begun_with 0xe48bff57 3 0) ≡ true }
    ensures rp2040 { counts (begun_with 0xe48bff56 2 0) ≡ true }
    ensures data { counts (begun_with 0xe48bff58 2 0) ≡ true }
    ensures begins { is_beginning (Begins arm_of_two Lost) ≡ true }
    ensures begins_none { is_beginning (Begins erratum_block Taken) ≡ false }
    ensures continued { is_beginning (Continues Done) ≡ false }
    ensures stays { open_from 0 (Begins erratum_block Taken ∷ []) ≡ [] }
{}

/// A download is done with the last block for which it waits, while nothing else becomes current.
pub fn downloads_that_are_done()
    ensures begun { open_from 0 (Begins arm_of_two Taken ∷ []) ≡ open_at 0 arm_of_two ∷ [] }
    ensures at_once { open_from 0 (Begins arm_of_two Done ∷ []) ≡ [] }
    ensures lost { open_from 0 (Begins arm_of_two Lost ∷ Continues Done ∷ [])
        ≡ open_at 0 arm_of_two ∷ [] }
    ensures later { open_from 0
        (Begins arm_of_two Taken ∷ Keeps ∷ Continues Taken ∷ Continues Done ∷ []) ≡ [] }
    ensures lost_later { open_from 0
        (Begins arm_of_two Taken ∷ Continues Lost ∷ Continues Done ∷ [])
        ≡ open_at 0 arm_of_two ∷ [] }
    ensures dropped { open_from 0 (Begins arm_of_two Taken ∷ Drops ∷ Continues Done ∷ [])
        ≡ open_at 0 arm_of_two ∷ [] }
    ensures taken_over { open_from 0
        (Begins arm_of_two Taken ∷ Begins erratum_block Taken ∷ Continues Done ∷ [])
        ≡ open_at 0 arm_of_two ∷ [] }
{}

/// A download that is not done counts no more where a later event begins one of its kind that is
/// done. One that is done makes good none that is begun later, and none of another kind; and one
/// that begins with the lone block makes good none.
pub fn downloads_that_begin_anew()
    ensures anew { open_from 0
        (Drops ∷ Begins arm_of_two Lost ∷ Drops ∷ Begins arm_of_two Taken ∷ Continues Done ∷ [])
        ≡ [] }
    ensures done_before { open_from 0 (Begins arm_of_two Done ∷ Begins arm_of_two Taken ∷ [])
        ≡ open_at 1 arm_of_two ∷ [] }
    ensures another_count { open_from 0
        (Begins arm_of_two Taken ∷ Begins (begun_with 0xe48bff59 3 0) Done ∷ [])
        ≡ open_at 0 arm_of_two ∷ [] }
    ensures another_family { open_from 0
        (Begins arm_of_two Taken ∷ Begins (begun_with 0xe48bff5a 2 0) Done ∷ [])
        ≡ open_at 0 arm_of_two ∷ [] }
    ensures lone { open_from 0
        (Begins (begun_with 0xe48bff57 2 1) Lost ∷ Begins erratum_block Taken ∷ Continues Done ∷ [])
        ≡ open_at 0 (begun_with 0xe48bff57 2 1) ∷ [] }
{}

/// The first event whose download stays open is told.
pub fn the_first_that_stays_open()
    ensures none { first_number (open_from 0 (Drops ∷ [])) ≡ None }
    ensures second { first_number (open_from 0
        (Begins arm_of_two Done ∷ Begins arm_of_two Lost ∷ Begins (begun_with 0xe48bff58 2 0) Lost
        ∷ [])) ≡ Some 1 }
{}
