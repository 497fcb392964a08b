//! Laws on what a session on one slot of a pair leaves, each the contract of a function that does
//! nothing.

ghost use Rattle.std.specs.Prelude.{◌≡◌, ◌≢◌, ◌⊎◌, ◌↔◌, ◌++◌, ◌∷◌, [], ℕ, ◌+◌, ◌-◌, ◌^◌, ◌<◌, ◌≤◌, List, Ok, Some, false, length, slice_index, true};
ghost use Rattle.boot_script.specs.Events.{EventView};
ghost use Rattle.boot_script.specs.Scripts.{events};
ghost use Rattle.script_plan.specs.Plans.{plan_text};
ghost use Rattle.boot_session.specs.Sessions.{IsCutBoot, IsSlotOf, StaysIn, entered_host, session};
ghost use Rattle.boot_machine.specs.Boots.{entered};
ghost use Rattle.text_lines.specs.declared.outcome.EventOutcome.{EventOutcome};
ghost use Rattle.boot_machine.specs.Machines.{MachineView, Off};
ghost use Rattle.boot_machine.specs.Moves.{Plays};
ghost use Rattle.boot_machine.specs.Serving.{is_hosted};
ghost use Rattle.pico_board.specs.Content.{Content, IsContent};
ghost use Rattle.pico_board.specs.Sessions.{Confined, Gated, Unfinished};
ghost use Rattle.pico_board.specs.Steps.{CutOf, MayLeave, after_all};
ghost use Rattle.pico_board.specs.declared.Step.{Step};
ghost use Rattle.pico_board.specs.declared.mem_board.MemBoard.{MemBoard};
ghost use Rattle.pico_board.specs.declared.boot.BootKind.TheVariants.{Normal};
ghost use Rattle.pico_board.specs.declared.boot.Cpu.{Cpu};
ghost use Rattle.pico_board.specs.declared.window.Window.{Window};
ghost use Rattle.image_check.specs.Valid.{Valid};
ghost use Rattle.slot_choice.specs.declared.choice.Choice.{Choice};
ghost use Rattle.boot_rules.specs.Chosen.{Chosen, IsBootMember};
ghost use Rattle.boot_rules.specs.Starts.{table_of_content};
ghost use Rattle.boot_rules.specs.Tables.{table_in};
ghost use Rattle.boot_rules.specs.Targets.{target_of};
ghost use Rattle.part_table.specs.declared.Target.{Target};
ghost use Rattle.part_table.specs.Windows.{partition_window};
ghost use Rattle.boot_rules.specs.declared.decision.Decision.{Decision};
ghost use Rattle.boot_rules.specs.declared.decision.Decision.TheVariants.{Start};
ghost use Rattle.boot_rules.specs.declared.tables.Found.{Found};
ghost use Rattle.boot_session.specs.Recordings.{IsRecorderOf};
ghost use Rattle.boot_session.specs.declared.recorder.Recorder.{Recorder};
ghost use Rattle.boot_session.specs.Slots.{IsSlot, session_slot};
ghost use Rattle.boot_session.specs.CutSessions.{ConfinedSession, CutSession, IsInNoUnit, StartsOutside, StartsFinished, StartsThere};

use picoboot_cmd::laws::{
    a_permitted_erase_is_done, a_permitted_write_is_done, a_range_is_allowed_byte_by_byte,
    a_reboot_asks_for_its_boot, a_refused_command_does_nothing, the_checks_of_each_command,
};
use script_plan::laws::{the_commands_of_a_plan, the_events_of_a_plan};

/// Let a session keep to one member of a pair, and a normal boot before it start no image there.
/// After it, or after power was lost in it, the next normal boot decides as before, or starts a
/// valid image of that member. Where it was a start, it is one. Where the flash has a table, the
/// session leaves it; without one, that it leaves none is a premise.
pub fn confined_session()
    ensures decision { (c : Content) (w : Window) (cpu : Cpu) (steps : List Step) (d : Content)
        (e : Decision)
        → IsContent c → IsBootMember c w cpu → Confined steps w → MayLeave c steps d
        → table_in d ≡ table_in c → Chosen c cpu Normal e → StartsOutside w e
        → Chosen d cpu Normal e ⊎ StartsThere d w cpu }
    ensures start { (c : Content) (w : Window) (cpu : Cpu) (steps : List Step) (d : Content)
        (choice : Choice)
        → IsContent c → IsBootMember c w cpu → Confined steps w → MayLeave c steps d
        → table_in d ≡ table_in c → Chosen c cpu Normal (Start choice)
        → StartsOutside w (Start choice)
        → (next : Choice) × Chosen d cpu Normal (Start next) }
    ensures table { (c : Content) (w : Window) (cpu : Cpu) (steps : List Step) (d : Content)
        (found : Found)
        → IsContent c → IsBootMember c w cpu → Confined steps w → MayLeave c steps d
        → table_in c ≡ Some found → table_in d ≡ Some found }
    ensures session { (c : Content) (w : Window) (cpu : Cpu) (steps : List Step) (d : Content)
        (e : Decision)
        → ConfinedSession c w cpu steps d e → Chosen d cpu Normal e ⊎ StartsThere d w cpu }
{}

/// Let a session keep to a partition that is in no boot unit, as a partition of data. After it, or
/// after power was lost in it, the next normal boot decides as before.
pub fn partitions_in_no_unit_decide_nothing()
    ensures { (c : Content) (w : Window) (cpu : Cpu) (steps : List Step) (d : Content)
        (e : Decision) (found : Found) (i : ℕ)
        → IsContent c → table_in c ≡ Some found → i < length found.table.parts.items
        → w ≡ partition_window found.table i → IsInNoUnit c cpu w
        → Confined steps w → MayLeave c steps d → Chosen c cpu Normal e → Chosen d cpu Normal e }
{}

/// Let power be lost in a gated session on one slot of a pair, of which a normal boot before it
/// starts no image. Then the next normal boot decides as before. Or it makes the start that it
/// makes after the whole session, of an image with the same bytes. Where the flash has a table,
/// that the whole session leaves it is no premise. The premise on accidental images is one on
/// unfinished contents. It says nothing of the content before or after the session, or of one
/// whose first sector of the slot is erased.
pub fn gated_cut()
    ensures decision { (c : Content) (w : Window) (cpu : Cpu) (steps : List Step) (d : Content)
        (e : Decision)
        → CutSession c w cpu steps d e
        → Chosen d cpu Normal e ⊎ StartsFinished (after_all c steps) d cpu }
    ensures table { (c : Content) (w : Window) (cpu : Cpu) (steps : List Step) (found : Found)
        → IsContent c → IsBootMember c w cpu → Gated steps w → table_in c ≡ Some found
        → table_in (after_all c steps) ≡ table_in c }
    ensures unfinished { (c : Content) (w : Window) (steps : List Step) (d : Content)
        → ((d ≡ c) ⊎ (d ≡ after_all c steps))
        ⊎ ((i : ℕ) → i < 4096 → slice_index d.flash (w.start + i) ≡ 255)
        → Unfinished c steps w d → ⊥ }
{}

/// Let a plan be for a partition of the flash's table, or, where there is none, for a member of
/// its pair. Then its session is gated on its window.
pub fn gated_plan()
    ensures gated { (c : Content) (cpu : Cpu) (w : Window) (image : List ℕ) (es : List EventView)
        → IsContent c → IsSlotOf c cpu w → 0 < length image → length image ≤ w.len
        → events (plan_text w.start image) ≡ Ok es → Gated (session c cpu es) w }
{
    the_events_of_a_plan();
    the_commands_of_a_plan();
    a_permitted_erase_is_done();
    a_permitted_write_is_done();
    a_reboot_asks_for_its_boot();
    a_refused_command_does_nothing();
    the_checks_of_each_command();
    a_range_is_allowed_byte_by_byte();
}

/// Where a download goes is a slot of the content, or the whole flash; a gated target is a slot. So
/// the session of a plan for a gated target, or for a partition, is gated on its window.
pub fn targets_are_slots()
    ensures stands { (c : Content) (cpu : Cpu) (family : ℕ) (target : Target)
        → target_of c (table_of_content c) cpu family ≡ Some target
        → IsSlotOf c cpu target.window
        ⊎ (target.window ≡ record { start = 0; len = length c.flash }) }
    ensures gated { (c : Content) (cpu : Cpu) (family : ℕ) (target : Target)
        → target_of c (table_of_content c) cpu family ≡ Some target → target.gated ≡ true
        → IsSlotOf c cpu target.window }
{}

/// What a machine that has entered BOOTSEL does of a script is its session. Let no event make a
/// boot, ask for one, or start an image in RAM. Then the machine is behind all steps of the
/// session, or it is without power, which was lost in them. Let the last event be one that may ask
/// for a boot. Then power that is lost was lost in the session, or in what that boot writes behind
/// it.
pub fn plays_do_sessions()
    ensures whole { (m n : MachineView) (es : List EventView) (outcomes : List EventOutcome)
        → m.place ≡ entered m.content → StaysIn m.content m.cpu (entered_host m.content) es
        → Plays m es n outcomes → n.place ≢ Off
        → n.content ≡ after_all m.content (session m.content m.cpu es) }
    ensures lost { (m n : MachineView) (es : List EventView) (outcomes : List EventOutcome)
        → m.place ≡ entered m.content → StaysIn m.content m.cpu (entered_host m.content) es
        → Plays m es n outcomes → n.place ≡ Off
        → CutOf m.content (session m.content m.cpu es) n.content }
    ensures last { (m n : MachineView) (es : List EventView) (last : EventView)
        (outcomes : List EventOutcome)
        → m.place ≡ entered m.content → StaysIn m.content m.cpu (entered_host m.content) es
        → is_hosted last ≡ true → Plays m (es ++ last ∷ []) n outcomes → n.place ≡ Off
        → CutOf m.content (session m.content m.cpu (es ++ last ∷ [])) n.content
        ⊎ IsCutBoot (after_all m.content (session m.content m.cpu (es ++ last ∷ []))) m.cpu
        n.content }
{}

/// The slot of a session is the member of a pair in which its first step lies, and there is one
/// such member at most.
pub fn slots_are_found()
    ensures { (c : Content) (cpu : Cpu) (steps : List Step) (w : Window) → IsContent c
        → (session_slot c cpu steps ≡ Some w) ↔ IsSlot c cpu steps w }
{}

/// A recorder counts all steps of a session, those too that it does not keep. Its count has not
/// come to its type's end.
pub fn steps_are_counted()
    ensures all { (r : Recorder MemBoard) (c : Content) (cpu : Cpu) (steps : List Step)
        → IsRecorderOf r c cpu steps → r.count ≡ length steps }
    ensures few { (r : Recorder MemBoard) (c : Content) (cpu : Cpu) (steps : List Step)
        → IsRecorderOf r c cpu steps → r.count < 2 ^ 32 - 1 }
{}

/// What a session on one slot makes start there is valid where no trial image is allowed.
pub fn no_trial_image_starts_there()
    ensures { (d : Content) (w : Window) (cpu : Cpu) (there : StartsThere d w cpu)
        → Valid d w cpu false there.choice.image }
{}
