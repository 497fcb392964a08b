//! Laws on the scripts of `stage`, each the contract of a function that does nothing but cite
//! others.

ghost use Rattle.std.specs.Prelude.{◌≡◌, ℕ, ◌*◌, ◌/◌, ◌<◌, ◌≤◌, Bool, true, All, List, length, Ok};
ghost use Rattle.pico_board.specs.declared.boot.Cpu.{Cpu};
ghost use Rattle.pico_board.specs.declared.window.Window.{Window};
ghost use Rattle.pico_board.specs.Content.{Content, IsContent, window_bytes};
ghost use Rattle.pico_board.specs.Steps.{after_all};
ghost use Rattle.picoboot_cmd.specs.WellFormed.{MayWrite};
ghost use Rattle.boot_script.specs.Events.{EventView};
ghost use Rattle.boot_script.specs.Scripts.{events};
ghost use Rattle.boot_rules.specs.Tables.{table_in};
ghost use Rattle.boot_machine.specs.Serving.{table_of_found};
ghost use Rattle.boot_session.specs.Sessions.{IsSlotOf, session};
ghost use Rattle.script_plan.specs.Plans.{plan_text};
ghost use Rattle.script_stage.specs.Stages.{stage_text};
ghost use Rattle.cli_course.specs.Outcomes.{AnswerView};
ghost use Rattle.cli_stage.specs.StageRules.{IsStageOf, written};
ghost use Rattle.check_laws.specs.Staged.{Staged};
ghost use Rattle.law_staged.specs.StagedPlans.{stage_steps};

use law_plans::laws::plans::the_session_of_a_plan;
use picoboot_cmd::laws::{
    a_permitted_erase_is_done, a_permitted_write_is_done, a_range_is_allowed_byte_by_byte,
    a_reboot_asks_for_its_boot, a_refused_command_does_nothing, the_checks_of_each_command,
};
use script_plan::laws::the_commands_of_a_plan;
use script_stage::laws::the_events_of_a_stage;

/// The session of a script of `stage` for a slot of which each byte may be written, as where there
/// is no table. It has the stage's steps. They leave what the session of a plan for the same slot
/// and image leaves: every byte and every row. So they leave the image there, 0 to the end of its
/// last page, 0xff to the end of its last sector, and behind it what was there.
pub fn the_session_of_a_stage()
    ensures steps { (c : Content) (cpu : Cpu) (w : Window) (image : List ℕ) (page : ℕ)
        (is_bought : Bool) (es : List EventView)
        → IsContent c → IsSlotOf c cpu w → length image ≤ w.len
        → page < 16 → 256 * page < length image
        → events (stage_text w.start page is_bought image) ≡ Ok es
        → MayWrite (table_of_found (table_in c)) w.start w.len
        → session c cpu es ≡ stage_steps (w.start / 4096) page image }
    ensures same { (c : Content) (cpu : Cpu) (w : Window) (image : List ℕ) (page : ℕ)
        (is_bought : Bool) (es plan : List EventView)
        → IsContent c → IsSlotOf c cpu w → length image ≤ w.len
        → page < 16 → 256 * page < length image → All (λ b. b < 256) image
        → events (stage_text w.start page is_bought image) ≡ Ok es
        → events (plan_text w.start image) ≡ Ok plan
        → MayWrite (table_of_found (table_in c)) w.start w.len
        → after_all c (session c cpu es) ≡ after_all c (session c cpu plan) }
    ensures bytes { (c : Content) (cpu : Cpu) (w : Window) (image : List ℕ) (page : ℕ)
        (is_bought : Bool) (es : List EventView)
        → IsContent c → IsSlotOf c cpu w → length image ≤ w.len
        → page < 16 → 256 * page < length image → All (λ b. b < 256) image
        → events (stage_text w.start page is_bought image) ≡ Ok es
        → MayWrite (table_of_found (table_in c)) w.start w.len
        → window_bytes (after_all c (session c cpu es)) w ≡ written c w image }
{
    the_events_of_a_stage();
    the_session_of_a_plan();
    the_commands_of_a_plan();
    a_permitted_erase_is_done();
    a_permitted_write_is_done();
    a_reboot_asks_for_its_boot();
    a_refused_command_does_nothing();
    the_checks_of_each_command();
    a_range_is_allowed_byte_by_byte();
}

/// The page that a script of `stage` writes last is one of the slot's first sector and has a byte
/// of the image, as the law above asks.
pub fn the_last_page_of_a_stage_is_the_images()
    ensures { (c : Content) (cpu : Cpu) (image out : List ℕ) (o : AnswerView)
        (is : IsStageOf c cpu image out o)
        → (is.first.at / 256 < 16) × (256 * (is.first.at / 256) < length image) }
{}

/// Where `stage` prints `order=staged` for a slot of which each byte may be written, the session of
/// its script is staged on that slot. So the laws on staged sessions hold of it, where the slot is
/// one of a pair, of which a normal boot starts no image.
pub fn a_stage_is_staged()
    ensures { (c : Content) (cpu : Cpu) (image out : List ℕ) (o : AnswerView)
        (is : IsStageOf c cpu image out o) (es : List EventView)
        → IsContent c → All (λ b. b < 256) image → IsSlotOf c cpu is.target.window
        → MayWrite (table_of_found (table_in c)) is.target.window.start is.target.window.len
        → events (stage_text is.target.window.start (is.first.at / 256) is.is_bought image)
        ≡ Ok es
        → is.is_staged ≡ true → Staged c (session c cpu es) is.target.window cpu }
{
    the_events_of_a_stage();
    the_commands_of_a_plan();
    a_permitted_erase_is_done();
    a_permitted_write_is_done();
    a_reboot_asks_for_its_boot();
    a_refused_command_does_nothing();
    the_checks_of_each_command();
    a_range_is_allowed_byte_by_byte();
}
