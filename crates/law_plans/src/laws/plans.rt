//! Laws of plans, each the contract of a function that does nothing but cite others.

ghost use Rattle.std.specs.Prelude.{◌≡◌, ◌<◌, ◌≤◌, ◌/◌, ℕ, Bool, false, List, [], All, length, Ok, Some, None};
ghost use Rattle.pico_board.specs.Content.{Content, IsContent, window_bytes};
ghost use Rattle.pico_board.specs.Steps.{after_all};
ghost use Rattle.pico_board.specs.declared.boot.Cpu.{Cpu};
ghost use Rattle.pico_board.specs.declared.window.Window.{Window};
ghost use Rattle.part_table.specs.declared.table.Right.TheVariants.{BootWrite};
ghost use Rattle.part_table.specs.Rights.{allowed_by};
ghost use Rattle.picoboot_cmd.specs.WellFormed.{MayWrite};
ghost use Rattle.boot_script.specs.Events.{EventView};
ghost use Rattle.boot_script.specs.Scripts.{events};
ghost use Rattle.script_plan.specs.Plans.{plan_text};
ghost use Rattle.image_def.specs.declared.started.Started.{Started};
ghost use Rattle.load_map.specs.Stored.{AreStoredIn};
ghost use Rattle.image_check.specs.Addressing.{in_flash};
ghost use Rattle.image_check.specs.Valid.{IsValidImage, Valid};
ghost use Rattle.image_pack.specs.Filling.{padded, round_up};
ghost use Rattle.boot_rules.specs.Tables.{table_in};
ghost use Rattle.boot_rules.specs.declared.tables.Found.{Found};
ghost use Rattle.boot_machine.specs.Serving.{table_of_found};
ghost use Rattle.boot_session.specs.Sessions.{IsSlotOf, session};
ghost use Rattle.law_plans.specs.Written.{HasNoLowBlockPast, plan_steps, planned};

use picoboot_cmd::laws::{
    a_permitted_erase_is_done, a_permitted_write_is_done, a_range_is_allowed_byte_by_byte,
    a_reboot_asks_for_its_boot, a_refused_command_does_nothing, the_checks_of_each_command,
};
use script_plan::laws::{the_commands_of_a_plan, the_events_of_a_plan};

/// The session of a plan for a slot. It has the plan's steps where each byte of the slot may be
/// written, as where there is no table. It has no steps where the first byte may not be written.
/// The steps leave the image, 0 to the end of its last page, 0xff to the end of its last sector,
/// and then what was there. They write no row.
pub fn the_session_of_a_plan()
    ensures steps { (c : Content) (cpu : Cpu) (w : Window) (image : List ℕ) (es : List EventView)
        → IsContent c → IsSlotOf c cpu w → 0 < length image → length image ≤ w.len
        → events (plan_text w.start image) ≡ Ok es
        → MayWrite (table_of_found (table_in c)) w.start w.len
        → session c cpu es ≡ plan_steps (w.start / 4096) image }
    ensures barred { (c : Content) (cpu : Cpu) (w : Window) (image : List ℕ) (es : List EventView)
        → IsContent c → IsSlotOf c cpu w → 0 < length image → length image ≤ w.len
        → events (plan_text w.start image) ≡ Ok es
        → allowed_by (table_of_found (table_in c)) (w.start / 4096) BootWrite ≡ false
        → session c cpu es ≡ [] }
    ensures no_table { (c : Content) (at n : ℕ) → table_in c ≡ None
        → MayWrite (table_of_found (table_in c)) at n }
    ensures bytes { (c : Content) (cpu : Cpu) (w : Window) (image : List ℕ) (es : List EventView)
        → IsContent c → IsSlotOf c cpu w → 0 < length image → length image ≤ w.len
        → All (λ b. b < 256) image → events (plan_text w.start image) ≡ Ok es
        → MayWrite (table_of_found (table_in c)) w.start w.len
        → window_bytes (after_all c (session c cpu es)) w ≡ planned image (window_bytes c w) }
    ensures rows { (c : Content) (cpu : Cpu) (w : Window) (image : List ℕ) (es : List EventView)
        → IsContent c → IsSlotOf c cpu w → 0 < length image → length image ≤ w.len
        → events (plan_text w.start image) ≡ Ok es → (after_all c (session c cpu es)).otp ≡ c.otp }
{
    the_events_of_a_plan();
    the_commands_of_a_plan();
    a_permitted_erase_is_done();
    a_permitted_write_is_done();
    a_reboot_asks_for_its_boot();
    a_refused_command_does_nothing();
    the_checks_of_each_command();
    a_range_is_allowed_byte_by_byte();
}

/// Suppose that an image is valid in a slot filled with 0xff after its end, and that its load map
/// stores nothing at or past its end. Suppose also that after its plan no block stands there that
/// begins in the first sector and ends past the image's last sector. Then the image is valid there
/// after its plan too. An image of more than a sector leaves no such block.
pub fn a_planned_image_is_valid()
    ensures valid { (c : Content) (cpu by : Cpu) (w : Window) (image : List ℕ)
        (es : List EventView) (trial : Bool) (s : Started)
        (v : IsValidImage in_flash w cpu trial c.otp (padded w.len image) s)
        → IsContent c → IsSlotOf c by w → 0 < length image → length image ≤ w.len
        → All (λ b. b < 256) image → events (plan_text w.start image) ≡ Ok es
        → MayWrite (table_of_found (table_in c)) w.start w.len
        → AreStoredIn (length image) v.sound.loads
        → HasNoLowBlockPast (round_up 4096 (length image))
        (window_bytes (after_all c (session c by es)) w)
        → Valid (after_all c (session c by es)) w cpu trial s }
    ensures low { (c : Content) (by : Cpu) (w : Window) (image : List ℕ) (es : List EventView)
        → IsContent c → IsSlotOf c by w → 4096 < length image → length image ≤ w.len
        → All (λ b. b < 256) image → events (plan_text w.start image) ≡ Ok es
        → MayWrite (table_of_found (table_in c)) w.start w.len
        → HasNoLowBlockPast (round_up 4096 (length image))
        (window_bytes (after_all c (session c by es)) w) }
{
    the_session_of_a_plan();
}
