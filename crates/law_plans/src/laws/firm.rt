//! Laws of sealed images that are firm, each the contract of a function that does nothing but cite
//! others.

ghost use Rattle.std.specs.Prelude.{◌≡◌, ◌≢◌, ℕ, ◌<◌, ◌≤◌, ◌%◌, ◌++◌, All, Contains, List, None, Ok, Some, false, length};
ghost use Rattle.pico_board.specs.Content.{Content, IsContent, window_bytes};
ghost use Rattle.pico_board.specs.Steps.{after_all};
ghost use Rattle.pico_board.specs.declared.window.TheConstants.{MOST_FLASH_BYTES};
ghost use Rattle.pico_board.specs.declared.window.Window.{Window};
ghost use Rattle.block_codec.specs.Erased.{AreErased};
ghost use Rattle.load_map.specs.Stored.{AreStoredIn};
ghost use Rattle.image_check.specs.Changes.{moved_to};
ghost use Rattle.image_pack.specs.declared.spec.SealSpec.{SealSpec};
ghost use Rattle.image_pack.specs.Faults.{IsSealed, block_offset};
ghost use Rattle.image_pack.specs.Filling.{whole_sectors};
ghost use Rattle.image_pack.specs.ReadBack.{IsHalves, MeetsRollback};
ghost use Rattle.image_pack.specs.Sealing.{sealed_text};
ghost use Rattle.image_pack.specs.Unsealable.{KeepsRules};
ghost use Rattle.script_plan.specs.Plans.{plan_text};
ghost use Rattle.boot_script.specs.Events.{EventView};
ghost use Rattle.boot_script.specs.Scripts.{events};
ghost use Rattle.boot_rules.specs.Tables.{table_in};
ghost use Rattle.boot_rules.specs.declared.tables.Found.{Found};
ghost use Rattle.boot_sweep.specs.declared.results.CutResult.TheVariants.{Chance};
ghost use Rattle.boot_sweep.specs.Firms.{Firm, HasOwnDigests};
ghost use Rattle.boot_sweep.specs.Refusals.{sweep_refusal};
ghost use Rattle.boot_session.specs.Sessions.{session};
ghost use Rattle.boot_session.specs.Slots.{IsSlot};
ghost use Rattle.boot_sweep.specs.Sweeps.{Line, content_at_line, sweep_lines};
ghost use Rattle.law_plans.specs.Written.{planned};
ghost use Rattle.law_plans.specs.Lone.{HasLoneLoop};

use crate::laws::plans::the_session_of_a_plan;
use boot_sweep::laws::firm::no_cut_before_a_step_is_chance;

/// Suppose that a sealed image is of a binary of at least 4096 bytes, that each block in its first
/// sector is one of its loop, and that major and minor of its version are half words. Then it is
/// firm at the start of each window that has 0xff after it, on every OTP that meets the spec's
/// rollback rule. Where its binary's own loads are stored in the binary, it is firm too in the
/// bytes that a plan leaves of it.
pub fn a_sealed_image_is_firm()
    ensures filled { (binary : List ℕ) (spec : SealSpec) (sealed : IsSealed binary spec)
        (c : Content) (w : Window) (f : List ℕ)
        → IsHalves spec.version → 4096 ≤ length binary → HasLoneLoop (sealed_text binary spec)
        → IsContent c → AreErased f
        → window_bytes c w ≡ whole_sectors (sealed_text binary spec) ++ f
        → MeetsRollback c.otp spec → Firm c w spec.cpu (moved_to w sealed.started) }
    ensures planned { (binary : List ℕ) (spec : SealSpec) (sealed : IsSealed binary spec)
        (own : KeepsRules spec.cpu (whole_sectors binary)) (c : Content) (w : Window)
        (old : List ℕ)
        → IsHalves spec.version → 4096 ≤ length binary → HasLoneLoop (sealed_text binary spec)
        → AreStoredIn (block_offset binary) own.loads
        → w.len % 4096 ≡ 0 → w.len ≤ MOST_FLASH_BYTES → length (sealed_text binary spec) ≤ w.len
        → length old ≡ w.len → window_bytes c w ≡ planned (sealed_text binary spec) old
        → MeetsRollback c.otp spec → Firm c w spec.cpu (moved_to w sealed.started) }
{}

/// Let a plan write such a sealed image, on a flash with a table. In a sweep of the plan no line
/// of a cut before a step says `chance`, where covered texts that differ have digests that differ.
pub fn no_cut_of_a_sealed_plan_before_a_step_is_chance()
    ensures { (binary : List ℕ) (spec : SealSpec) (sealed : IsSealed binary spec)
        (own : KeepsRules spec.cpu (whole_sectors binary)) (c : Content) (pattern : List ℕ)
        (w : Window) (es : List EventView) (line : Line) (found : Found)
        → IsHalves spec.version → All (λ b. b < 256) binary → 4096 ≤ length binary
        → HasLoneLoop (sealed_text binary spec) → AreStoredIn (block_offset binary) own.loads
        → IsContent c → All (λ b. b < 256) pattern → table_in c ≡ Some found
        → MeetsRollback c.otp spec → length (sealed_text binary spec) ≤ w.len
        → events (plan_text w.start (sealed_text binary spec)) ≡ Ok es
        → sweep_refusal c spec.cpu (session c spec.cpu es) ≡ None
        → IsSlot c spec.cpu (session c spec.cpu es) w
        → HasOwnDigests (after_all c (session c spec.cpu es))
        (content_at_line c pattern (session c spec.cpu es) line) w spec.cpu
        (moved_to w sealed.started)
        → Contains (sweep_lines c spec.cpu pattern (session c spec.cpu es)) line
        → line.within ≡ false → line.result ≢ Chance }
{
    the_session_of_a_plan();
    no_cut_before_a_step_is_chance();
}
