//! Laws on firm images, each the contract of a function that does nothing.

ghost use Rattle.std.specs.Prelude.{◌≡◌, ◌≢◌, ℕ, ◌+◌, ◌<◌, ◌≤◌, ◌++◌, ◌∷◌, All, Contains, List, None, Some, false, true, length};
ghost use Rattle.pico_board.specs.Content.{Content, IsContent, window_bytes};
ghost use Rattle.pico_board.specs.Sessions.{Gated, Unfinished};
ghost use Rattle.pico_board.specs.Steps.{IsCutAt, after_all};
ghost use Rattle.pico_board.specs.declared.Step.{Step};
ghost use Rattle.pico_board.specs.declared.boot.Cpu.{Cpu};
ghost use Rattle.pico_board.specs.declared.window.Window.{Window};
ghost use Rattle.image_def.specs.declared.started.Started.{Started};
ghost use Rattle.image_check.specs.Valid.{Valid};
ghost use Rattle.boot_rules.specs.Chosen.{IsBootMember};
ghost use Rattle.boot_rules.specs.Tables.{table_in};
ghost use Rattle.boot_rules.specs.declared.tables.Found.{Found};
ghost use Rattle.boot_rules.specs.AccidentalImages.{HasNoAccidentalImage};
ghost use Rattle.boot_sweep.specs.declared.results.CutResult.TheVariants.{Chance};
ghost use Rattle.boot_sweep.specs.Firms.{Firm, HasOwnDigests, IsFirm, Stray};
ghost use Rattle.boot_sweep.specs.Refusals.{sweep_refusal};
ghost use Rattle.boot_session.specs.Slots.{IsSlot};
ghost use Rattle.boot_sweep.specs.Sweeps.{Line, content_at_line, sweep_lines};

/// An image that is valid where a trial image is allowed, and that is firm by its bytes, is firm.
/// So a trial image may be firm.
pub fn trial_images_may_be_firm()
    ensures { (c : Content) (w : Window) (cpu : Cpu) (s : Started) → Valid c w cpu true s
        → IsFirm cpu (window_bytes c w) s → Firm c w cpu s }
{}

/// On a flash with a table, let a gated session write a firm image into a slot of a pair, and a
/// cut in a step other than the first one leave an unfinished content without a stray block. Then
/// it leaves no accidental image, where covered texts that differ have digests that differ.
pub fn a_firm_image_leaves_no_accidental_image()
    ensures { (c : Content) (w : Window) (cpu : Cpu) (steps : List Step) (s : Started) (k : ℕ)
        (step : Step) (d : Content) (found : Found)
        → IsContent c → table_in c ≡ Some found → IsBootMember c w cpu → Gated steps w
        → Firm (after_all c steps) w cpu s → IsCutAt c steps k step d → 1 ≤ k
        → (Stray (after_all c steps) d w → ⊥) → HasOwnDigests (after_all c steps) d w cpu s
        → Unfinished c steps w d → HasNoAccidentalImage c (after_all c steps) d w cpu }
{}

/// Where an unfinished content is left before a step of a gated session, it has no stray block.
pub fn no_block_is_stray_between_programs()
    ensures { (c : Content) (w : Window) (steps done others : List Step) (step : Step)
        → IsContent c → w.start + w.len ≤ length c.flash → Gated steps w
        → steps ≡ done ++ step ∷ others → Unfinished c steps w (after_all c done)
        → Stray (after_all c steps) (after_all c done) w → ⊥ }
{}

/// Let a session that is not refused write a firm image, on a flash with a table. Then no line of
/// a cut before a step says `chance`, where covered texts that differ have digests that differ.
pub fn no_cut_before_a_step_is_chance()
    ensures { (c : Content) (cpu : Cpu) (pattern : List ℕ) (steps : List Step) (line : Line)
        (w : Window) (s : Started) (found : Found)
        → IsContent c → All (λ b. b < 256) pattern → table_in c ≡ Some found
        → sweep_refusal c cpu steps ≡ None → IsSlot c cpu steps w → Firm (after_all c steps) w cpu s
        → HasOwnDigests (after_all c steps) (content_at_line c pattern steps line) w cpu s
        → Contains (sweep_lines c cpu pattern steps) line → line.within ≡ false
        → line.result ≢ Chance }
{}
