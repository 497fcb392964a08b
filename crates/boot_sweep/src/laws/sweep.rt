//! Laws on what a sweep says, each the contract of a function that does nothing.

ghost use Rattle.std.specs.Prelude.{◌≡◌, ◌↔◌, ℕ, ◌<◌, ◌≤◌, ◌*◌, max, All, Contains, List, None, Some, length, slice_get, true, count_by};
ghost use Rattle.pico_board.specs.Content.{Content, IsContent};
ghost use Rattle.pico_board.specs.Cuts.{IsPattern};
ghost use Rattle.pico_board.specs.Sessions.{IsGated, Unfinished};
ghost use Rattle.pico_board.specs.Steps.{after_all};
ghost use Rattle.pico_board.specs.declared.Step.{Step};
ghost use Rattle.pico_board.specs.declared.boot.Cpu.{Cpu};
ghost use Rattle.pico_board.specs.declared.window.Window.{Window};
ghost use Rattle.boot_rules.specs.AccidentalImages.{HasNoAccidentalImage};
ghost use Rattle.boot_sweep.specs.declared.error.SweepError.{SweepError};
ghost use Rattle.boot_sweep.specs.declared.results.CutResult.{CutResult};
ghost use Rattle.boot_sweep.specs.declared.results.StepResults.{StepResults};
ghost use Rattle.boot_sweep.specs.declared.results.CutResult.TheVariants.{Chance};
ghost use Rattle.boot_sweep.specs.Comparing.{result_of};
ghost use Rattle.boot_sweep.specs.Refusals.{IsRefusedSession, sweep_refusal};
ghost use Rattle.boot_sweep.specs.Results.{IsCutResult};
ghost use Rattle.boot_session.specs.Slots.{IsSlot};
ghost use Rattle.boot_sweep.specs.StepResults.{HasCutResults, sweep_results, told_lines};
ghost use Rattle.boot_sweep.specs.Swept.{IsSweep};
ghost use Rattle.boot_sweep.specs.Sweeps.{Line, content_at_line, is_chance, sweep_lines, sweep_text};

/// A session is refused exactly for the reason that holds of it, and for one at most.
pub fn refusals_are_judged()
    ensures { (c : Content) (cpu : Cpu) (steps : List Step) (e : SweepError) → IsContent c
        → (sweep_refusal c cpu steps ≡ Some e) ↔ IsRefusedSession c cpu steps e }
{}

/// The result of a cut is exactly one: that of the function that compares.
pub fn results_are_judged()
    ensures { (c z d : Content) (cpu : Cpu) (r : CutResult)
        → IsCutResult c z d cpu r ↔ (r ≡ result_of c z d cpu) }
{}

/// Each line of a sweep has the result of its cut, and there are two for each step.
pub fn lines_have_their_results()
    ensures result { (c : Content) (cpu : Cpu) (pattern : List ℕ) (steps : List Step) (line : Line)
        → Contains (sweep_lines c cpu pattern steps) line
        → (slice_get steps line.number ≡ Some line.step)
        × IsCutResult c (after_all c steps) (content_at_line c pattern steps line) cpu line.result }
    ensures count { (c : Content) (cpu : Cpu) (pattern : List ℕ) (steps : List Step)
        → length (sweep_lines c cpu pattern steps) ≡ 2 * length steps }
{}

/// What a sweep finds is what its lines say. For each step, in their order, it has the results of
/// the loss of power before it and within it.
pub fn results_are_those_of_the_cuts()
    ensures told { (c : Content) (cpu : Cpu) (pattern : List ℕ) (steps : List Step)
        → told_lines 0 steps (sweep_results c cpu pattern steps)
        ≡ sweep_lines c cpu pattern steps }
    ensures count { (c : Content) (cpu : Cpu) (pattern : List ℕ) (steps : List Step)
        → length (sweep_results c cpu pattern steps) ≡ length steps }
    ensures each { (c : Content) (cpu : Cpu) (pattern : List ℕ) (steps : List Step) (j : ℕ)
        (step : Step)
        → slice_get steps j ≡ Some step → (found : StepResults)
        × (slice_get (sweep_results c cpu pattern steps) j ≡ Some found)
        × HasCutResults c cpu pattern steps j step found }
{}

/// Let a session not be refused. A line says `chance` only where its cut leaves an unfinished
/// content with another table or with an accidental image in the slot. At most 32 lines say it.
/// With j programs of the slot's first sector at the session's end they are at most 2j, or one
/// where there are none.
pub fn chance_is_an_accidental_image()
    ensures no_accident { (c : Content) (cpu : Cpu) (pattern : List ℕ) (steps : List Step)
        (line : Line)
        (w : Window)
        → IsContent c → IsPattern true pattern → All (λ b. b < 256) pattern
        → sweep_refusal c cpu steps ≡ None → IsSlot c cpu steps w
        → Contains (sweep_lines c cpu pattern steps) line → line.result ≡ Chance
        → Unfinished c steps w (content_at_line c pattern steps line)
        × (HasNoAccidentalImage c (after_all c steps) (content_at_line c pattern steps line) w cpu
        → ⊥) }
    ensures few { (c : Content) (cpu : Cpu) (pattern : List ℕ) (steps : List Step)
        → IsContent c → IsPattern true pattern → All (λ b. b < 256) pattern
        → sweep_refusal c cpu steps ≡ None
        → count_by is_chance (sweep_lines c cpu pattern steps) ≤ 32 }
    ensures programs { (c : Content) (cpu : Cpu) (pattern : List ℕ) (steps : List Step)
        (w : Window) (s : ℕ) (elsewhere last : List Step)
        → IsContent c → IsPattern true pattern → All (λ b. b < 256) pattern
        → sweep_refusal c cpu steps ≡ None → IsSlot c cpu steps w → IsGated steps w s elsewhere last
        → count_by is_chance (sweep_lines c cpu pattern steps) ≤ max 1 (2 * length last) }
{}

/// The lines that are counted are those whose result is `chance`, and no others.
pub fn counted_lines_are_those_of_chance()
    ensures { (line : Line) → (is_chance line ≡ true) ↔ (line.result ≡ Chance) }
{}

/// The text of a sweep says, in the rules' words, what a normal boot makes of each cut.
pub fn sweeps_are_told()
    ensures { (c : Content) (cpu : Cpu) (pattern : List ℕ) (steps : List Step) → IsContent c
        → All (λ b. b < 256) pattern → sweep_refusal c cpu steps ≡ None
        → IsSweep c cpu pattern steps (sweep_text c cpu pattern steps) }
{}
