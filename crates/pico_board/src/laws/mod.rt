//! Laws on what steps leave, done or torn. Each is a function that does nothing, whose contract is
//! the law.

ghost use Rattle.std.specs.Prelude.{◌≡◌, ◌⊎◌, ◌↔◌, ℕ, ◌+◌, ◌-◌, ◌*◌, ◌<◌, ◌≤◌, All, Bool, List, None, Some, [], ◌∷◌, ◌++◌, length, slice_get, slice_index, take, true, false};
ghost use Rattle.std.specs.List.{AllByRecursion};
ghost use Rattle.pico_board.specs.declared.window.Window.{Window};
ghost use Rattle.pico_board.specs.Content.{AreApart, Content, IsContent, window_bytes};
ghost use Rattle.pico_board.specs.Steps.{Step, Raise, CutOf, IsCutAt, IsRaise, IsBetween, IsRaisedIn, IsStepIn, MayLeave, Torn, TornErase, after, after_all};
ghost use Rattle.pico_board.specs.Cuts.{cut_by, cut_with, cut_steps};
ghost use Rattle.pico_board.specs.Sessions.{Confined, Gated, IsBlank, IsBlankPage, IsClosing, IsGated, IsPageOf, IsPartial, IsSamePage, SameButSector, SameButWindow, Unfinished};

/// A cut of a list falls in one of its steps, after the steps before it.
pub fn cut_falls_in_a_step()
    ensures { (c : Content) (steps : List Step) (d : Content)
        → CutOf c steps d ↔ ((k : ℕ) × (step : Step) × IsCutAt c steps k step d) }
{}

/// A cut of two lists falls in the first one, or in the second one after the first.
pub fn cut_of_two_lists()
    ensures { (c : Content) (xs ys : List Step) (d : Content)
        → CutOf c (xs ++ ys) d ↔ (CutOf c xs d ⊎ CutOf (after_all c xs) ys d) }
{}

/// Power may be lost before a step has changed anything, and after it has changed all of its
/// range.
pub fn torn_may_be_either_end()
    ensures before { (c : Content) (step : Step) → IsContent c → Torn c step c }
    ensures after { (c : Content) (step : Step) → IsContent c → IsStepIn (length c.flash) step
        → Torn c step (after c step) }
{}

/// What a proper prefix of a list leaves is a cut of the list.
pub fn prefix_is_a_cut()
    ensures { (c : Content) (xs : List Step) (step : Step) (ys : List Step) → IsContent c
        → All (IsStepIn (length c.flash)) xs
        → CutOf c (xs ++ step ∷ ys) (after_all c xs) }
{}

/// What is left after all of the steps, and what each loss of power in them leaves, is what they
/// may leave. Power may be lost after the last step has changed all of its range. Where there is
/// no step, no power is lost.
pub fn what_steps_may_leave()
    ensures whole { (c : Content) (steps : List Step) → MayLeave c steps (after_all c steps) }
    ensures cut { (c : Content) (steps : List Step) (d : Content) → CutOf c steps d
        → MayLeave c steps d }
    ensures at_the_end { (c : Content) (steps : List Step) (step : Step) → IsContent c
        → All (IsStepIn (length c.flash)) (steps ++ step ∷ [])
        → CutOf c (steps ++ step ∷ []) (after_all c (steps ++ step ∷ [])) }
    ensures no_step { (c d : Content) → CutOf c [] d → ⊥ }
{}

/// Whatever steps leave, done or torn, is a content.
pub fn steps_leave_a_content()
    ensures { (c : Content) (steps : List Step) (d : Content) → IsContent c
        → All (IsStepIn (length c.flash)) steps → MayLeave c steps d
        → IsContent d }
{}

/// Confined steps, done or torn, change nothing outside their window, and no row.
pub fn confined_steps_keep_the_rest()
    ensures rest { (c : Content) (w : Window) (steps : List Step) (d : Content)
        → Confined steps w → MayLeave c steps d → SameButWindow w c d }
    ensures windows { (c : Content) (w v : Window) (d : Content)
        → SameButWindow w c d → AreApart w v → window_bytes d v ≡ window_bytes c v }
{}

/// What a torn raise leaves lies bit by bit between before and after. So does what the loss of
/// power leaves of a list of raises.
pub fn raises_only_set_bits()
    ensures one { (c : Content) (row bits : ℕ) (d : Content)
        → Torn c (Raise row bits) d → IsRaisedIn c d (after c (Raise row bits)) }
    ensures list { (c : Content) (steps : List Step) (d : Content) → AllByRecursion IsRaise steps
        → CutOf c steps d
        → IsRaisedIn c d (after_all c steps) }
{}

/// A told cut falls in the step whose number is that of its steps left. Where there are fewer
/// steps, the cut comes nearer by their number.
pub fn told_cut_falls_at_its_step()
    ensures none { (steps : List Step) (c : Content)
        → cut_steps steps None c ≡ record
        { answer = true; content = after_all c steps; armed = None } }
    ensures cut { (steps : List Step) (left : ℕ) (within : Bool) (pattern : List ℕ) (c : Content)
        (step : Step)
        → slice_get steps left ≡ Some step
        → cut_steps steps (Some (cut_with left within pattern)) c ≡ record {
          answer = false;
          content = cut_by (cut_with left within pattern) (after_all c (take left steps)) step;
          armed = None;
        } }
    ensures whole { (steps : List Step) (left : ℕ) (within : Bool) (pattern : List ℕ) (c : Content)
        → length steps ≤ left
        → cut_steps steps (Some (cut_with left within pattern)) c ≡ record {
          answer = true;
          content = after_all c steps;
          armed = Some (cut_with (left - length steps) within pattern);
        } }
{}

/// Each prefix of a gated list is gated, and a gated list ends with at most sixteen programs.
pub fn prefix_of_gated_is_gated()
    ensures prefix { (xs ys : List Step) (w : Window) → Gated (xs ++ ys) w → Gated xs w }
    ensures sixteen { (steps : List Step) (w : Window) (s : ℕ) (elsewhere last : List Step)
        → IsGated steps w s elsewhere last → length last ≤ 16 }
{}

/// A sector is made of its pages. The sector is blank exactly where each of its pages is. Two
/// contents that differ in this sector alone are equal where its pages are the same in both. Where
/// power is lost while the last sector is written, each bit of that sector is set or is the
/// finished one.
pub fn pages_make_a_sector()
    ensures blank { (s : ℕ) (d : Content)
        → IsBlank s d ↔ ((q : ℕ) → IsPageOf s q → IsBlankPage q d) }
    ensures same { (s : ℕ) (c d : Content) → SameButSector s c d
        → ((q : ℕ) → IsPageOf s q → IsSamePage q c d) → d ≡ c }
    ensures closing { (z : Content) (s p : ℕ) (d : Content) → IsClosing z s p d
        → (i : ℕ) → i < 4096
        → IsBetween 255 (slice_index z.flash (4096 * s + i)) (slice_index d.flash (4096 * s + i)) }
{}

/// The phases of a gated list of a window inside the flash. The loss of power leaves one of three:
/// the window's first sector torn and all else as before; the first sector blank; or the finished
/// content but for some pages of the first sector. Only the first and the last of these can be
/// unfinished. A prefix that is done leaves one of three too: the content before; the first sector
/// blank; or the finished content but for blank pages of the first sector.
pub fn phases_of_a_gated_list()
    ensures cut { (c : Content) (steps : List Step) (w : Window) (s : ℕ)
        (elsewhere last : List Step) (d : Content)
        → IsGated steps w s elsewhere last → w.start + w.len ≤ length c.flash → CutOf c steps d
        → TornErase c s d ⊎ (IsBlank s d ⊎ ((p : ℕ) × IsClosing (after_all c steps) s p d)) }
    ensures unfinished { (c : Content) (steps : List Step) (w : Window) (s : ℕ)
        (elsewhere last : List Step) (d : Content)
        → IsGated steps w s elsewhere last → w.start + w.len ≤ length c.flash → CutOf c steps d
        → Unfinished c steps w d
        → TornErase c s d ⊎ ((p : ℕ) × IsClosing (after_all c steps) s p d) }
    ensures prefix { (c : Content) (steps : List Step) (w : Window) (s : ℕ)
        (elsewhere last xs ys : List Step)
        → IsGated steps w s elsewhere last → w.start + w.len ≤ length c.flash → steps ≡ xs ++ ys
        → (xs ≡ []) ⊎ (IsBlank s (after_all c xs)
        ⊎ IsPartial (after_all c steps) s (after_all c xs)) }
{}

/// Which cuts of a gated list of a window inside the flash leave no unfinished content: a cut in
/// any step but the first and the final programs; a cut before the first step; and a cut before
/// the first of the final programs.
pub fn cuts_that_leave_nothing_unfinished()
    ensures elsewhere { (c : Content) (steps : List Step) (w : Window) (s : ℕ)
        (elsewhere last : List Step)
        (k : ℕ) (step : Step) (d : Content)
        → IsGated steps w s elsewhere last → w.start + w.len ≤ length c.flash
        → 1 ≤ k → k ≤ length elsewhere → IsCutAt c steps k step d → ¬ (Unfinished c steps w d) }
    ensures before_all { (c : Content) (steps : List Step) (w : Window)
        → ¬ (Unfinished c steps w c) }
    ensures before_final { (c : Content) (steps : List Step) (w : Window) (s : ℕ)
        (elsewhere last : List Step)
        → IsGated steps w s elsewhere last → w.start + w.len ≤ length c.flash
        → ¬ (Unfinished c steps w (after_all c (take (1 + length elsewhere) steps))) }
{}
