//! Laws of staged sessions, each the contract of a function that does nothing.

pub mod stages;

ghost use Rattle.std.specs.Prelude.{◌≡◌, List, ◌∷◌, ◌++◌};
ghost use Rattle.pico_board.specs.declared.boot.BootKind.TheVariants.{Normal};
ghost use Rattle.pico_board.specs.declared.Step.{Step};
ghost use Rattle.pico_board.specs.declared.boot.Cpu.{Cpu};
ghost use Rattle.pico_board.specs.declared.window.Window.{Window};
ghost use Rattle.pico_board.specs.Content.{Content, IsContent};
ghost use Rattle.pico_board.specs.Steps.{Torn, after_all};
ghost use Rattle.boot_rules.specs.declared.decision.Decision.{Decision};
ghost use Rattle.boot_rules.specs.Choosing.{decision_in};
ghost use Rattle.boot_script.specs.Events.{EventView};
ghost use Rattle.boot_sweep.specs.Firms.{Stray};
ghost use Rattle.check_laws.specs.declared.found.SessionFound.TheVariants.{Staged};
ghost use Rattle.check_laws.specs.Hosts.{first_content};
ghost use Rattle.check_laws.specs.SessionLaws.{IsSessionLaw, host_steps};
ghost use Rattle.law_staged.specs.Staged.{StagedSession, StartsAsBefore};

/// Let power be lost before a step of a staged session on one slot of a pair, of which a normal
/// boot before it starts no image. Then the flash has the table that it had, and the next normal
/// boot decides as before; an image that it starts has the same bytes. This asks for no luck: there
/// is no premise on accidental images, on digests or on tables.
pub fn nothing_is_half_written()
    ensures { (c : Content) (w : Window) (cpu : Cpu) (steps done others : List Step) (step : Step)
        (e : Decision)
        → StagedSession c w cpu steps e → steps ≡ done ++ step ∷ others
        → StartsAsBefore c (after_all c done) cpu e }
{}

/// Let power be lost in a step of such a session that is neither the first nor the last, and let it
/// leave no stray block in the slot: none in its first sector that the finished slot does not have.
/// Then the same three hold. So luck is asked of two steps alone, the erase of the first sector and
/// the program of the last page, and of the others only that no torn page makes up a block.
pub fn one_page_is_at_risk()
    ensures { (c : Content) (w : Window) (cpu : Cpu) (steps done others : List Step)
        (first step next : Step) (d : Content) (e : Decision)
        → StagedSession c w cpu steps e → steps ≡ (first ∷ done) ++ step ∷ next ∷ others
        → Torn (after_all c (first ∷ done)) step d → (Stray (after_all c steps) d w → ⊥)
        → StartsAsBefore c d cpu e }
{}

/// Let `law session=staged` be told of a script, and power be lost before a step of its host. Then
/// the flash has the table that it had before the host's steps, and the next normal boot decides as
/// before them; an image that it starts has the same bytes. There is no premise on accidents.
pub fn a_staged_law_leaves_nothing_half_written()
    ensures { (c : Content) (cpu : Cpu) (events : List EventView) (w : Window)
        (done others : List Step) (step : Step)
        → IsContent c → IsSessionLaw c cpu events (Staged w)
        → host_steps c cpu events ≡ done ++ step ∷ others
        → StartsAsBefore (first_content c cpu) (after_all (first_content c cpu) done) cpu
        (decision_in (first_content c cpu) cpu Normal) }
{}

/// Let `law session=staged` be told of a script, and power be lost in a step of its host that is
/// neither the first nor the last, which leaves no stray block in the window. Then the same three
/// hold.
pub fn a_staged_law_risks_one_page()
    ensures { (c : Content) (cpu : Cpu) (events : List EventView) (w : Window)
        (done others : List Step) (first step next : Step) (d : Content)
        → IsContent c → IsSessionLaw c cpu events (Staged w)
        → host_steps c cpu events ≡ (first ∷ done) ++ step ∷ next ∷ others
        → Torn (after_all (first_content c cpu) (first ∷ done)) step d
        → (Stray (after_all (first_content c cpu) (host_steps c cpu events)) d w → ⊥)
        → StartsAsBefore (first_content c cpu) d cpu
        (decision_in (first_content c cpu) cpu Normal) }
{}
