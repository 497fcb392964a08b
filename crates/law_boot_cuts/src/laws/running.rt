//! What the machine knows of an image that runs is enough for the laws on a boot's own writes. In
//! every run these laws hold of each buy.

ghost use Rattle.std.specs.Prelude.{◌≡◌, ◌≢◌, ◌⊎◌, ◌+◌, ℕ, List, Some, true};
ghost use Rattle.pico_board.specs.Content.{Content, IsContent, flash_base};
ghost use Rattle.pico_board.specs.Steps.{IsCutAt, after_all};
ghost use Rattle.pico_board.specs.declared.Step.{Step};
ghost use Rattle.pico_board.specs.declared.boot.BootKind.{BootKind};
ghost use Rattle.pico_board.specs.declared.boot.BootKind.TheVariants.{Normal, Update};
ghost use Rattle.pico_board.specs.declared.boot.Cpu.{Cpu};
ghost use Rattle.slot_choice.specs.declared.choice.Choice.{Choice};
ghost use Rattle.slot_choice.specs.declared.unit.SlotUnit.{SlotUnit};
ghost use Rattle.trial_buy.specs.Starting.{start_steps};
ghost use Rattle.boot_rules.specs.Chosen.{Chosen};
ghost use Rattle.boot_rules.specs.Picking.{pick};
ghost use Rattle.boot_rules.specs.Starts.{IsOfUnit};
ghost use Rattle.boot_rules.specs.Tables.{table_in};
ghost use Rattle.boot_rules.specs.declared.decision.Decision.{Decision};
ghost use Rattle.boot_rules.specs.declared.decision.Decision.TheVariants.{Start};
ghost use Rattle.boot_rules.specs.declared.tables.Found.{Found};
ghost use Rattle.boot_script.specs.Events.{EventView};
ghost use Rattle.boot_machine.specs.Boots.{decided_place};
ghost use Rattle.law_boot_cuts.specs.Crashes.{AreOwnSteps, LeavesNoAccidentalImage, KeepsOtherRows, PicksBought, StartsBought, settled_choice};
ghost use Rattle.boot_machine.specs.Machines.{FromFlash, MachineView, Off, Running};
ghost use Rattle.boot_machine.specs.Moves.{Moves};
ghost use Rattle.text_lines.specs.declared.outcome.EventOutcome.{EventOutcome};
ghost use Rattle.text_lines.specs.declared.outcome.EventOutcome.TheVariants.{PowerLost};
ghost use Rattle.law_boot_cuts.specs.Running.{LosesBuy, RunsTrial, StandsValid, buys};

use crate::laws::boots_own_writes;
use boot_machine::laws::run::{a_running_trial_is_chosen, only_lost_power_says_so};

/// A boot chooses an updated image exactly where it is valid in a member of a boot unit, with a
/// trial allowed, and flash boot is not off. The update boot of its window chooses it then. So the
/// laws on a boot's own writes ask for no more than that.
pub fn a_valid_updated_image_is_chosen()
    ensures valid { (c : Content) (cpu : Cpu) (choice : Choice) (u : SlotUnit) → IsContent c
        → StandsValid c cpu choice u
        → Chosen c cpu (Update (flash_base + choice.image.window.start)) (Start choice) }
    ensures chosen { (c : Content) (cpu : Cpu) (kind : BootKind) (choice : Choice) → IsContent c
        → Chosen c cpu kind (Start choice) → choice.updated ≡ true
        → (u : SlotUnit) × StandsValid c cpu choice u }
{}

/// Suppose that power is lost in the own writes of an updated image that is valid where it stands.
/// Suppose also that a cut erase or program leaves no accidental image
/// (`LeavesNoAccidentalImage`). Then the pick of its unit is the former one, or the image with a
/// clear trial bit. With a table so is the decision of a normal boot, where no raised row lies in
/// the triple of a row that another unit's image lists.
pub fn own_writes_of_a_valid_image()
    ensures pick { (c : Content) (cpu : Cpu) (choice : Choice) (u : SlotUnit)
        (steps : List Step) (k : ℕ) (step : Step) (d : Content)
        → IsContent c → StandsValid c cpu choice u
        → AreOwnSteps c cpu choice steps → IsCutAt c steps k step d
        → LeavesNoAccidentalImage c (after_all c steps) d cpu choice step
        → (pick d u cpu ≡ pick c u cpu) ⊎ PicksBought (after_all c steps) d u cpu choice }
    ensures decision { (c : Content) (cpu : Cpu) (choice : Choice) (u : SlotUnit)
        (steps : List Step) (k : ℕ) (step : Step) (d : Content) (e : Decision)
        → IsContent c → StandsValid c cpu choice u
        → AreOwnSteps c cpu choice steps → IsCutAt c steps k step d
        → LeavesNoAccidentalImage c (after_all c steps) d cpu choice step
        → table_in d ≡ table_in c → table_in (after_all c steps) ≡ table_in c
        → KeepsOtherRows c cpu u steps → Chosen c cpu Normal e
        → Chosen d cpu Normal e ⊎ StartsBought (after_all c steps) d cpu choice }
    ensures with_a_table { (c : Content) (cpu : Cpu) (choice : Choice) (u : SlotUnit)
        (found : Found) (steps : List Step) (k : ℕ) (step : Step) (d : Content) (e : Decision)
        → IsContent c → StandsValid c cpu choice u
        → table_in c ≡ Some found → AreOwnSteps c cpu choice steps → IsCutAt c steps k step d
        → LeavesNoAccidentalImage c (after_all c steps) d cpu choice step
        → KeepsOtherRows c cpu u steps
        → Chosen c cpu Normal e
        → Chosen d cpu Normal e ⊎ StartsBought (after_all c steps) d cpu choice }
{
    boots_own_writes();
}

/// Take any run that begins without power, or in BOOTSEL as it is entered. Suppose that a trial
/// image runs in it, and that power is lost in the image's buy. Then power is lost in a step of
/// the buy on the content as it is, and the image stands in a boot unit. Where the cut leaves no
/// accidental image (`LeavesNoAccidentalImage`), the pick of that unit is the former one or the
/// bought image. With a table, and where no raised row lies in the triple of a row that another
/// unit's image lists, power that comes back, and is not lost again at once, leads where the
/// former decision leads. Or it starts the bought image, as after a whole buy.
pub fn a_buy_that_loses_power()
    ensures steps { (m n o : MachineView) (choice : Choice) → RunsTrial m n choice
        → Moves n EventView.Buy o PowerLost
        → (u : SlotUnit) × IsOfUnit n.content n.cpu choice u
        × ((k : ℕ) × (step : Step) × IsCutAt n.content (buys n choice) k step o.content) }
    ensures pick { (m n o : MachineView) (choice : Choice) (u : SlotUnit) (step : Step)
        → LosesBuy m n o choice u step
        → (pick o.content u n.cpu ≡ pick n.content u n.cpu)
        ⊎ PicksBought (after_all n.content (buys n choice)) o.content u n.cpu choice }
    ensures next { (m n o p : MachineView) (choice : Choice) (u : SlotUnit) (step : Step)
        (found : Found) (e : Decision) (outcome : EventOutcome) → LosesBuy m n o choice u step
        → table_in n.content ≡ Some found → KeepsOtherRows n.content n.cpu u (buys n choice)
        → Chosen n.content n.cpu Normal e
        → Moves o EventView.PowerOn p outcome → outcome ≢ PowerLost
        → (p.place ≡ decided_place o.content e)
        ⊎ ((p.place ≡ Running (FromFlash (settled_choice choice)))
        × StartsBought (after_all n.content (buys n choice)) o.content n.cpu choice) }
{
    a_running_trial_is_chosen();
    boots_own_writes();
    only_lost_power_says_so();
}

/// A reset chooses on the content on which it writes. Where it loses power, it loses it in a step
/// of the start that it chose there. So the laws on a boot's own writes hold of a reset without
/// more.
pub fn a_reset_that_loses_power()
    ensures { (m o : MachineView) (kind : BootKind) (choice : Choice) → m.place ≢ Off
        → Chosen m.content m.cpu kind (Start choice)
        → Moves m (EventView.Reset kind) o PowerLost
        → (k : ℕ) × (step : Step)
        × IsCutAt m.content (start_steps m.content m.cpu choice) k step o.content }
{
    only_lost_power_says_so();
}
