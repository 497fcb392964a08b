//! Laws on power that is lost in what a boot or a buy writes. Each is a function that does
//! nothing, whose contract is the law.

pub mod running;

ghost use Rattle.std.specs.Prelude.{◌≡◌, ◌≢◌, ◌⊎◌, ◌↔◌, ◌++◌, ℕ, Contains, List, None, Some, false, true, slice_get};
ghost use Rattle.block_codec.specs.Erased.{IsErasedFrom};
ghost use Rattle.boot_rules.specs.Choosing.{boot_units_in};
ghost use Rattle.boot_rules.specs.Chosen.{Chosen};
ghost use Rattle.boot_rules.specs.Picking.{pick};
ghost use Rattle.boot_rules.specs.Starts.{IsOfUnit};
ghost use Rattle.boot_rules.specs.Tables.{table_in};
ghost use Rattle.boot_rules.specs.declared.decision.Decision.{Decision};
ghost use Rattle.boot_rules.specs.declared.decision.Decision.TheVariants.{Start};
ghost use Rattle.boot_rules.specs.declared.tables.Found.{Found};
ghost use Rattle.law_boot_cuts.specs.Crashes.{AreOwnSteps, LeavesNoAccidentalImage, IsUnitWindow, KeepsOtherRows, KeepsOtherTriples, PicksBought, StartsBought};
ghost use Rattle.boot_session.specs.CutSessions.{StartsFinished};
ghost use Rattle.boot_rules.specs.AccidentalImages.{HasNoImage, IsSameImageIn, HasNoAccidentalImage};
ghost use Rattle.image_check.specs.Changes.{bought};
ghost use Rattle.image_check.specs.SameImage.{SameImage};
ghost use Rattle.image_check.specs.Valid.{Valid};
ghost use Rattle.image_def.specs.declared.started.Started.{Started};
ghost use Rattle.otp_roll.specs.Rows.{AreRowsApart, IsOutside};
ghost use Rattle.pico_board.specs.Content.{Content, IsContent, window_bytes};
ghost use Rattle.pico_board.specs.Sessions.{IsConfined};
ghost use Rattle.pico_board.specs.Steps.{CutOf, IsCutAt, IsRaise, MayLeave, after_all};
ghost use Rattle.pico_board.specs.declared.Step.{Step};
ghost use Rattle.pico_board.specs.declared.Step.TheVariants.{Raise};
ghost use Rattle.pico_board.specs.declared.boot.BootKind.{BootKind};
ghost use Rattle.pico_board.specs.declared.boot.BootKind.TheVariants.{Normal, Update};
ghost use Rattle.pico_board.specs.declared.boot.Cpu.{Cpu};
ghost use Rattle.pico_board.specs.declared.window.Window.{Window};
ghost use Rattle.slot_choice.specs.declared.choice.Choice.{Choice};
ghost use Rattle.slot_choice.specs.declared.unit.SlotUnit.{SlotUnit};
ghost use Rattle.slot_choice.specs.declared.unit.Member.{Member};
ghost use Rattle.slot_choice.specs.Units.{member_window};
ghost use Rattle.slot_choice.specs.Updates.{updated_member};
ghost use Rattle.trial_buy.specs.Buying.{buy_steps};
ghost use Rattle.trial_buy.specs.Starting.{image_raises, start_steps};

/// What is asked below of the rows of other boot units is asked of images alone that are valid in
/// a normal boot, so of no trial image.
pub fn trial_images_of_other_units_are_not_asked()
    ensures rows { (c : Content) (cpu : Cpu) (u : SlotUnit) (steps : List Step)
        → ((i : ℕ) (v : SlotUnit) (m : Member) (w : Window) (s : Started) (r row bits : ℕ)
        → slice_get (boot_units_in c cpu) i ≡ Some v → v ≢ u → member_window m v ≡ Some w
        → Valid c w cpu false s → Contains s.rows.items r → Contains steps (Raise row bits)
        → IsOutside row r)
        → KeepsOtherRows c cpu u steps }
    ensures triples { (c : Content) (cpu : Cpu) (choice : Choice) (u : SlotUnit)
        (steps : List Step)
        → ((i : ℕ) (v : SlotUnit) (m : Member) (w : Window) (s : Started) (r q row bits : ℕ)
        → slice_get (boot_units_in c cpu) i ≡ Some v → v ≢ u → member_window m v ≡ Some w
        → Valid c w cpu false s → Contains s.rows.items r → Contains choice.image.rows.items q
        → Contains steps (Raise row bits) → ¬ (IsOutside row q) → AreRowsApart r q)
        → KeepsOtherTriples c cpu choice u steps }
{}

/// Suppose that power is lost in the raises that a normal boot does, or an update of an address at
/// which no member starts. Then the next normal boot starts the same image. The raises of any
/// start, done or torn, leave what a boot of its kind decides, and the image's bytes.
pub fn raises_cut()
    ensures normal { (c : Content) (cpu : Cpu) (choice : Choice) (d : Content)
        → IsContent c → Chosen c cpu Normal (Start choice) → CutOf c (start_steps c cpu choice) d
        → Chosen d cpu Normal (Start choice) }
    ensures nothing_updated { (c : Content) (cpu : Cpu) (base : ℕ) (choice : Choice) (d : Content)
        → IsContent c → updated_member (boot_units_in c cpu) base ≡ None
        → Chosen c cpu (Update base) (Start choice) → CutOf c (start_steps c cpu choice) d
        → Chosen d cpu Normal (Start choice) }
    ensures any_kind { (c : Content) (cpu : Cpu) (kind : BootKind) (choice : Choice) (d : Content)
        → IsContent c → Chosen c cpu kind (Start choice)
        → MayLeave c (image_raises c.otp choice.image) d → Chosen d cpu kind (Start choice) }
    ensures bytes { (c : Content) (cpu : Cpu) (kind : BootKind) (choice : Choice) (d : Content)
        → IsContent c → Chosen c cpu kind (Start choice)
        → MayLeave c (image_raises c.otp choice.image) d → SameImage d c choice.image cpu }
{}

/// Suppose that power is lost in the steps of an updated start, or of the buy of a running trial
/// image. Suppose also that a cut erase or program leaves no accidental image in the window that
/// it writes (`LeavesNoAccidentalImage`). Then the pick of the started image's unit is one of two:
/// the former one; or the started image with a clear trial bit, as after all steps, with the same
/// bytes. The same holds of the whole decision of a normal boot under two conditions: the table is
/// the former one too, also after all steps; and the steps raise no row in the triple of a row
/// that an image of another boot unit, valid in a normal boot, lists.
pub fn boots_own_writes()
    ensures pick { (c : Content) (cpu : Cpu) (kind : BootKind) (choice : Choice) (u : SlotUnit)
        (steps : List Step) (k : ℕ) (step : Step) (d : Content)
        → IsContent c → Chosen c cpu kind (Start choice) → IsOfUnit c cpu choice u
        → AreOwnSteps c cpu choice steps → IsCutAt c steps k step d
        → LeavesNoAccidentalImage c (after_all c steps) d cpu choice step
        → (pick d u cpu ≡ pick c u cpu) ⊎ PicksBought (after_all c steps) d u cpu choice }
    ensures decision { (c : Content) (cpu : Cpu) (kind : BootKind) (choice : Choice) (u : SlotUnit)
        (steps : List Step) (k : ℕ) (step : Step) (d : Content) (e : Decision)
        → IsContent c → Chosen c cpu kind (Start choice) → IsOfUnit c cpu choice u
        → AreOwnSteps c cpu choice steps → IsCutAt c steps k step d
        → LeavesNoAccidentalImage c (after_all c steps) d cpu choice step
        → table_in d ≡ table_in c → table_in (after_all c steps) ≡ table_in c
        → KeepsOtherRows c cpu u steps
        → Chosen c cpu Normal e
        → Chosen d cpu Normal e ⊎ StartsBought (after_all c steps) d cpu choice }
    ensures with_a_table { (c : Content) (cpu : Cpu) (kind : BootKind) (choice : Choice)
        (u : SlotUnit) (found : Found)
        (steps : List Step) (k : ℕ) (step : Step) (d : Content) (e : Decision)
        → IsContent c → Chosen c cpu kind (Start choice) → IsOfUnit c cpu choice u
        → table_in c ≡ Some found → AreOwnSteps c cpu choice steps → IsCutAt c steps k step d
        → LeavesNoAccidentalImage c (after_all c steps) d cpu choice step
        → KeepsOtherRows c cpu u steps
        → Chosen c cpu Normal e
        → Chosen d cpu Normal e ⊎ StartsBought (after_all c steps) d cpu choice }
{}

/// Suppose that no image of another boot unit lists a row whose triple shares a row with a triple
/// that the steps raise. Then the steps raise no row that such an image lists.
pub fn triples_apart_keep_other_rows()
    ensures { (c : Content) (cpu : Cpu) (kind : BootKind) (choice : Choice) (u : SlotUnit)
        (steps : List Step)
        → IsContent c → Chosen c cpu kind (Start choice) → AreOwnSteps c cpu choice steps
        → KeepsOtherTriples c cpu choice u steps → KeepsOtherRows c cpu u steps }
{}

/// Let a start or a buy do the first of its steps alone, as one does in which power is lost. Let
/// there be a table, and let these steps raise no row in the triple of a row that an image of
/// another boot unit, valid in a normal boot, lists. Suppose that power is lost in one of them, and
/// that a cut erase or program leaves no accidental image in the window that it writes: none but
/// those that it has before these steps and after them. Then a normal boot decides as before them,
/// or starts whole what it starts after them.
pub fn own_writes_that_are_cut_short()
    ensures { (c : Content) (cpu : Cpu) (kind : BootKind) (choice : Choice) (u : SlotUnit)
        (found : Found) (steps done rest : List Step) (k : ℕ) (step : Step) (d : Content)
        (e : Decision)
        → IsContent c → Chosen c cpu kind (Start choice) → IsOfUnit c cpu choice u
        → table_in c ≡ Some found → AreOwnSteps c cpu choice steps → steps ≡ done ++ rest
        → KeepsOtherRows c cpu u done → IsCutAt c done k step d
        → LeavesNoAccidentalImage c (after_all c done) d cpu choice step
        → Chosen c cpu Normal e
        → Chosen d cpu Normal e ⊎ StartsFinished (after_all c done) d cpu }
{}

/// Where there is a table, the steps of an updated start or of a buy, done or torn, leave it.
pub fn own_writes_keep_the_table()
    ensures { (c : Content) (cpu : Cpu) (kind : BootKind) (choice : Choice) (steps : List Step)
        (d : Content) (found : Found)
        → IsContent c → Chosen c cpu kind (Start choice) → AreOwnSteps c cpu choice steps
        → MayLeave c steps d → table_in c ≡ Some found → table_in d ≡ Some found }
{}

/// Each step of an updated start or of a buy is a raise, or an erase or program of a sector or
/// page. The sector or page lies in the window of the started image or in the other window of its
/// unit. Of a cut raise `LeavesNoAccidentalImage` asks nothing.
pub fn own_writes_keep_to_their_windows()
    ensures windows { (c : Content) (cpu : Cpu) (kind : BootKind) (choice : Choice)
        (steps : List Step) (k : ℕ) (step : Step)
        → IsContent c → Chosen c cpu kind (Start choice) → AreOwnSteps c cpu choice steps
        → slice_get steps k ≡ Some step
        → IsRaise step ⊎ ((v : Window) × IsUnitWindow choice v × IsConfined v step) }
    ensures raises { (c z d : Content) (cpu : Cpu) (choice : Choice) (row bits : ℕ)
        → LeavesNoAccidentalImage c z d cpu choice (Raise row bits) }
{}

/// After all steps of an updated start of an image that is no trial the pick of the unit is that
/// image. After those of a buy it is the bought image, with a clear trial bit.
pub fn what_own_writes_leave()
    ensures start { (c : Content) (cpu : Cpu) (kind : BootKind) (choice : Choice) (u : SlotUnit)
        → IsContent c → Chosen c cpu kind (Start choice) → IsOfUnit c cpu choice u
        → choice.updated ≡ true → choice.image.trial ≡ false
        → pick (after_all c (start_steps c cpu choice)) u cpu ≡ Some choice.image }
    ensures buy { (c : Content) (cpu : Cpu) (kind : BootKind) (choice : Choice) (u : SlotUnit)
        → IsContent c → Chosen c cpu kind (Start choice) → IsOfUnit c cpu choice u
        → choice.image.trial ≡ true
        → pick (after_all c (buy_steps c cpu choice)) u cpu ≡ Some (bought choice.image) }
{}
