//! Laws of the decision, each the contract of a function that does nothing.

pub mod accidents;

ghost use Rattle.std.specs.Prelude.{◌≡◌, ◌↔◌, ◌⊎◌, ℕ, ◌<◌, ◌≤◌, List, Bool, None, Some, Result, IsSome, length, map, slice_get, true};
ghost use Rattle.std.specs.Result.{result_ok};
ghost use Rattle.pico_board.specs.Content.{AreApart, IsContent, window_bytes};
ghost use Rattle.pico_board.specs.Sessions.{Confined};
ghost use Rattle.pico_board.specs.Steps.{MayLeave};
ghost use Rattle.pico_board.specs.declared.Step.{Step};
ghost use Rattle.part_table.specs.declared.table.Table.{Table};
ghost use Rattle.part_table.specs.declared.target.Target.{Target};
ghost use Rattle.part_table.specs.Windows.{IsPlacedIn, partition_window};
ghost use Rattle.slot_choice.specs.declared.unit.Member.{Member};
ghost use Rattle.slot_choice.specs.declared.unit.SlotUnit.{SlotUnit};
ghost use Rattle.slot_choice.specs.Units.{unit_of, IsMember};
ghost use Rattle.image_def.specs.declared.started.Started.{Started};
ghost use Rattle.image_check.specs.Valid.{Valid};
ghost use Rattle.owner_data.specs.Owners.{data_parts};
ghost use Rattle.boot_rules.specs.declared.slots.SlotFault.{SlotFault};
ghost use Rattle.boot_rules.specs.declared.tables.Found.{Found};
ghost use Rattle.boot_rules.specs.Data.{data_of, is_second_member};
ghost use Rattle.boot_rules.specs.Picking.{IsNormalImage, IsPick, pick};
ghost use Rattle.boot_rules.specs.Starts.{load_unit_in, IsOfKeptUnit, IsOfUnit, IsOwnedPair};
ghost use Rattle.boot_rules.specs.TableRules.{IsSlotAnswer, IsSlotTable, IsTableIn};
ghost use Rattle.boot_rules.specs.Tables.{slot_answer_in, table_in, table_of_content};
ghost use Rattle.boot_rules.specs.Targets.{target_of};
ghost use Rattle.pico_board.specs.declared.boot.BootKind.TheVariants.{Normal};
ghost use Rattle.pico_board.specs.declared.window.Window.{Window};
ghost use Rattle.pico_board.specs.declared.boot.Cpu.{Cpu};
ghost use Rattle.pico_board.specs.declared.boot.BootKind.{BootKind};
ghost use Rattle.pico_board.specs.Content.{Content};
ghost use Rattle.slot_choice.specs.declared.Choice.{Choice};
ghost use Rattle.image_check.specs.NotBelow.{NotBelow};
ghost use Rattle.boot_rules.specs.declared.decision.Decision.{Decision};
ghost use Rattle.boot_rules.specs.declared.decision.Decision.TheVariants.{Start};
ghost use Rattle.boot_rules.specs.Choosing.{Order, boot_units_in, choose, decision_in, images_in};
ghost use Rattle.boot_rules.specs.Changes.{Images, HaveSameImages, HaveSameImagesBut, AreInPlace, IsNotIn, IsIn};
ghost use Rattle.boot_rules.specs.Chosen.{Chosen, IsBootMember};

/// For each content, processor and boot type the rules name exactly one decision: that of the
/// choice as a function of the images.
pub fn one_decision()
    ensures exactly { (c : Content) (cpu : Cpu) (kind : BootKind) (d : Decision)
        → Chosen c cpu kind d ↔ (d ≡ decision_in c cpu kind) }
    ensures some { (c : Content) (cpu : Cpu) (kind : BootKind)
        → Chosen c cpu kind (decision_in c cpu kind) }
    ensures one { (c : Content) (cpu : Cpu) (kind : BootKind) (d e : Decision)
        → Chosen c cpu kind d → Chosen c cpu kind e → d ≡ e }
{}

/// An image that a boot starts is never below its rollback rows.
pub fn started_is_not_below()
    ensures { (c : Content) (cpu : Cpu) (kind : BootKind) (choice : Choice)
        → Chosen c cpu kind (Start choice) → NotBelow c.otp choice.image }
{}

/// The choice is a function of the images in the members' windows: equal images give equal choices.
pub fn equal_images_equal_choices()
    ensures { (f g : Images) (order : Order) → HaveSameImages f g order.units
        → choose f order ≡ choose g order }
{}

/// Where the choice was of another window, a change of one window's image leaves the choice or
/// gives a start in that window. A start stays a start.
pub fn a_window_changes()
    ensures choice { (w : Window) (f g : Images) (order : Order)
        → HaveSameImagesBut w f g order.units → AreInPlace f → AreInPlace g
        → IsNotIn w (choose f order) → IsIn w (choose g order) ⊎ (choose g order ≡ choose f order) }
    ensures stays { (w : Window) (f g : Images) (order : Order)
        → HaveSameImagesBut w f g order.units → AreInPlace f → AreInPlace g
        → IsNotIn w (choose f order) → IsSome (choose f order) → IsSome (choose g order) }
{}

/// A window that was not taken and then has no image changes nothing.
pub fn a_window_empties()
    ensures { (w : Window) (f g : Images) (order : Order) → HaveSameImagesBut w f g order.units
        → AreInPlace f → IsNotIn w (choose f order) → ((trial : Bool) → g w trial ≡ None)
        → choose g order ≡ choose f order }
{}

/// The images of a content name the windows in which they stand.
pub fn images_are_in_place()
    ensures { (c : Content) (cpu : Cpu) → AreInPlace (images_in c cpu) }
{}

/// What a start gives. Its image stands in a member of a boot unit, whose other member is `other`.
/// Both windows are of whole sectors, at least one, inside the flash, and share no byte. The image
/// is valid in its window with a trial image allowed, and it is a trial only in the updated member.
pub fn what_a_start_gives()
    ensures unit { (c : Content) (cpu : Cpu) (kind : BootKind) (choice : Choice)
        → Chosen c cpu kind (Start choice) → (u : SlotUnit) × IsOfUnit c cpu choice u }
    ensures window { (c : Content) (cpu : Cpu) (kind : BootKind) (choice : Choice) → IsContent c
        → Chosen c cpu kind (Start choice) → IsPlacedIn c choice.image.window }
    ensures other { (c : Content) (cpu : Cpu) (kind : BootKind) (choice : Choice) → IsContent c
        → Chosen c cpu kind (Start choice) → (w : Window) → choice.other ≡ Some w
        → IsPlacedIn c w × AreApart choice.image.window w }
    ensures valid { (c : Content) (cpu : Cpu) (kind : BootKind) (choice : Choice)
        → Chosen c cpu kind (Start choice) → Valid c choice.image.window cpu true choice.image }
    ensures trial { (c : Content) (cpu : Cpu) (kind : BootKind) (choice : Choice)
        → Chosen c cpu kind (Start choice) → choice.image.trial ≡ true → choice.updated ≡ true }
{}

/// For each slot of a content the rules name exactly one answer, that of the function: its table,
/// or why it has none.
pub fn one_answer_of_a_slot()
    ensures right { (c : Content) (number : ℕ)
        → IsSlotAnswer c number (slot_answer_in c number) }
    ensures only { (c : Content) (number : ℕ) (r : Result Table SlotFault)
        → IsSlotAnswer c number r → r ≡ slot_answer_in c number }
{}

/// A slot has a table exactly where its answer is that table.
pub fn answers_have_the_tables()
    ensures { (c : Content) (number : ℕ) (t : Table)
        → IsSlotTable c number t ↔ (result_ok (slot_answer_in c number) ≡ Some t) }
{}

/// The table of a content is that of slot 0 or of slot 1, by the words of the rules. There is none
/// exactly where neither slot has one.
pub fn a_table_is_that_of_a_slot()
    ensures some { (c : Content) (found : Found) → (table_in c ≡ Some found) ↔ IsTableIn c found }
    ensures none { (c : Content) → (table_in c ≡ None)
        ↔ ((number : ℕ) (t : Table) → number ≤ 1 → IsSlotTable c number t → ⊥) }
{}

/// What is picked of a unit is the image of a member, valid in a normal boot, to which the other
/// member's is not preferred. Nothing is picked exactly where neither member has such an image.
pub fn a_pick_is_the_better_image()
    ensures some { (c : Content) (u : SlotUnit) (cpu : Cpu) (s : Started)
        → (pick c u cpu ≡ Some s) ↔ IsPick c u cpu s }
    ensures none { (c : Content) (u : SlotUnit) (cpu : Cpu)
        → (pick c u cpu ≡ None) ↔ ((m : Member) (s : Started) → IsNormalImage c cpu u m s → ⊥) }
{}

/// The target of a download into a pair, for the content's own table, never runs: it shares no byte
/// with the window of the image that a normal boot starts.
pub fn a_target_never_runs()
    ensures { (c : Content) (cpu : Cpu) (family : ℕ) (u : SlotUnit) (second : Window)
        (target : Target) (choice : Choice)
        → IsContent c → load_unit_in c family ≡ Some u → u.b ≡ Some second
        → target_of c (table_of_content c) cpu family ≡ Some target
        → Chosen c cpu Normal (Start choice) → AreApart target.window choice.image.window }
{}

/// The data of a started image are those of the partition that is its unit's A. Of each partition
/// with that owner they are its B where B was started and it has one, and the partition itself
/// otherwise.
pub fn data_of_a_start()
    ensures { (c : Content) (cpu : Cpu) (kind : BootKind) (choice : Choice) (found : Found)
        → IsContent c → table_in c ≡ Some found → Chosen c cpu kind (Start choice)
        → (i : ℕ) × IsOfUnit c cpu choice (unit_of found.table.parts.items i)
        × (data_of (Some found.table) choice
        ≡ map (partition_window found.table)
        (data_parts found.table.parts.items i (is_second_member choice.member))) }
{}

/// Steps that are confined to the target of a family in an owned pair, done or torn, leave the
/// table and the decision of a normal boot. Where that is a start, the target shares no byte with
/// the data of the started image, and all of these keep their bytes.
pub fn owned_data()
    ensures table { (c : Content) (cpu : Cpu) (family : ℕ) (found : Found) (u : SlotUnit)
        (second : Window) (target : Target)
        (steps : List Step) (d : Content)
        → IsContent c → table_in c ≡ Some found → load_unit_in c family ≡ Some u
        → IsOwnedPair found.table u second
        → target_of c (Some found.table) cpu family ≡ Some target → Confined steps target.window
        → MayLeave c steps d
        → table_in d ≡ Some found }
    ensures decision { (c : Content) (cpu : Cpu) (family : ℕ) (found : Found) (u : SlotUnit)
        (second : Window) (target : Target)
        (steps : List Step) (d : Content) (e : Decision)
        → IsContent c → table_in c ≡ Some found → load_unit_in c family ≡ Some u
        → IsOwnedPair found.table u second
        → target_of c (Some found.table) cpu family ≡ Some target → Confined steps target.window
        → MayLeave c steps d
        → Chosen c cpu Normal e → Chosen d cpu Normal e }
    ensures apart { (c : Content) (cpu : Cpu) (family : ℕ) (found : Found) (u : SlotUnit)
        (second : Window) (target : Target)
        (choice : Choice) (k : ℕ) (w : Window)
        → IsContent c → table_in c ≡ Some found → load_unit_in c family ≡ Some u
        → IsOwnedPair found.table u second
        → target_of c (Some found.table) cpu family ≡ Some target
        → Chosen c cpu Normal (Start choice)
        → slice_get (data_of (Some found.table) choice) k ≡ Some w → AreApart target.window w }
    ensures bytes { (c : Content) (cpu : Cpu) (family : ℕ) (found : Found) (u : SlotUnit)
        (second : Window) (target : Target)
        (steps : List Step) (d : Content) (choice : Choice) (k : ℕ) (w : Window)
        → IsContent c → table_in c ≡ Some found → load_unit_in c family ≡ Some u
        → IsOwnedPair found.table u second
        → target_of c (Some found.table) cpu family ≡ Some target → Confined steps target.window
        → MayLeave c steps d
        → Chosen c cpu Normal (Start choice)
        → slice_get (data_of (Some found.table) choice) k ≡ Some w
        → window_bytes d w ≡ window_bytes c w }
{}

/// Steps that are confined to a partition, done or torn, leave the table. Where the partition is a
/// member of no boot unit, they leave the decision of a normal boot.
pub fn a_partition_beside_the_boot_units()
    ensures table { (c : Content) (found : Found) (i : ℕ) (steps : List Step) (d : Content)
        → IsContent c → table_in c ≡ Some found → i < length found.table.parts.items
        → Confined steps (partition_window found.table i) → MayLeave c steps d
        → table_in d ≡ Some found }
    ensures decision { (c : Content) (cpu : Cpu) (found : Found) (i : ℕ) (steps : List Step)
        (d : Content) (e : Decision)
        → IsContent c → table_in c ≡ Some found → i < length found.table.parts.items
        → ((k : ℕ) (u : SlotUnit) → slice_get (boot_units_in c cpu) k ≡ Some u
        → ¬ (IsMember u (partition_window found.table i)))
        → Confined steps (partition_window found.table i) → MayLeave c steps d
        → Chosen c cpu Normal e → Chosen d cpu Normal e }
{}

/// A gated target of a content is a boot member, or stands in a unit of a partition that has an
/// owner or is ignored for the processor.
pub fn a_gated_target_is_a_boot_member_or_kept()
    ensures { (c : Content) (cpu : Cpu) (family : ℕ) (target : Target)
        → target_of c (table_of_content c) cpu family ≡ Some target → target.gated ≡ true
        → IsBootMember c target.window cpu ⊎ IsOfKeptUnit c cpu target.window }
{}

/// A window is a boot member exactly where it is a member of a boot unit that has two members.
pub fn a_boot_member_is_of_a_pair()
    ensures pair { (c : Content) (w : Window) (cpu : Cpu) → IsBootMember c w cpu
        → (i : ℕ) × (u : SlotUnit) × (second : Window)
        × (slice_get (boot_units_in c cpu) i ≡ Some u) × (u.b ≡ Some second) × IsMember u w }
    ensures members { (c : Content) (w : Window) (cpu : Cpu) (i : ℕ) (u : SlotUnit)
        (second : Window)
        → slice_get (boot_units_in c cpu) i ≡ Some u → u.b ≡ Some second → IsMember u w
        → IsBootMember c w cpu }
{}
