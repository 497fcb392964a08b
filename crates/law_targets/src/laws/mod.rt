//! Laws of targets and of boot members. Each is a function that does nothing, whose contract is
//! the law.

ghost use Rattle.std.specs.Prelude.{◌≡◌, ◌≢◌, ◌⊎◌, ◌↔◌, ℕ, ◌<◌, None, Option, Some, false, length, true};
ghost use Rattle.block_codec.specs.declared.versions.Version.{Version};
ghost use Rattle.pico_board.specs.Content.{Content, IsContent};
ghost use Rattle.pico_board.specs.declared.boot.Cpu.{Cpu};
ghost use Rattle.pico_board.specs.declared.window.Window.{Window};
ghost use Rattle.part_table.specs.Families.{absolute_family, accepts};
ghost use Rattle.part_table.specs.Fields.{link_type};
ghost use Rattle.part_table.specs.Windows.{part_window};
ghost use Rattle.part_table.specs.declared.partition.Partition.{Partition};
ghost use Rattle.part_table.specs.declared.table.Table.{Table};
ghost use Rattle.part_table.specs.declared.target.Target.{Target};
ghost use Rattle.slot_choice.specs.Units.{IsSoundFor};
ghost use Rattle.slot_choice.specs.Versions.{is_below};
ghost use Rattle.slot_choice.specs.declared.unit.Member.TheVariants.{A, B};
ghost use Rattle.slot_choice.specs.declared.unit.SlotUnit.{SlotUnit};
ghost use Rattle.boot_rules.specs.Chosen.{IsBootMember};
ghost use Rattle.boot_rules.specs.Picking.{taken_member};
ghost use Rattle.boot_rules.specs.Starts.{table_of_content};
ghost use Rattle.boot_rules.specs.Tables.{is_first_taken, table_in};
ghost use Rattle.boot_rules.specs.Targets.{target_of};
ghost use Rattle.boot_rules.specs.declared.tables.Found.{Found};
ghost use Rattle.law_targets.specs.HomeRules.{IsBootMemberTarget, IsInBootPair, IsInKeptPair};
ghost use Rattle.law_targets.specs.Loads.{Accepts, IsExecutable};
ghost use Rattle.law_targets.specs.Pairs.{HasNoSecond, IsPart};
ghost use Rattle.law_targets.specs.Taking.{IsLower, TakesFirst, TakesSecond};
ghost use Rattle.law_targets.specs.TargetRules.{IsSlotTarget, IsTarget, flash_window, slot_size_in};

/// A partition accepts a family by the family's bit or among its extra families. A version is
/// lower by major, then minor. Of two tables the first is taken where it is a singleton, or not of
/// a lower version. A normal boot would take A or B of a unit by what their windows hold.
pub fn words_say_what_tests_say()
    ensures families { (p : Partition) (family : ℕ)
        → (accepts p family ≡ true) ↔ Accepts p family }
    ensures versions { (v w : Version) → (is_below v w ≡ true) ↔ IsLower v w }
    ensures tables { (t u : Table) → (is_first_taken t u ≡ true)
        ↔ ((t.singleton ≡ true) ⊎ (IsLower t.version u.version → ⊥)) }
    ensures first { (c : Content) (cpu : Cpu) (u : SlotUnit)
        → (taken_member c cpu u ≡ Some A) ↔ TakesFirst c cpu u.a u.b }
    ensures second { (c : Content) (cpu : Cpu) (u : SlotUnit) (two : Window) → u.b ≡ Some two
        → (taken_member c cpu u ≡ Some B) ↔ TakesSecond c cpu u.a two }
{}

/// Where a download of a family goes is what the rules say. This holds for every content,
/// processor and family, and every table that is sound for the flash, or none. The answered target
/// is the one that meets the rules. There is none exactly where nothing meets them, and at most
/// one target does.
pub fn a_target_is_that_of_the_rules()
    ensures some { (c : Content) (t : Option Table) (cpu : Cpu) (family : ℕ) (target : Target)
        → IsSoundFor t (length c.flash)
        → (target_of c t cpu family ≡ Some target) ↔ IsTarget c t cpu family target }
    ensures none { (c : Content) (t : Option Table) (cpu : Cpu) (family : ℕ)
        → IsSoundFor t (length c.flash)
        → (target_of c t cpu family ≡ None)
        ↔ ((target : Target) → IsTarget c t cpu family target → ⊥) }
    ensures one { (c : Content) (t : Option Table) (cpu : Cpu) (family : ℕ) (x y : Target)
        → IsSoundFor t (length c.flash)
        → IsTarget c t cpu family x → IsTarget c t cpu family y → x ≡ y }
{}

/// With a table a boot member is the window of a member of a pair of partitions. The pair's A is
/// no B, has no owner and is not ignored for the processor. Without a table the boot members are
/// the two slots, where these are of more than 4096 bytes.
pub fn boot_members_are_members_of_boot_pairs()
    ensures table { (c : Content) (w : Window) (cpu : Cpu) (found : Found)
        → table_in c ≡ Some found → IsBootMember c w cpu ↔ IsInBootPair found.table cpu w }
    ensures slots { (c : Content) (w : Window) (cpu : Cpu) → table_in c ≡ None
        → IsBootMember c w cpu ↔ ((4096 < slot_size_in c)
        × ((w ≡ record { start = 0; len = slot_size_in c })
        ⊎ (w ≡ record { start = slot_size_in c; len = slot_size_in c }))) }
{}

/// The target of a family by a content's own table may be a boot member. With a table it is one
/// exactly under two conditions: it is a member of the pair that loads the family; and the pair's
/// A has no owner and is not ignored. Without a table it is one exactly where it is a slot of the
/// pair of slots.
pub fn which_targets_are_boot_members()
    ensures table { (c : Content) (cpu : Cpu) (family : ℕ) (target : Target) (found : Found)
        → IsContent c → table_in c ≡ Some found
        → target_of c (table_of_content c) cpu family ≡ Some target
        → IsBootMember c target.window cpu ↔ IsBootMemberTarget c found.table cpu family target }
    ensures slots { (c : Content) (cpu : Cpu) (family : ℕ) (target : Target)
        → IsContent c → table_in c ≡ None
        → target_of c (table_of_content c) cpu family ≡ Some target
        → IsBootMember c target.window cpu ↔ IsSlotTarget c cpu family target }
{}

/// A gated target of a content is a boot member. Or, with a table, it lies in a pair whose A has
/// an owner or is ignored for the processor. No window is both.
pub fn a_gated_target_is_a_boot_member_or_in_a_kept_pair()
    ensures table { (c : Content) (cpu : Cpu) (family : ℕ) (target : Target) (found : Found)
        → table_in c ≡ Some found → target_of c (table_of_content c) cpu family ≡ Some target
        → target.gated ≡ true
        → IsBootMember c target.window cpu ⊎ IsInKeptPair found.table cpu target.window }
    ensures slots { (c : Content) (cpu : Cpu) (family : ℕ) (target : Target)
        → table_in c ≡ None → target_of c (table_of_content c) cpu family ≡ Some target
        → target.gated ≡ true → IsBootMember c target.window cpu }
    ensures apart { (c : Content) (w : Window) (cpu : Cpu) (found : Found)
        → table_in c ≡ Some found → IsBootMember c w cpu → IsInKeptPair found.table cpu w → ⊥ }
{}

/// The whole flash is never a boot member, nor is the target of the absolute family, nor a
/// partition that is no B and has no B. The target of a family of executables is no boot member
/// where it is not gated. The target of another family may be one
/// (`an_ungated_target_may_be_a_boot_member`).
pub fn what_is_never_a_boot_member()
    ensures whole { (c : Content) (cpu : Cpu) → IsContent c → IsBootMember c (flash_window c) cpu
        → ⊥ }
    ensures absolute { (c : Content) (cpu : Cpu) (target : Target) → IsContent c
        → target_of c (table_of_content c) cpu absolute_family ≡ Some target
        → IsBootMember c target.window cpu → ⊥ }
    ensures lone { (c : Content) (cpu : Cpu) (found : Found) (i : ℕ) (p : Partition)
        → table_in c ≡ Some found → IsPart found.table i p → link_type p ≢ 1
        → HasNoSecond found.table i → IsBootMember c (part_window p) cpu → ⊥ }
    ensures ungated { (c : Content) (cpu : Cpu) (family : ℕ) (target : Target) → IsContent c
        → target_of c (table_of_content c) cpu family ≡ Some target → IsExecutable family
        → target.gated ≡ false → IsBootMember c target.window cpu → ⊥ }
{}
