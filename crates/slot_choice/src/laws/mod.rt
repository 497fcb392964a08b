//! Laws of the definitions, proved: each is the `ensures` of a function that does nothing.

ghost use Rattle.std.specs.Prelude.{◌≡◌, ◌≢◌, ◌↔◌, ◌+◌, ◌*◌, ◌%◌, ◌<◌, ◌≤◌, ℕ, List, length, true, false, slice_get, Option, Some, None, IsPermutation};
ghost use Rattle.block_codec.specs.declared.versions.Version.{Version};
ghost use Rattle.part_table.specs.Faults.{table_fault};
ghost use Rattle.part_table.specs.Fields.{is_ignored};
ghost use Rattle.part_table.specs.Links.{is_owned, is_second};
ghost use Rattle.part_table.specs.Partitions.{part_at};
ghost use Rattle.part_table.specs.Sound.{IsSoundTable};
ghost use Rattle.part_table.specs.Windows.{IsPlacedWindow};
ghost use Rattle.part_table.specs.declared.table.Table.{Table};
ghost use Rattle.pico_board.specs.Content.{AreApart, flash_base};
ghost use Rattle.pico_board.specs.declared.boot.Cpu.{Cpu};
ghost use Rattle.pico_board.specs.declared.window.Window.{Window};
ghost use Rattle.slot_choice.specs.LoadUnits.{load_unit};
ghost use Rattle.slot_choice.specs.Units.{IsMember, tableless_unit, unit_of, units};
ghost use Rattle.slot_choice.specs.Updates.{IsUpdateOf, IsUpdateless, update_order, updated_member};
ghost use Rattle.slot_choice.specs.Versions.{better, is_below};
ghost use Rattle.slot_choice.specs.declared.unit.Member.{Member};
ghost use Rattle.slot_choice.specs.declared.unit.SlotUnit.{SlotUnit};

/// Each boot unit of a table is that of a partition that is no B, has no owner and is not ignored
/// for the processor. Each such partition has its unit. The units stand in table order.
pub fn boot_units_are_listed()
    ensures listed { (t : Table) (n z : ℕ) (cpu : Cpu) (k : ℕ) (u : SlotUnit)
        → slice_get (units (Some t) n z cpu) k ≡ Some u
        → (i : ℕ) × (i < length t.parts.items) × (is_second (part_at t.parts.items i) ≡ false)
        × (is_owned (part_at t.parts.items i) ≡ false)
        × (is_ignored cpu (part_at t.parts.items i) ≡ false)
        × (u ≡ unit_of t.parts.items i) }
    ensures whole { (t : Table) (n z : ℕ) (cpu : Cpu) (i : ℕ) → i < length t.parts.items
        → is_second (part_at t.parts.items i) ≡ false
        → is_owned (part_at t.parts.items i) ≡ false
        → is_ignored cpu (part_at t.parts.items i) ≡ false
        → (k : ℕ) × (slice_get (units (Some t) n z cpu) k ≡ Some (unit_of t.parts.items i)) }
    ensures ordered { (t : Table) (n z : ℕ) (cpu : Cpu) (j k : ℕ) (u v : SlotUnit) (a b : ℕ)
        → j < k → slice_get (units (Some t) n z cpu) j ≡ Some u
        → slice_get (units (Some t) n z cpu) k ≡ Some v
        → u.a_part ≡ Some a → v.a_part ≡ Some b → a < b }
{}

/// The members of the boot units of a sound table share no byte: those of two units, and the two
/// of a pair.
pub fn boot_units_stand_apart()
    ensures units { (t : Table) (s n z : ℕ) (cpu : Cpu) → IsSoundTable t s
        → (j k : ℕ) (u v : SlotUnit) → j ≢ k
        → slice_get (units (Some t) n z cpu) j ≡ Some u
        → slice_get (units (Some t) n z cpu) k ≡ Some v
        → (w x : Window) → IsMember u w → IsMember v x → AreApart w x }
    ensures pair { (t : Table) (s n z : ℕ) (cpu : Cpu) → IsSoundTable t s
        → (k : ℕ) (u : SlotUnit) → slice_get (units (Some t) n z cpu) k ≡ Some u
        → (w : Window) → u.b ≡ Some w → AreApart u.a w }
    ensures slots { (n z : ℕ) (w : Window) → (tableless_unit n z).b ≡ Some w
        → AreApart (tableless_unit n z).a w }
{}

/// The members of the boot units of a sound table are windows of whole sectors, at least one, inside
/// the flash. So are those without a table, in a flash of whole sectors. The members of a table
/// without faults stand after the sectors that are not free. So they are apart from both table slots
/// where the slots are those sectors.
pub fn boot_units_are_placed()
    ensures faultless { (t : Table) (s m n z : ℕ) (cpu : Cpu) → table_fault t s m ≡ None
        → (k : ℕ) (u : SlotUnit) → slice_get (units (Some t) n z cpu) k ≡ Some u
        → (w : Window) → IsMember u w → IsPlacedWindow w s m }
    ensures sound { (t : Table) (s n z : ℕ) (cpu : Cpu) → IsSoundTable t s
        → (k : ℕ) (u : SlotUnit) → slice_get (units (Some t) n z cpu) k ≡ Some u
        → (w : Window) → IsMember u w → IsPlacedWindow w s 0 }
    ensures tableless { (s z : ℕ) → 1 ≤ s → z % 4096 ≡ 0 → (4096 < z → 2 * z ≤ 4096 * s)
        → (w : Window) → IsMember (tableless_unit (4096 * s) z) w → IsPlacedWindow w s 0 }
    ensures slots { (z m s : ℕ) (w : Window) → 4096 * m ≡ 2 * z → IsPlacedWindow w s m
        → AreApart (record { start = 0; len = z }) w × AreApart (record { start = z; len = z }) w }
{}

/// The members of a load unit of partitions of a sound table stand inside the flash. Where the
/// unit's A has an owner, its members share no byte with any boot unit.
pub fn load_units_are_placed()
    ensures placed { (t : Table) (s n z family : ℕ) → IsSoundTable t s
        → (u : SlotUnit) (i : ℕ) → load_unit (Some t) n z family ≡ Some u → u.a_part ≡ Some i
        → (w : Window) → IsMember u w → IsPlacedWindow w s 0 }
    ensures owned { (t : Table) (s n z family : ℕ) (cpu : Cpu) → IsSoundTable t s
        → (k : ℕ) (u v : SlotUnit) (i : ℕ) → load_unit (Some t) n z family ≡ Some u
        → u.a_part ≡ Some i
        → is_owned (part_at t.parts.items i) ≡ true
        → slice_get (units (Some t) n z cpu) k ≡ Some v
        → (w x : Window) → IsMember u w → IsMember v x → AreApart w x }
{}

/// Versions are in one strict order: of two different versions one is below the other.
pub fn versions_are_ordered()
    ensures irreflexive { (v : Version) → is_below v v ≡ false }
    ensures transitive { (u v w : Version) → is_below u v ≡ true → is_below v w ≡ true
        → is_below u w ≡ true }
    ensures total { (v w : Version) → is_below v w ≡ false → is_below w v ≡ false → v ≡ w }
{}

/// The better member has the greater version, and A is better on a tie; no member is better
/// exactly where neither has a version.
pub fn better_is_greater()
    ensures second { (v w : Version)
        → (better (Some v) (Some w) ≡ Some Member.B) ↔ (is_below v w ≡ true) }
    ensures tie { (v : Version) → better (Some v) (Some v) ≡ Some Member.A }
    ensures swapped { (v w : Version) → v ≢ w
        → better (Some v) (Some w) ≡ Some Member.A → better (Some w) (Some v) ≡ Some Member.B }
    ensures none { (a b : Option Version) → (better a b ≡ None) ↔ ((a ≡ None) × (b ≡ None)) }
{}

/// An update boot goes over the same units. The updated member's unit is the first that has a
/// member at the address. This unit is moved to the front, and the others keep their order.
/// Without an updated member the order stays.
pub fn updates_go_first()
    ensures same { (us : List SlotUnit) (base : ℕ) → IsPermutation us (update_order us base) }
    ensures none { (us : List SlotUnit) (base : ℕ) → updated_member us base ≡ None
        → IsUpdateless us base }
    ensures some { (us : List SlotUnit) (base : ℕ) (m : Member) → updated_member us base ≡ Some m
        → (u : SlotUnit) × (w : Window) × IsUpdateOf us base m u w }
    ensures first { (us : List SlotUnit) (base : ℕ) (m : Member) (u : SlotUnit) (w : Window)
        (update : IsUpdateOf us base m u w) (k : ℕ) (v : SlotUnit) (x : Window)
        → slice_get update.before k ≡ Some v → IsMember v x → flash_base + x.start ≢ base }
{}
