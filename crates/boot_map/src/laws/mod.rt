//! Laws of the definitions, proved: each is the `ensures` of a function that does nothing.

ghost use Rattle.std.specs.Prelude.{◌≡◌, ◌≢◌, ◌+◌, ◌/◌, ◌<◌, ◌≤◌, ℕ, List, length, slice_get, true, false, Option, Some};
ghost use Rattle.std.specs.List.{sum_by};
ghost use Rattle.pico_board.specs.declared.boot.Cpu.{Cpu};
ghost use Rattle.pico_board.specs.Content.{Content, IsContent};
ghost use Rattle.otp_roll.specs.Flags.{slot_size};
ghost use Rattle.part_table.specs.declared.table.Table.{Table};
ghost use Rattle.part_table.specs.Windows.{IsPlacedWindow};
ghost use Rattle.slot_choice.specs.declared.choice.Choice.{Choice};
ghost use Rattle.slot_choice.specs.declared.unit.Member.TheVariants.{A, B};
ghost use Rattle.boot_rules.specs.Tables.{table_of_content};
ghost use Rattle.boot_rules.specs.declared.decision.Decision.TheVariants.{Bootsel, Start};
ghost use Rattle.boot_rules.specs.declared.decision.Fall.{Fall};
ghost use Rattle.boot_map.specs.declared.maps.FlashMap.{FlashMap};
ghost use Rattle.boot_map.specs.declared.maps.MapRow.{MapRow};
ghost use Rattle.boot_map.specs.declared.places.MapWindow.{MapWindow};
ghost use Rattle.boot_map.specs.declared.places.MapPlace.TheVariants.{Slot, Partition as Part, Free};
ghost use Rattle.boot_map.specs.Windows.{has_slots, map_windows, parts_of, window_end};
ghost use Rattle.boot_map.specs.WindowRules.{AreMapWindows, WindowHasSector, IsMappable};
ghost use Rattle.boot_map.specs.Maps.{map_in, paired, table_of_map};
ghost use Rattle.boot_map.specs.MapRules.{ArePair, IsMap, IsNumbered};

/// For each content and processor the rules name exactly one map: that of the function.
pub fn one_map()
    ensures right { (c : Content) (cpu : Cpu) → IsContent c → IsMap c cpu (map_in c cpu) }
    ensures only { (c : Content) (cpu : Cpu) (m : FlashMap) → IsContent c → IsMap c cpu m
        → m ≡ map_in c cpu }
    ensures same { (c : Content) (cpu : Cpu) (m o : FlashMap) → IsContent c → IsMap c cpu m
        → IsMap c cpu o → m ≡ o }
{}

/// A flash of whole sectors can be mapped with its own table. Of a flash that can be mapped the
/// rules name exactly one list of windows: that of the function.
pub fn one_list_of_windows()
    ensures mappable { (c : Content) → IsContent c
        → IsMappable (table_of_content c) (length c.flash) (slot_size c.otp (length c.flash)) }
    ensures right { (t : Option Table) (n z : ℕ) → IsMappable t n z
        → AreMapWindows t n z (map_windows t n z) }
    ensures only { (t : Option Table) (n z : ℕ) (windows : List MapWindow) → IsMappable t n z
        → AreMapWindows t n z windows → windows ≡ map_windows t n z }
{}

/// The table in force of a map is the table of the flash, where it has one.
pub fn the_table_in_force_is_that_of_the_flash()
    ensures { (c : Content) (cpu : Cpu) (m : FlashMap) → IsMap c cpu m
        → table_of_map m ≡ table_of_content c }
{}

/// The windows of a map fill the flash. The first window begins at the flash's first byte, and
/// each further one where the former ends. The last ends at the flash's end, and their lengths
/// make up the flash's length. Each is of whole sectors, at least one.
pub fn windows_fill_the_flash()
    ensures first { (c : Content) (cpu : Cpu) (m : FlashMap) (r : MapRow) → IsMap c cpu m
        → slice_get m.rows.items 0 ≡ Some r → r.window.start ≡ 0 }
    ensures next { (c : Content) (cpu : Cpu) (m : FlashMap) (k : ℕ) (r s : MapRow) → IsMap c cpu m
        → slice_get m.rows.items k ≡ Some r → slice_get m.rows.items (k + 1) ≡ Some s
        → s.window.start ≡ window_end r.window }
    ensures order { (c : Content) (cpu : Cpu) (m : FlashMap) (j k : ℕ) (r s : MapRow)
        → IsMap c cpu m → j < k → slice_get m.rows.items j ≡ Some r
        → slice_get m.rows.items k ≡ Some s → window_end r.window ≤ s.window.start }
    ensures last { (c : Content) (cpu : Cpu) (m : FlashMap) (k : ℕ) (r : MapRow) → IsMap c cpu m
        → slice_get m.rows.items k ≡ Some r → k + 1 ≡ length m.rows.items
        → window_end r.window ≡ length c.flash }
    ensures lengths { (c : Content) (cpu : Cpu) (m : FlashMap) → IsMap c cpu m
        → sum_by (λ (r : MapRow). r.window.len) m.rows.items ≡ length c.flash }
    ensures placed { (c : Content) (cpu : Cpu) (m : FlashMap) (k : ℕ) (r : MapRow) → IsContent c
        → IsMap c cpu m → slice_get m.rows.items k ≡ Some r
        → IsPlacedWindow r.window (length c.flash / 4096) 0 }
{}

/// Each sector of the flash lies in the window of exactly one row.
pub fn each_sector_has_one_row()
    ensures some { (c : Content) (cpu : Cpu) (m : FlashMap) (s : ℕ) → IsContent c → IsMap c cpu m
        → s < length c.flash / 4096
        → (k : ℕ) × (r : MapRow) × (slice_get m.rows.items k ≡ Some r)
        × WindowHasSector r.window s }
    ensures one { (c : Content) (cpu : Cpu) (m : FlashMap) (j k s : ℕ) (x y : MapRow) → IsContent c
        → IsMap c cpu m → slice_get m.rows.items j ≡ Some x → slice_get m.rows.items k ≡ Some y
        → WindowHasSector x.window s → WindowHasSector y.window s → j ≡ k }
{}

/// Each slot, where the slots are windows, and each partition has its row. No two rows are the
/// same slot, the same partition or both the whole flash. No two free stretches are neighbours.
pub fn each_place_has_one_row()
    ensures slots { (c : Content) (cpu : Cpu) (m : FlashMap) (number : ℕ) → IsContent c
        → IsMap c cpu m → number < 2
        → has_slots (table_of_content c) (slot_size c.otp (length c.flash)) ≡ true
        → (k : ℕ) × (r : MapRow) × (slice_get m.rows.items k ≡ Some r) × (r.place ≡ Slot number) }
    ensures partitions { (c : Content) (cpu : Cpu) (m : FlashMap) (i : ℕ) → IsContent c
        → IsMap c cpu m → i < length (parts_of (table_of_content c))
        → (k : ℕ) × (r : MapRow) × (slice_get m.rows.items k ≡ Some r) × (r.place ≡ Part i) }
    ensures one { (c : Content) (cpu : Cpu) (m : FlashMap) (j k : ℕ) (x y : MapRow) → IsContent c
        → IsMap c cpu m → slice_get m.rows.items j ≡ Some x → slice_get m.rows.items k ≡ Some y
        → x.place ≡ y.place → x.place ≢ Free → j ≡ k }
    ensures apart { (c : Content) (cpu : Cpu) (m : FlashMap) (k : ℕ) (x y : MapRow) → IsContent c
        → IsMap c cpu m → slice_get m.rows.items k ≡ Some x
        → slice_get m.rows.items (k + 1) ≡ Some y → x.place ≡ Free → y.place ≢ Free }
{}

/// The rows of both members of a pair name it, each with the other's number.
pub fn both_members_tell_their_pair()
    ensures first { (c : Content) (cpu : Cpu) (m : FlashMap) (k a b : ℕ) (r : MapRow) → IsContent c
        → IsMap c cpu m → slice_get m.rows.items k ≡ Some r
        → ArePair (table_of_content c) a b → IsNumbered (table_of_content c) r.place a
        → r.pair ≡ Some (paired A b) }
    ensures second { (c : Content) (cpu : Cpu) (m : FlashMap) (k a b : ℕ) (r : MapRow)
        → IsContent c → IsMap c cpu m → slice_get m.rows.items k ≡ Some r
        → ArePair (table_of_content c) a b → IsNumbered (table_of_content c) r.place b
        → r.pair ≡ Some (paired B a) }
{}

/// At most one row starts. Where the decision is a start, it is the row of the started image's
/// window; otherwise none starts.
pub fn one_row_starts()
    ensures one { (c : Content) (cpu : Cpu) (m : FlashMap) (j k : ℕ) (x y : MapRow) → IsContent c
        → IsMap c cpu m → slice_get m.rows.items j ≡ Some x → slice_get m.rows.items k ≡ Some y
        → x.starts ≡ true → y.starts ≡ true → j ≡ k }
    ensures start { (c : Content) (cpu : Cpu) (m : FlashMap) (choice : Choice) → IsContent c
        → IsMap c cpu m → m.decision ≡ Start choice
        → (k : ℕ) × (r : MapRow) × (slice_get m.rows.items k ≡ Some r) × (r.starts ≡ true)
        × (r.window ≡ choice.image.window) }
    ensures none { (c : Content) (cpu : Cpu) (m : FlashMap) (fall : Fall) (k : ℕ) (r : MapRow)
        → IsContent c → IsMap c cpu m → m.decision ≡ Bootsel fall
        → slice_get m.rows.items k ≡ Some r → r.starts ≡ false }
{}
