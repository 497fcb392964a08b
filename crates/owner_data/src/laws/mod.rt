//! Laws of the definitions, proved: each is the `ensures` of a function that does nothing.

ghost use Rattle.std.specs.Prelude.{◌≡◌, ◌≢◌, ◌↔◌, ◌<◌, ◌≤◌, ℕ, Bool, false, List, length, slice_get, Option, Some, None};
ghost use Rattle.part_table.specs.declared.partition.Partition.{Partition};
ghost use Rattle.part_table.specs.declared.table.Table.{Table};
ghost use Rattle.part_table.specs.Faults.{link_fault};
ghost use Rattle.part_table.specs.Fields.{link_type};
ghost use Rattle.part_table.specs.Links.{is_owned, owner_of, pair_of};
ghost use Rattle.part_table.specs.Partitions.{part_at};
ghost use Rattle.part_table.specs.Sound.{IsSoundTable};
ghost use Rattle.part_table.specs.Windows.{partition_window};
ghost use Rattle.pico_board.specs.Content.{AreApart};
ghost use Rattle.owner_data.specs.Owners.{data_parts, owner_pair, IsDataOf};

/// A partition has no owner pair exactly where it has no owner. In a table without a fault of
/// links the owner is another partition and has no link. The B of the owner pair is the owner's.
pub fn owners_are_partitions()
    ensures none { (parts : List Partition) (i : ℕ)
        → (owner_pair parts i ≡ None) ↔ (is_owned (part_at parts i) ≡ false) }
    ensures some { (parts : List Partition) → link_fault parts ≡ None → (i o : ℕ) (b : Option ℕ)
        → i < length parts → owner_pair parts i ≡ Some (o, b)
        → (owner_of (part_at parts i) ≡ Some o) × (o < length parts) × (o ≢ i)
        × (link_type (part_at parts o) ≡ 0) × (b ≡ pair_of parts o) }
{}

/// The data of an owner are partitions: each is one that the owner owns, or the B of one. Each
/// partition that the owner owns has its place among them.
pub fn data_follows_its_owner()
    ensures listed { (parts : List Partition) (owner : ℕ) (second : Bool) (k j : ℕ)
        → slice_get (data_parts parts owner second) k ≡ Some j
        → (j < length parts) × ((i : ℕ) × (i < length parts) × IsDataOf parts owner second i j) }
    ensures whole { (parts : List Partition) (owner : ℕ) (second : Bool) (i : ℕ)
        → i < length parts → owner_of (part_at parts i) ≡ Some owner
        → (k j : ℕ) × (slice_get (data_parts parts owner second) k ≡ Some j)
        × IsDataOf parts owner second i j }
    ensures few { (parts : List Partition) → link_fault parts ≡ None
        → (owner : ℕ) (second : Bool) → owner < length parts
        → length (data_parts parts owner second) < length parts }
{}

/// The windows of two partitions of an owner's data share no byte.
pub fn data_stands_apart()
    ensures { (t : Table) (n : ℕ) → IsSoundTable t n → (owner : ℕ) (second : Bool) (j k x y : ℕ)
        → j ≢ k → slice_get (data_parts t.parts.items owner second) j ≡ Some x
        → slice_get (data_parts t.parts.items owner second) k ≡ Some y
        → AreApart (partition_window t x) (partition_window t y) }
{}
