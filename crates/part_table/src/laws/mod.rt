//! Laws of the definitions, proved: each is the `ensures` of a function that does nothing.

ghost use Rattle.std.specs.Prelude.{◌++◌, pos, ◌≡◌, ◌≢◌, ◌↔◌, ◌<◌, ◌+◌, ◌*◌, ℕ, List, true, false, length, Option, Some, None, Result, Ok, Err};
ghost use Rattle.std.specs.List.{AllByRecursion, flat_map};
ghost use Rattle.block_codec.specs.declared.items.Item.{Item};
ghost use Rattle.block_codec.specs.Blocks.{BlockView, IsBlock, block_words};
ghost use Rattle.block_codec.specs.Items.{items_of};
ghost use Rattle.block_codec.specs.Reading.{block_at};
ghost use Rattle.pico_board.specs.Content.{AreApart};
ghost use Rattle.part_table.specs.declared.partition.Partition.{Partition};
ghost use Rattle.part_table.specs.declared.table.Table.{Table};
ghost use Rattle.part_table.specs.declared.table.TableFault.{TableFault};
ghost use Rattle.part_table.specs.declared.table.TableFault.TheVariants.{BadItem};
ghost use Rattle.part_table.specs.BadItems.{HasBadItem};
ghost use Rattle.part_table.specs.Contents.{table_of_items};
ghost use Rattle.part_table.specs.Faults.{table_fault, parts_fault, permissions_fault, overlap_fault, link_fault};
ghost use Rattle.part_table.specs.Fields.{link_type, permissions_of};
ghost use Rattle.part_table.specs.Judged.{IsJudgedAs};
ghost use Rattle.part_table.specs.Links.{is_second, is_second_of, owner_of, pair_of};
ghost use Rattle.part_table.specs.Partitions.{part_at, partitions_in};
ghost use Rattle.part_table.specs.Rules.{IsFirstTableFault, HasNoFault, IsReadTo};
ghost use Rattle.part_table.specs.Rights.{right_word};
ghost use Rattle.part_table.specs.Sound.{IsSoundFor, IsSoundTable};
ghost use Rattle.part_table.specs.TableOf.{table_of};
ghost use Rattle.part_table.specs.Written.{IsReadablePartition, IsWritableTable, IsReadAs, written_partition, written_items, written_table, written_size};
ghost use Rattle.part_table.specs.Windows.{IsPlacedWindow, has_sector, partition_window};

/// A table that was read from a block has no fault of its partitions, and is sound for the same
/// number of sectors.
pub fn read_tables_are_sound()
    ensures faultless { (b : BlockView) (n m : ℕ) (t : Table) → table_of b n m ≡ Ok t
        → table_fault t n m ≡ None }
    ensures sound { (t : Table) (n m : ℕ) → table_fault t n m ≡ None → IsSoundTable t n }
{}

/// In each flash the first fault of a table's partitions is the one that the rules name. There is
/// none exactly where no rule finds one.
pub fn faults_are_the_first()
    ensures first { (parts : List Partition) (n m : ℕ) (f : TableFault)
        → (parts_fault parts n m ≡ Some f) ↔ IsFirstTableFault parts n m f }
    ensures none { (parts : List Partition) (n m : ℕ)
        → (parts_fault parts n m ≡ None) ↔ HasNoFault parts n m }
{}

/// A block's items say no table exactly in these cases: one of the kinds that are read stands
/// twice; an item has a wrong size or header; the hash is misplaced; the fields do not fill the
/// PARTITION_TABLE item exactly; or there is no such item. Then, and only then, the answer is
/// BadItem.
pub fn bad_items_come_by_their_rules()
    ensures items { (words : List ℕ) (items : List Item)
        → (table_of_items words items ≡ None) ↔ HasBadItem words items }
    ensures block { (b : BlockView) (n m : ℕ) → (table_of b n m ≡ Err BadItem)
        ↔ HasBadItem (block_words b) (items_of b.items) }
{}

/// What a block is read as, in each flash: BadItem where its items say no table; else the first
/// fault of the partitions; else Hash where its hash is wrong; else the table.
pub fn answers_are_in_order()
    ensures { (b : BlockView) (n m : ℕ) (r : Result Table TableFault)
        → (table_of b n m ≡ r) ↔ IsReadTo b n m r }
{}

/// Each partition of a table without faults is a window of whole sectors, at least one. It lies
/// inside the flash and after the sectors that are not free. Two partitions share no byte.
pub fn partitions_are_placed()
    ensures placed { (t : Table) (n m : ℕ) → table_fault t n m ≡ None
        → (i : ℕ) → i < length t.parts.items → IsPlacedWindow (partition_window t i) n m }
    ensures sound { (t : Table) (n : ℕ) → IsSoundTable t n
        → (i : ℕ) → i < length t.parts.items → IsPlacedWindow (partition_window t i) n 0 }
    ensures apart { (t : Table) (n : ℕ) → IsSoundTable t n
        → (i j : ℕ) → i < length t.parts.items → j < length t.parts.items → i ≢ j
        → AreApart (partition_window t i) (partition_window t j) }
{}

/// Where no two partitions overlap, the permissions of each sector of a partition are those of the
/// partition. Where there is no fault of permissions, the partition has them in both its words.
/// The permissions of each sector of no partition are those of the unpartitioned word.
pub fn sectors_have_one_right()
    ensures own { (t : Table) → overlap_fault t.parts.items ≡ None
        → (i sector : ℕ) → i < length t.parts.items
        → has_sector sector (part_at t.parts.items i) ≡ true
        → right_word t sector ≡ (part_at t.parts.items i).location }
    ensures both { (t : Table) → permissions_fault t.parts.items ≡ None
        → (i : ℕ) → i < length t.parts.items
        → permissions_of (part_at t.parts.items i).location
        ≡ permissions_of (part_at t.parts.items i).flags }
    ensures others { (t : Table) (sector : ℕ)
        → ((i : ℕ) → i < length t.parts.items → has_sector sector (part_at t.parts.items i) ≡ false)
        → right_word t sector ≡ t.unpartitioned }
{}

/// The A of a pair is a partition, another one than its B, and no B itself. It has one B, and this
/// one is found.
pub fn pairs_are_right()
    ensures first { (parts : List Partition) → link_fault parts ≡ None
        → (a b : ℕ) → b < length parts → is_second_of a (part_at parts b) ≡ true
        → (a < length parts) × (a ≢ b) × (is_second (part_at parts a) ≡ false) }
    ensures one { (parts : List Partition) → link_fault parts ≡ None
        → (a i j : ℕ) → i < length parts → j < length parts
        → is_second_of a (part_at parts i) ≡ true → is_second_of a (part_at parts j) ≡ true
        → i ≡ j }
    ensures found { (parts : List Partition) → link_fault parts ≡ None
        → (a b : ℕ) → b < length parts → is_second_of a (part_at parts b) ≡ true
        → pair_of parts a ≡ Some b }
    ensures second { (parts : List Partition) (a b : ℕ) → pair_of parts a ≡ Some b
        → (b < length parts) × (is_second_of a (part_at parts b) ≡ true) }
{}

/// A table is sound for a flash where it is for the flash's whole sectors; no table is sound for
/// each flash.
pub fn soundness_is_by_whole_sectors()
    ensures whole { (t : Table) (n k : ℕ) → k < 4096
        → IsSoundFor (Some t) (4096 * n + k) ↔ IsSoundTable t n }
    ensures none { (n : ℕ) → IsSoundFor None n }
{}

/// The owner of a partition is a partition, another one, and has no link.
pub fn owners_are_right()
    ensures { (parts : List Partition) → link_fault parts ≡ None
        → (i v : ℕ) → i < length parts → owner_of (part_at parts i) ≡ Some v
        → (v < length parts) × (v ≢ i) × (link_type (part_at parts v) ≡ 0) }
{}

/// Partitions that agree with their flag words are read again from the words that are written for
/// them.
pub fn partitions_are_read_back()
    ensures { (parts : List Partition) → AllByRecursion IsReadablePartition parts
        → partitions_in (length parts) (flat_map written_partition parts) ≡ Some parts }
{}

/// Suppose that the words, ids, families and names of a table are in their ranges. Then the bytes
/// that are written for it are a block. The block stands at their front, whatever follows them. In
/// each flash for which the table has no fault, the block is read as the same table; in each other
/// flash it is read to the first fault. For each table, in its ranges or not, as many bytes are
/// written as its written size says.
pub fn tables_are_read_back()
    ensures block { (t : Table) → IsWritableTable t
        → IsBlock (written_table t) (written_items t) (pos 0) }
    ensures stands { (t : Table) (rest : List ℕ) → IsWritableTable t
        → block_at (written_table t ++ rest) 0
        ≡ Some (record { at = 0; items = written_items t; link = pos 0 }) }
    ensures again { (t : Table) (n m : ℕ) → IsWritableTable t → table_fault t n m ≡ None
        → IsReadAs (written_table t) t n m }
    ensures judged { (t : Table) (n m : ℕ) → IsWritableTable t
        → IsJudgedAs (written_table t) t n m }
    ensures size { (t : Table) → length (written_table t) ≡ written_size t }
{}
