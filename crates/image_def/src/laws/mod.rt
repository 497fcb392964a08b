//! Laws of image definitions, each the contract of a function without a body.

ghost use Rattle.std.specs.Prelude.{◌≡◌, ◌≢◌, ◌↔◌, ℕ, List, false, true, None, Some, Ok, Err, ◌+◌, ◌-◌, ◌*◌, ◌%◌, ◌^◌, ◌<◌, slice_get, slice_index};
ghost use Rattle.block_codec.specs.declared.definition.Def.{Def};
ghost use Rattle.block_codec.specs.declared.items.Item.{Item};
ghost use Rattle.block_codec.specs.Blocks.{BlockView, block_words, block_size};
ghost use Rattle.block_codec.specs.Items.{AreItems, items_of};
ghost use Rattle.block_codec.specs.Kinds.{is_of_kind};
ghost use Rattle.block_codec.specs.declared.kinds.TheConstants.{IMAGE_TYPE};
ghost use Rattle.image_def.specs.Definition.{def_of, def_record};
ghost use Rattle.image_def.specs.Faults.{item_fault, IsItemFault, IsFaultless, IsDefFault};
ghost use Rattle.image_def.specs.Kinds.{is_read_kind};
ghost use Rattle.image_def.specs.Guarantees.{IsDefinition, IsDigestItem};
ghost use Rattle.image_def.specs.Suits.{image_type_of, has_image_type, image_flags_of, does_suit};
ghost use Rattle.image_def.specs.Trial.{trial_cleared, untried_answer};
ghost use Rattle.block_codec.specs.HighByte.{changed_block};
ghost use Rattle.pico_board.specs.declared.boot.Cpu.{Cpu};

use crate::fault::DefFault;

/// A block gives a definition exactly where it has no fault, and the definition is what its items
/// say. It gives a fault exactly where that is the first, by the relation over items in order.
pub fn first_fault_exact()
    ensures defined { (b : BlockView) (def : Def)
        → (def_of b ≡ Ok def)
        ↔ (IsFaultless b × (def_record (block_words b) (items_of b.items) ≡ def)) }
    ensures fault { (b : BlockView) (f : DefFault) → (def_of b ≡ Err f) ↔ IsDefFault b f }
    ensures item { (words : List ℕ) (before : List Item) (item : Item) (f : DefFault)
        → (item_fault words before item ≡ Some f) ↔ IsItemFault words before item f }
{}

/// Of each definition: its flags and place are those of the block's IMAGE_TYPE item; its load
/// map's index is that of a LOAD_MAP item of the right size; the hashed words are in the block,
/// and before the HASH_VALUE item, where there is one; its rows are rollback rows, at most 32; and
/// there is a rollback version, within its bound, exactly where rows are listed.
pub fn definitions_are_sound()
    ensures { (b : BlockView) (def : Def)
        → AreItems b.items → has_image_type b ≡ true → def_of b ≡ Ok def → IsDefinition b def }
{}

/// A block's digest covers no word of itself, and none after it.
pub fn a_digest_covers_what_stands_before_it()
    ensures { (b : BlockView) (words : ℕ) (digest : List ℕ) (item : Item) → item.first < words
        → ¬ (IsDigestItem b words digest item) }
{}

/// A block that gives a definition has at most one item of each kind that is read.
pub fn one_item_of_each_kind()
    ensures { (b : BlockView) (def : Def) (kind i j : ℕ) (item other : Item)
        → def_of b ≡ Ok def → is_read_kind kind ≡ true
        → slice_get (items_of b.items) i ≡ Some item → is_of_kind kind item ≡ true
        → slice_get (items_of b.items) j ≡ Some other → is_of_kind kind other ≡ true → i ≡ j }
{}

/// Clear a block's trial bit, as a buy does. Then the block gives the same definition but for that
/// bit of its flags, or the same fault. It has the same size and the same other items, and suits
/// the same processors.
pub fn trial_bit_cleared()
    ensures definition { (b : BlockView) → AreItems b.items → has_image_type b ≡ true
        → def_of (trial_cleared b) ≡ untried_answer (def_of b) }
    ensures flags { (b : BlockView) (flags : ℕ) → AreItems b.items → image_flags_of b ≡ Some flags
        → image_flags_of (trial_cleared b) ≡ Some (flags % 2 ^ 15) }
    ensures suits { (b : BlockView) (cpu : Cpu) → AreItems b.items → has_image_type b ≡ true
        → does_suit cpu (trial_cleared b) ≡ does_suit cpu b }
    ensures size { (b : BlockView) → AreItems b.items → has_image_type b ≡ true
        → block_size (trial_cleared b) ≡ block_size b }
    ensures items { (b : BlockView) (j : ℕ) (item : Item) → AreItems b.items
        → has_image_type b ≡ true
        → slice_get (items_of b.items) j ≡ Some item → is_of_kind IMAGE_TYPE item ≡ false
        → slice_get (items_of (trial_cleared b).items) j ≡ Some item }
    ensures changed { (b : BlockView) (item : Item) → AreItems b.items → image_type_of b ≡ Some item
        → changed_block (b.at + 4 * item.first) (slice_index b.items (item.first - 1) % 2 ^ 31) b
        ≡ trial_cleared b }
{}
