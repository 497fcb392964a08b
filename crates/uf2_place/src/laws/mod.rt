//! Laws of UF2 blocks and of downloads.

ghost use Rattle.std.specs.Prelude.{◌≡◌, ◌≢◌, ◌↔◌, ℕ, ◌+◌, ◌*◌, ◌^◌, ◌<◌, ◌≤◌, ◌++◌, true, false, nat_eq, Contains, Err, Ok, None, Option, Some, List, [], length, map, slice_get, slice_range, take};
ghost use Rattle.std.specs.List.{AllByRecursion};
ghost use Rattle.std.specs.Set.{is_member};
ghost use Rattle.pico_board.specs.declared.window.TheConstants.{MOST_FLASH_BYTES};
ghost use Rattle.pico_board.specs.Sessions.{Gated};
ghost use Rattle.sector_pool.specs.Pool.{Pool};
ghost use Rattle.part_table.specs.Families.{absolute_family};
ghost use Rattle.part_table.specs.Rights.{allowed_by};
ghost use Rattle.part_table.specs.declared.Right.TheVariants.{BootWrite};
ghost use Rattle.part_table.specs.declared.Table.{Table};
ghost use Rattle.part_table.specs.declared.Target.{Target};
ghost use Rattle.uf2_place.specs.declared.answer.Accepted.TheVariants.{Again, Skipped};
ghost use Rattle.uf2_place.specs.declared.answer.PlaceFault.TheVariants.{NoTarget, NotPermitted, Outside};
ghost use Rattle.uf2_place.specs.declared.answer.Ruling.TheVariants.{Answered, Begins, Continues};
ghost use Rattle.uf2_place.specs.declared.block.Uf2.{Uf2};
ghost use Rattle.uf2_place.specs.declared.block.Uf2Fault.{Uf2Fault};
ghost use Rattle.uf2_place.specs.declared.current.Current.{Current};
ghost use Rattle.uf2_place.specs.Accepting.{DownloadView, StandsFor};
ghost use Rattle.uf2_place.specs.Blocks.{IsUf2, uf2_of, word_at, written_block};
ghost use Rattle.uf2_place.specs.Downloads.{lease_of};
ghost use Rattle.uf2_place.specs.Faults.{IsUf2Fault};
ghost use Rattle.uf2_place.specs.Files.{file_block, file_bytes, page_count};
ghost use Rattle.uf2_place.specs.Marks.{is_marked};
ghost use Rattle.uf2_place.specs.OtherFamilies.{SameButFamily, with_family};
ghost use Rattle.uf2_place.specs.Placement.{AreBlocks, IsPageInside, grown, is_whole_download, numbers_of, download_steps, sector_in};
ghost use Rattle.uf2_place.specs.Rulings.{GoesTo, continues, is_skipped, is_page_within, ruling, wanted};

/// What is written of a block has 512 bytes and is read back as that block.
pub fn written_blocks_are_read()
    ensures size { (b : Uf2) → IsUf2 b → length (written_block b) ≡ 512 }
    ensures read { (b : Uf2) → IsUf2 b → uf2_of (written_block b) ≡ Ok b }
{}

/// A fault comes exactly where its rule says so.
pub fn faults_come_by_their_rules()
    ensures { (bytes : List ℕ) (fault : Uf2Fault)
        → (uf2_of bytes ≡ Err fault) ↔ IsUf2Fault bytes fault }
{}

/// A block is read of its first 288 bytes and its last word; the bytes between them are not read.
pub fn what_a_block_is_read_of()
    ensures { (one other : List ℕ) → take 288 one ≡ take 288 other
        → slice_range one 508 512 ≡ slice_range other 508 512 → uf2_of one ≡ uf2_of other }
{}

/// Each block of the file of an image is read back.
pub fn files_are_read()
    ensures { (image : List ℕ) (family i : ℕ) → length image ≤ MOST_FLASH_BYTES → family < 2 ^ 32
        → i < page_count (length image)
        → uf2_of (slice_range (file_bytes image family) (512 * i) (512 * i + 512))
        ≡ Ok (file_block image family i) }
{}

/// More blocks bring more steps after those that are there.
pub fn steps_of_a_download_grow()
    ensures { (t : Target) (family count : ℕ) (former more : List Uf2)
        → AreBlocks t family count (former ++ more)
        → download_steps t (former ++ more) ≡ download_steps t former
        ++ grown t former (former ++ more) }
{}

/// All numbers of a download are there exactly where each number below the count is that of some
/// block.
pub fn whole_downloads_have_all_numbers()
    ensures { (t : Target) (family count : ℕ) (blocks : List Uf2)
        → AreBlocks t family count blocks → 1 ≤ count
        → (is_whole_download blocks ≡ true)
        ↔ ((i : ℕ) → i < count → is_member nat_eq (numbers_of blocks) i ≡ true) }
{}

/// The steps of a download into a gated target whose pages all lie in its window are gated on it.
pub fn gated_download()
    ensures { (t : Target) (family count : ℕ) (blocks : List Uf2) → t.gated ≡ true
        → AreBlocks t family count blocks → AllByRecursion (IsPageInside t.window) blocks
        → Gated (download_steps t blocks) t.window }
{}

/// The answers before any step, each exactly where its rule holds and no earlier one.
pub fn rulings_come_by_their_rules()
    ensures skipped { (n : ℕ) (table : Option Table) (given : Option Target) (taken : List ℕ)
        (current : Option Current) (b : Uf2)
        → (ruling n table given taken current b ≡ Answered (Ok Skipped)) ↔ (is_skipped n b ≡ true) }
    ensures again { (n : ℕ) (table : Option Table) (given : Option Target) (taken : List ℕ)
        (current : Option Current) (b : Uf2)
        → (ruling n table given taken current b ≡ Answered (Ok Again))
        ↔ ((is_skipped n b ≡ false) × (continues current b ≡ true)
        × (is_marked taken b.number ≡ true)) }
    ensures no_target { (n : ℕ) (table : Option Table) (given : Option Target) (taken : List ℕ)
        (current : Option Current) (b : Uf2)
        → (ruling n table given taken current b ≡ Answered (Err NoTarget))
        ↔ ((wanted n current b ≡ Some b.family) × (given ≡ None)) }
    ensures outside { (n : ℕ) (table : Option Table) (given : Option Target) (taken : List ℕ)
        (current : Option Current) (b : Uf2)
        → (ruling n table given taken current b ≡ Answered (Err Outside))
        ↔ ((t : Target) × GoesTo n given taken current b t × ¬ (IsPageInside t.window b)) }
    ensures not_permitted { (n : ℕ) (table : Option Table) (given : Option Target)
        (taken : List ℕ) (current : Option Current) (b : Uf2)
        → (ruling n table given taken current b ≡ Answered (Err NotPermitted))
        ↔ ((t : Target) × GoesTo n given taken current b t × IsPageInside t.window b
        × (allowed_by table (sector_in t.window b) BootWrite ≡ false)) }
    ensures begins { (n : ℕ) (table : Option Table) (given : Option Target) (taken : List ℕ)
        (current : Option Current) (b : Uf2) (t : Target)
        → (ruling n table given taken current b ≡ Begins t)
        ↔ ((continues current b ≡ false) × GoesTo n given taken current b t
        × IsPageInside t.window b × (allowed_by table (sector_in t.window b) BootWrite ≡ true)) }
    ensures continues { (n : ℕ) (table : Option Table) (given : Option Target) (taken : List ℕ)
        (current : Option Current) (b : Uf2) (t : Target)
        → (ruling n table given taken current b ≡ Continues t)
        ↔ ((continues current b ≡ true) × GoesTo n given taken current b t
        × IsPageInside t.window b × (allowed_by table (sector_in t.window b) BootWrite ≡ true)) }
{}

/// A block continues a download exactly where it is of the family and the count of the download's
/// blocks. Its number is taken exactly where one of these blocks has it.
pub fn a_download_is_known_by_its_blocks()
    ensures { (d : DownloadView) (pool : Pool) (t : Target) (blocks : List Uf2) (a b : Uf2)
        → StandsFor d pool t blocks → Contains blocks a
        → ((continues d.current b ≡ true) ↔ ((b.family ≡ a.family) × (b.count ≡ a.count)))
        × (is_marked d.marks.numbers b.number ≡ is_member nat_eq (numbers_of blocks) b.number) }
{}

/// A download into a gated target holds one lease, which is out, and any other holds none.
pub fn gated_downloads_hold_a_lease()
    ensures gated { (d : DownloadView) (pool : Pool) (t : Target) (blocks : List Uf2)
        → StandsFor d pool t blocks → t.gated ≡ true
        → (k : ℕ) × (lease_of d.current ≡ Some k) × (slice_get pool.out k ≡ Some true) }
    ensures other { (d : DownloadView) (pool : Pool) (t : Target) (blocks : List Uf2)
        → StandsFor d pool t blocks → t.gated ≡ false → lease_of d.current ≡ None }
{}

/// The family is the word at 28, and no fault looks at it. Bytes that differ in this word alone
/// have the same fault, or are read as blocks that differ in their family alone. So do the files
/// of one image for two families.
pub fn the_family_is_no_fault()
    ensures read { (one other : List ℕ) (b : Uf2) → SameButFamily one other → uf2_of one ≡ Ok b
        → uf2_of other ≡ Ok (with_family b (word_at other 28)) }
    ensures fault { (one other : List ℕ) (fault : Uf2Fault) → SameButFamily one other
        → uf2_of one ≡ Err fault → uf2_of other ≡ Err fault }
    ensures files { (image : List ℕ) (one other i : ℕ)
        → file_block image other i ≡ with_family (file_block image one i) other }
{}

/// A block of a download that comes again is answered `Again`. A block that differs from it in its
/// family alone is no block of that download. The ruling on that block is the one where no
/// download is current.
pub fn another_family_is_another_download()
    ensures again { (n : ℕ) (table : Option Table) (given : Option Target) (d : DownloadView)
        (pool : Pool) (t : Target) (blocks : List Uf2) (a : Uf2)
        → StandsFor d pool t blocks → Contains blocks a → is_skipped n a ≡ false
        → ruling n table given d.marks.numbers d.current a ≡ Answered (Ok Again) }
    ensures other { (n : ℕ) (table : Option Table) (given : Option Target) (d : DownloadView)
        (pool : Pool) (t : Target) (blocks : List Uf2) (a : Uf2) (family : ℕ)
        → StandsFor d pool t blocks → Contains blocks a → family ≢ a.family
        → ruling n table given d.marks.numbers d.current (with_family a family)
        ≡ ruling n table given [] None (with_family a family) }
{}

/// Where no download is current, the family of a block decides which target is asked for, and
/// nothing else. Into a given target blocks of all families go alike; but blocks of the absolute
/// family are skipped where their page is not wholly in the flash. A list of blocks has the same
/// steps as the same blocks of another family.
pub fn what_the_family_decides()
    ensures wanted { (n : ℕ) (b : Uf2) (family : ℕ)
        → is_skipped n (with_family b family) ≡ false
        → wanted n None (with_family b family) ≡ Some family }
    ensures inside { (n : ℕ) (table : Option Table) (given : Option Target) (taken : List ℕ)
        (b : Uf2) (family : ℕ) → is_page_within n b ≡ true
        → ruling n table given taken None (with_family b family)
        ≡ ruling n table given taken None b }
    ensures others { (n : ℕ) (table : Option Table) (given : Option Target) (taken : List ℕ)
        (b : Uf2) (family : ℕ) → b.family ≢ absolute_family → family ≢ absolute_family
        → ruling n table given taken None (with_family b family)
        ≡ ruling n table given taken None b }
    ensures absolute { (n : ℕ) (table : Option Table) (given : Option Target) (taken : List ℕ)
        (b : Uf2) → is_page_within n b ≡ false
        → ruling n table given taken None (with_family b absolute_family)
        ≡ Answered (Ok Skipped) }
    ensures steps { (t : Target) (blocks : List Uf2) (family : ℕ)
        → download_steps t (map (λ b. with_family b family) blocks) ≡ download_steps t blocks }
{}
