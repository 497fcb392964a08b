//! Worked examples: which lists of steps are confined and gated; a content that the loss of power
//! leaves unfinished; the patterns of cuts and what they leave; and what counts, reads, writes and
//! puts tell.

ghost use Rattle.std.specs.Prelude.{◌≡◌, ◌≢◌, ℕ, ◌-◌, ◌^◌, ◌<◌, ◌≤◌, All, List, None, Some, Ok, Err, [], ◌∷◌, ◌⊎◌, false, length, slice_index, true};
ghost use Rattle.pico_board.specs.declared.window.Window.{Window};
ghost use Rattle.pico_board.specs.declared.window.TheConstants.{FLASH_BASE, MOST_FLASH_BYTES};
ghost use Rattle.pico_board.specs.declared.sink.SinkFail.{SinkFail};
ghost use Rattle.pico_board.specs.declared.store.StoreFail.{StoreFail};
ghost use Rattle.pico_board.specs.Content.{AreApart, Content, IsContent, flash_base};
ghost use Rattle.pico_board.specs.Steps.{CutOf, Erase, IsStepIn, Program, Raise};
ghost use Rattle.pico_board.specs.Board.{Rose};
ghost use Rattle.pico_board.specs.Cuts.{IsPattern, torn_by};
ghost use Rattle.pico_board.specs.Files.{GoesOn, IsReadOf, KeepsOthers, ShowsRead, ShowsWrite};
ghost use Rattle.pico_board.specs.declared.mem_store.MemStore.{MemStore};
ghost use Rattle.pico_board.specs.MemFiles.{HasAnswered, counted_to, reads_of, writes_of};
ghost use Rattle.pico_board.specs.Puts.{IsPutBy, PutsOn};
ghost use Rattle.pico_board.specs.Sessions.{Confined, Gated, IsBlankPage, IsElsewhere, IsGated, IsPageOf, IsPartial, IsProgramIn, IsSamePage, SameButSector, Unfinished};
ghost use Rattle.pico_board.specs.Views.{IsViewed};
ghost use Rattle.pico_board.specs.Examples.{TakesNothing, counting_store, first_sector_steps, half_done, holding, name_a, name_b, of_a, of_b, putting, second_sector, telling, two_pages, two_reads_and_a_write, two_sectors, window_at};

/// The window has sectors 2 and 3. Steps on its first and its last sector and page are confined to
/// it. Steps on the sectors and pages next to it are not, and a raise is not.
pub fn confined_lists()
    ensures erases { Confined (Erase 2 ∷ Erase 3 ∷ []) two_sectors }
    ensures programs { (bytes : List ℕ)
        → Confined (Program 32 bytes ∷ Program 63 bytes ∷ []) two_sectors }
    ensures sector_below { ¬ (Confined (Erase 1 ∷ []) two_sectors) }
    ensures sector_above { ¬ (Confined (Erase 4 ∷ []) two_sectors) }
    ensures page_below { (bytes : List ℕ) → ¬ (Confined (Program 31 bytes ∷ []) two_sectors) }
    ensures page_above { (bytes : List ℕ) → ¬ (Confined (Program 64 bytes ∷ []) two_sectors) }
    ensures raise { (row bits : ℕ) → ¬ (Confined (Raise row bits ∷ []) two_sectors) }
{}

/// Pages 32 to 47 are those of sector 2. A program of one of these pages is in that sector. Other
/// programs and the erases of other sectors are elsewhere.
pub fn steps_in_and_beside_a_sector()
    ensures first { IsPageOf 2 32 }
    ensures last { IsPageOf 2 47 }
    ensures below { ¬ (IsPageOf 2 31) }
    ensures above { ¬ (IsPageOf 2 48) }
    ensures in_first { (bytes : List ℕ) → IsProgramIn 2 (Program 32 bytes) }
    ensures in_last { (bytes : List ℕ) → IsProgramIn 2 (Program 47 bytes) }
    ensures not_in_below { (bytes : List ℕ) → ¬ (IsProgramIn 2 (Program 31 bytes)) }
    ensures not_in_above { (bytes : List ℕ) → ¬ (IsProgramIn 2 (Program 48 bytes)) }
    ensures beside_below { (bytes : List ℕ) → IsElsewhere 2 (Program 31 bytes) }
    ensures beside_above { (bytes : List ℕ) → IsElsewhere 2 (Program 48 bytes) }
    ensures not_beside_first { (bytes : List ℕ) → ¬ (IsElsewhere 2 (Program 32 bytes)) }
    ensures not_beside_last { (bytes : List ℕ) → ¬ (IsElsewhere 2 (Program 47 bytes)) }
    ensures erase_beside { IsElsewhere 2 (Erase 3) }
    ensures erase_of_it { ¬ (IsElsewhere 2 (Erase 2)) }
{}

/// The minimal flash has two sectors of sixteen pages each, and an OTP has 4096 rows of 24 bits:
/// the last steps inside each of these, and the first steps past them.
pub fn steps_of_a_small_board()
    ensures last_sector { IsStepIn 8192 (Erase 1) }
    ensures sector_above { ¬ (IsStepIn 8192 (Erase 2)) }
    ensures last_page { (bytes : List ℕ) → IsStepIn 8192 (Program 31 bytes) }
    ensures page_above { (bytes : List ℕ) → ¬ (IsStepIn 8192 (Program 32 bytes)) }
    ensures last_row { IsStepIn 8192 (Raise 4095 0xff_ffff) }
    ensures row_above { ¬ (IsStepIn 8192 (Raise 4096 1)) }
    ensures wide_bits { ¬ (IsStepIn 8192 (Raise 0 0x100_0000)) }
{}

/// Windows are apart where one ends where the other begins, and not where they share a byte. The
/// flash is seen from 0x10000000 on, and a view has at most 16,777,216 bytes.
pub fn windows_and_views()
    ensures behind { AreApart (window_at 0 4096) (window_at 4096 8192) }
    ensures before { AreApart (window_at 4096 8192) (window_at 0 4096) }
    ensures share_last { ¬ (AreApart (window_at 0 4097) (window_at 4096 8192)) }
    ensures share_first { ¬ (AreApart (window_at 4096 8192) (window_at 0 4097)) }
    ensures base { flash_base ≡ 0x10000000 }
    ensures base_in_code { FLASH_BASE ≡ flash_base }
    ensures most_in_code { MOST_FLASH_BYTES ≡ 16777216 }
    ensures longest { (xs : List ℕ) → length xs ≡ 16777216 → All (λ b. b < 256) xs → IsViewed xs }
    ensures longer { (xs : List ℕ) → length xs ≡ 16777217 → ¬ (IsViewed xs) }
{}

/// A list is gated that erases the first sector, writes the other one and programs the first one
/// at the end. The empty list is gated too. A list is not gated that begins with another sector,
/// or that programs a page of the first sector twice. Nor is one that programs the first sector
/// before a step on another one.
pub fn gated_lists()
    ensures two_pages { (page other : List ℕ) → IsGated (two_pages page other) two_sectors 2
        (second_sector other) (first_sector_steps page) }
    ensures empty { (w : Window) → Gated [] w }
    ensures other_first { ¬ (Gated (Erase 3 ∷ []) two_sectors) }
    ensures too_early { (page : List ℕ)
        → ¬ (Gated (Erase 2 ∷ Program 32 page ∷ Erase 3 ∷ []) two_sectors) }
    ensures twice { (page : List ℕ)
        → ¬ (Gated (Erase 2 ∷ Program 32 page ∷ Program 32 page ∷ []) two_sectors) }
{}

/// The loss of power within the program of the first page may leave an unfinished content: of a
/// page that begins with a byte 0, the first byte is 0x0f then.
pub fn unfinished_contents()
    ensures cut { (c : Content) (page other : List ℕ) → IsContent c → 16384 ≤ length c.flash
        → CutOf c (two_pages page other) (half_done c page other) }
    ensures unfinished { (c : Content) (page other : List ℕ) → IsContent c
        → 16384 ≤ length c.flash → slice_index c.flash 8192 ≢ 0x0f → slice_index page 0 ≡ 0
        → Unfinished c (two_pages page other) two_sectors (half_done c page other) }
{}

/// The pattern of a cut within a step has 1 to 4096 bytes. The pattern of a cut before a step has
/// none.
pub fn patterns_of_cuts()
    ensures within_empty { ¬ (IsPattern true []) }
    ensures within_least { (byte : ℕ) → IsPattern true (byte ∷ []) }
    ensures within_most { (bytes : List ℕ) → length bytes ≡ 4096 → IsPattern true bytes }
    ensures within_above { (bytes : List ℕ) → length bytes ≡ 4097 → ¬ (IsPattern true bytes) }
    ensures before_empty { IsPattern false [] }
    ensures before_one { (byte : ℕ) → ¬ (IsPattern false (byte ∷ [])) }
{}

/// A count that rose is greater than it was, unless it stood at its greatest value, where it
/// stays.
pub fn counts_that_rose()
    ensures greater { (before now : ℕ) → before < 0xffff_ffff_ffff_ffff → Rose before now
        → before < now }
    ensures by_one { Rose 4 5 }
    ensures greatest { Rose 0xffff_ffff_ffff_ffff 0xffff_ffff_ffff_ffff }
{}

/// A store that tells no files may answer a read with one byte more than the limit, and no more.
pub fn reads_of_untold_files()
    ensures at_most { (name : List ℕ) → IsReadOf None name 2 (7 ∷ 8 ∷ 9 ∷ []) }
    ensures above { (name : List ℕ) → ¬ (IsReadOf None name 2 (6 ∷ 7 ∷ 8 ∷ 9 ∷ [])) }
{}

/// A cut within a step leaves a pattern of two bytes again and again in an erased sector; in a
/// programmed page it keeps the bits that the pattern has; and in a row it raises no bit that the
/// pattern's first three bytes have.
pub fn cuts_within_a_step()
    ensures erase { torn_by (0x0f ∷ 0x35 ∷ []) (holding (0xdb ∷ 0xdb ∷ 0xdb ∷ []) []) (Erase 0)
        ≡ holding (0x0f ∷ 0x35 ∷ 0x0f ∷ []) [] }
    ensures program { torn_by (0x0f ∷ 0x35 ∷ []) (holding (0xdb ∷ 0xdb ∷ 0xdb ∷ []) [])
        (Program 0 (0x3c ∷ 0x3c ∷ 0x3c ∷ [])) ≡ holding (0x1b ∷ 0x19 ∷ 0x1b ∷ []) [] }
    ensures raise { torn_by (1 ∷ 2 ∷ []) (holding [] (0 ∷ 0x10 ∷ [])) (Raise 1 0xf_0203)
        ≡ holding [] (0 ∷ 0xe_0012 ∷ []) }
{}

/// Page 1 has the bytes 256 to 511, and is the same in two contents where each of these is.
pub fn pages_that_are_the_same()
    ensures same { (z d : Content)
        → ((i : ℕ) → 256 ≤ i → i < 512 → slice_index d.flash i ≡ slice_index z.flash i)
        → IsSamePage 1 z d }
    ensures first { (z d : Content) → slice_index d.flash 256 ≢ slice_index z.flash 256
        → ¬ (IsSamePage 1 z d) }
    ensures last { (z d : Content) → slice_index d.flash 511 ≢ slice_index z.flash 511
        → ¬ (IsSamePage 1 z d) }
{}

/// Sector 2 is finished in part where each of its pages, 32 to 47, is blank or the finished one.
/// The sector is not finished in part where a page has a byte that is not erased and another one
/// that is not finished. Nor is it where a byte outside the sector, or a row, is not the finished
/// one.
pub fn sectors_that_are_finished_in_part()
    ensures pages { (z d : Content) → SameButSector 2 z d
        → ((q : ℕ) → 32 ≤ q → q ≤ 47 → IsBlankPage q d ⊎ IsSamePage q z d) → IsPartial z 2 d }
    ensures first_page { (z d : Content) → slice_index d.flash 8192 ≢ 255
        → slice_index d.flash 8193 ≢ slice_index z.flash 8193 → ¬ (IsPartial z 2 d) }
    ensures last_page { (z d : Content) → slice_index d.flash 12287 ≢ 255
        → slice_index d.flash 12286 ≢ slice_index z.flash 12286 → ¬ (IsPartial z 2 d) }
    ensures below { (z d : Content) → slice_index d.flash 8191 ≢ slice_index z.flash 8191
        → ¬ (IsPartial z 2 d) }
    ensures above { (z d : Content) → slice_index d.flash 12288 ≢ slice_index z.flash 12288
        → ¬ (IsPartial z 2 d) }
    ensures rows { (z d : Content) → d.otp ≢ z.otp → ¬ (IsPartial z 2 d) }
{}

/// A write leaves the files of all other names: none of them is lost, changed or made.
pub fn files_beside_the_written_one()
    ensures other_bytes { KeepsOthers (of_a 1 ∷ of_b 2 ∷ []) name_a (of_b 2 ∷ of_a 7 ∷ []) }
    ensures lost { ¬ (KeepsOthers (of_a 1 ∷ of_b 2 ∷ []) name_a (of_a 1 ∷ [])) }
    ensures changed { ¬ (KeepsOthers (of_a 1 ∷ of_b 2 ∷ []) name_a (of_a 1 ∷ of_b 7 ∷ [])) }
    ensures made { ¬ (KeepsOthers (of_a 1 ∷ []) name_a (of_a 1 ∷ of_b 2 ∷ [])) }
{}

/// After a write that is Ok the bytes stand under the name. After a failed write they may stand
/// there or not. In both cases the other files are as they were, and told files are told.
pub fn files_after_a_write()
    ensures ok_old { ¬ (ShowsWrite (telling (of_a 1 ∷ of_b 2 ∷ [])) name_a (7 ∷ []) (Ok tt)
        (telling (of_a 1 ∷ of_b 2 ∷ []))) }
    ensures ok_lost { ¬ (ShowsWrite (telling (of_a 1 ∷ of_b 2 ∷ [])) name_a (7 ∷ []) (Ok tt)
        (telling (of_a 7 ∷ []))) }
    ensures failed_old { ShowsWrite (telling (of_a 1 ∷ of_b 2 ∷ [])) name_a (7 ∷ [])
        (Err StoreFail.Memory) (telling (of_a 1 ∷ of_b 2 ∷ [])) }
    ensures failed_new { ShowsWrite (telling (of_a 1 ∷ of_b 2 ∷ [])) name_a (7 ∷ [])
        (Err StoreFail.Memory) (telling (of_a 7 ∷ of_b 2 ∷ [])) }
    ensures failed_lost { (fail : StoreFail) → ¬ (ShowsWrite (telling (of_a 1 ∷ of_b 2 ∷ [])) name_a
        (7 ∷ []) (Err fail) (telling (of_a 7 ∷ []))) }
    ensures failed_changed { (fail : StoreFail) → ¬ (ShowsWrite (telling (of_a 1 ∷ of_b 2 ∷ []))
        name_a (7 ∷ []) (Err fail) (telling (of_a 7 ∷ of_b 7 ∷ []))) }
{}

/// A read at fault is counted among those of reads, and want of memory is no fault. A steady store
/// faults on a name that it lacks, and on no other. A read leaves the files.
pub fn faults_of_reads()
    ensures counted { ShowsRead (counting_store 0 0 false) name_a 0 (Err StoreFail.Fault)
        (counting_store 1 0 false) }
    ensures uncounted { ¬ (ShowsRead (counting_store 0 0 false) name_a 0 (Err StoreFail.Fault)
        (counting_store 0 1 false)) }
    ensures memory { ShowsRead (counting_store 0 0 true) name_a 0 (Err StoreFail.Memory)
        (counting_store 0 0 true) }
    ensures steady { ¬ (ShowsRead (counting_store 0 0 true) name_a 0 (Err StoreFail.Fault)
        (counting_store 1 0 true)) }
    ensures lacking { ShowsRead (counting_store 0 0 true) name_b 0 (Err StoreFail.Fault)
        (counting_store 1 0 true) }
    ensures files { ¬ (ShowsRead (telling (of_a 1 ∷ [])) name_a 0 (Ok (1 ∷ []))
        (telling (of_a 7 ∷ []))) }
{}

/// A write at fault is counted among those of writes, and want of memory is no fault. A steady
/// store has none.
pub fn faults_of_writes()
    ensures counted { ShowsWrite (counting_store 0 0 false) name_a (1 ∷ []) (Err StoreFail.Fault)
        (counting_store 0 1 false) }
    ensures uncounted { ¬ (ShowsWrite (counting_store 0 0 false) name_a (1 ∷ [])
        (Err StoreFail.Fault)
        (counting_store 1 0 false)) }
    ensures memory { ShowsWrite (counting_store 0 0 true) name_a (1 ∷ []) (Err StoreFail.Memory)
        (counting_store 0 0 true) }
    ensures steady { ¬ (ShowsWrite (counting_store 0 0 true) name_a (1 ∷ []) (Err StoreFail.Fault)
        (counting_store 0 1 true)) }
{}

/// A put at fault is counted, and want of memory is no fault. A steady sink has none.
pub fn faults_of_puts()
    ensures counted { TakesNothing (putting 0 false) (Err SinkFail.Fault) (putting 1 false) }
    ensures uncounted { ¬ (TakesNothing (putting 0 false) (Err SinkFail.Fault) (putting 0 false)) }
    ensures memory { TakesNothing (putting 0 true) (Err SinkFail.Memory) (putting 0 true) }
    ensures steady { ¬ (TakesNothing (putting 0 true) (Err SinkFail.Fault) (putting 1 true)) }
{}

/// No count of faults falls, and what is steady stays so; a call may raise any count.
pub fn counts_that_go_on()
    ensures rose { GoesOn (counting_store 2 3 true) (counting_store 3 4 true) }
    ensures reads { ¬ (GoesOn (counting_store 2 3 true) (counting_store 1 3 true)) }
    ensures writes { ¬ (GoesOn (counting_store 2 3 true) (counting_store 2 2 true)) }
    ensures steady { ¬ (GoesOn (counting_store 2 3 true) (counting_store 2 3 false)) }
    ensures put_rose { PutsOn (putting 2 true) (putting 3 true) }
    ensures puts { ¬ (PutsOn (putting 2 true) (putting 1 true)) }
    ensures put_steady { ¬ (PutsOn (putting 2 true) (putting 2 false)) }
{}

/// A put that is Ok appends all of its bytes. A failed put appends none of its bytes, some of the
/// first, or all of them, and nothing else.
pub fn bytes_after_a_put()
    ensures ok { IsPutBy (Some (1 ∷ [])) (7 ∷ 8 ∷ []) (Ok tt) (Some (1 ∷ 7 ∷ 8 ∷ [])) }
    ensures ok_in_part { ¬ (IsPutBy (Some (1 ∷ [])) (7 ∷ 8 ∷ []) (Ok tt) (Some (1 ∷ 7 ∷ []))) }
    ensures failed_none { (fail : SinkFail)
        → IsPutBy (Some (1 ∷ [])) (7 ∷ 8 ∷ []) (Err fail) (Some (1 ∷ [])) }
    ensures failed_in_part { (fail : SinkFail)
        → IsPutBy (Some (1 ∷ [])) (7 ∷ 8 ∷ []) (Err fail) (Some (1 ∷ 7 ∷ [])) }
    ensures failed_whole { (fail : SinkFail)
        → IsPutBy (Some (1 ∷ [])) (7 ∷ 8 ∷ []) (Err fail) (Some (1 ∷ 7 ∷ 8 ∷ [])) }
    ensures failed_other { (fail : SinkFail)
        → ¬ (IsPutBy (Some (1 ∷ [])) (7 ∷ 8 ∷ []) (Err fail) (Some (1 ∷ 8 ∷ []))) }
    ensures failed_lost { (fail : SinkFail)
        → ¬ (IsPutBy (Some (1 ∷ [])) (7 ∷ 8 ∷ []) (Err fail) (Some [])) }
    ensures failed_more { (fail : SinkFail)
        → ¬ (IsPutBy (Some (1 ∷ [])) (7 ∷ []) (Err fail) (Some (1 ∷ 7 ∷ 1 ∷ []))) }
{}

/// A store in memory counts its reads and its writes apart, each call once, also one that fails.
pub fn calls_are_counted_by_kind()
    ensures reads { (store : MemStore) → HasAnswered store two_reads_and_a_write
        → reads_of store ≡ 2 }
    ensures writes { (store : MemStore) → HasAnswered store two_reads_and_a_write
        → writes_of store ≡ 1 }
    ensures answered { (store : MemStore) → reads_of store ≡ 2 → writes_of store ≡ 1
        → HasAnswered store two_reads_and_a_write }
    ensures full { counted_to (2 ^ 64) ≡ 2 ^ 64 - 1 }
{}
