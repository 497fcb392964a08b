//! Worked examples of the definitions, proved by computing: each is the `ensures` of a function
//! that does nothing.

ghost use Rattle.std.specs.Prelude.{◌≡◌, ◌∷◌, [], codes, false, true, nat_lt, None, Some, Ok, Err};
ghost use Rattle.pico_board.specs.declared.Step.TheVariants.{Erase, Program, Raise};
ghost use Rattle.slot_choice.specs.Examples.{window_at};
ghost use Rattle.boot_sweep.specs.Moving.{Done, Torn as Cut};
ghost use Rattle.check_require.specs.declared.report.DataOwner.TheVariants.{Both, End, Former};
ghost use Rattle.check_require.specs.declared.report.DataWritten.TheVariants.{No, Torn, Yes};
ghost use Rattle.check_data.specs.Early.{starts_early_by};
ghost use Rattle.check_data.specs.Examples.{block_at, bytes, clear, falls, fourth, load_at, second, sixth, start_at, told, window_of};
ghost use Rattle.check_data.specs.Loose.{is_covered, is_loose, loose_by, offsets_where};
ghost use Rattle.check_data.specs.Others.{is_other_data_by};
ghost use Rattle.check_data.specs.Texts.{data_line};
ghost use Rattle.check_data.specs.Windows.{data_written, windows_by};

/// The windows of the former decision come first, in their order, and then each further one.
pub fn windows_by_their_owner()
    ensures none { windows_by [] [] [] ≡ [] }
    ensures former { windows_by [] (second ∷ []) [] ≡ told second Former No ∷ [] }
    ensures end { windows_by [] [] (second ∷ []) ≡ told second End No ∷ [] }
    ensures both { windows_by [] (second ∷ []) (second ∷ []) ≡ told second Both No ∷ [] }
    ensures order { windows_by [] (sixth ∷ second ∷ []) (fourth ∷ second ∷ [])
        ≡ told sixth Former No ∷ told second Both No ∷ told fourth End No ∷ [] }
    ensures longer { windows_by [] (second ∷ []) (window_at 0x2000 0x2000 ∷ [])
        ≡ told second Former No ∷ told (window_at 0x2000 0x2000) End No ∷ [] }
{}

/// A window is written where a step that completes touches it, and torn where one that a cut of the
/// script cuts is not made good, even if another step completes in it.
pub fn windows_that_are_written()
    ensures erased { data_written (Done (Erase 2) ∷ []) second ≡ Yes }
    ensures programmed { data_written (Done (Program 47 []) ∷ []) second ≡ Yes }
    ensures behind { data_written (Done (Program 48 []) ∷ []) second ≡ No }
    ensures before { data_written (Done (Erase 1) ∷ []) second ≡ No }
    ensures raised { data_written (Done (Raise 2 1) ∷ []) second ≡ No }
    ensures torn { data_written (Done (Erase 2) ∷ Cut (Program 32 []) true [] ∷ []) second ≡ Torn }
    ensures torn_before { data_written (Cut (Erase 2) false [] ∷ []) second ≡ Torn }
    ensures mended { data_written (Cut (Program 32 []) true [] ∷ Done (Erase 2) ∷ []) second ≡ Yes }
    ensures torn_elsewhere { data_written (Cut (Erase 4) true [] ∷ []) second ≡ No }
{}

/// An image runs on other data where it is the one that starts before or at the end, has the
/// window, and the window has other bytes than in each of these contents that speaks.
pub fn images_on_other_data()
    ensures former { is_other_data_by (start_at 1) (start_at 3) (bytes (0 ∷ 1 ∷ 2 ∷ 3 ∷ []))
        (bytes (0 ∷ 7 ∷ 8 ∷ 3 ∷ [])) (window_of Former Yes) (bytes (0 ∷ 1 ∷ 8 ∷ 3 ∷ []))
        (start_at 1) ≡ true }
    ensures same { is_other_data_by (start_at 1) (start_at 3) (bytes (0 ∷ 1 ∷ 2 ∷ 3 ∷ []))
        (bytes (0 ∷ 7 ∷ 8 ∷ 3 ∷ [])) (window_of Former Yes) (bytes (9 ∷ 1 ∷ 2 ∷ 9 ∷ []))
        (start_at 1) ≡ false }
    ensures end { is_other_data_by (start_at 1) (start_at 3) (bytes (0 ∷ 1 ∷ 2 ∷ 3 ∷ []))
        (bytes (0 ∷ 7 ∷ 8 ∷ 3 ∷ [])) (window_of End Yes) (bytes (0 ∷ 1 ∷ 8 ∷ 3 ∷ []))
        (start_at 3) ≡ true }
    ensures not_of_end { is_other_data_by (start_at 1) (start_at 3) (bytes (0 ∷ 1 ∷ 2 ∷ 3 ∷ []))
        (bytes (0 ∷ 7 ∷ 8 ∷ 3 ∷ [])) (window_of Former Yes) (bytes (0 ∷ 1 ∷ 8 ∷ 3 ∷ []))
        (start_at 3) ≡ false }
    ensures not_of_former { is_other_data_by (start_at 1) (start_at 3) (bytes (0 ∷ 1 ∷ 2 ∷ 3 ∷ []))
        (bytes (0 ∷ 7 ∷ 8 ∷ 3 ∷ [])) (window_of End Yes) (bytes (0 ∷ 1 ∷ 8 ∷ 3 ∷ []))
        (start_at 1) ≡ false }
    ensures left_torn { is_other_data_by (start_at 1) (start_at 3) (bytes (0 ∷ 1 ∷ 2 ∷ 3 ∷ []))
        (bytes (0 ∷ 7 ∷ 8 ∷ 3 ∷ [])) (window_of End Torn) (bytes (0 ∷ 1 ∷ 8 ∷ 3 ∷ []))
        (start_at 3) ≡ false }
    ensures other { is_other_data_by (start_at 1) (start_at 3) (bytes (0 ∷ 1 ∷ 2 ∷ 3 ∷ []))
        (bytes (0 ∷ 7 ∷ 8 ∷ 3 ∷ [])) (window_of Both Yes) (bytes (0 ∷ 1 ∷ 8 ∷ 3 ∷ []))
        (start_at 5) ≡ false }
    ensures falls { is_other_data_by falls falls (bytes (0 ∷ 1 ∷ 2 ∷ 3 ∷ []))
        (bytes (0 ∷ 7 ∷ 8 ∷ 3 ∷ [])) (window_of Both Yes) (bytes (0 ∷ 1 ∷ 8 ∷ 3 ∷ [])) falls
        ≡ false }
    ensures both { is_other_data_by (start_at 1) (start_at 1) (bytes (0 ∷ 1 ∷ 2 ∷ 3 ∷ []))
        (bytes (0 ∷ 7 ∷ 8 ∷ 3 ∷ [])) (window_of Both Yes) (bytes (0 ∷ 1 ∷ 8 ∷ 3 ∷ []))
        (start_at 1) ≡ true }
    ensures as_before { is_other_data_by (start_at 1) (start_at 1) (bytes (0 ∷ 1 ∷ 2 ∷ 3 ∷ []))
        (bytes (0 ∷ 7 ∷ 8 ∷ 3 ∷ [])) (window_of Both Yes) (bytes (0 ∷ 1 ∷ 2 ∷ 3 ∷ []))
        (start_at 1) ≡ false }
    ensures as_after { is_other_data_by (start_at 1) (start_at 1) (bytes (0 ∷ 1 ∷ 2 ∷ 3 ∷ []))
        (bytes (0 ∷ 7 ∷ 8 ∷ 3 ∷ [])) (window_of Both Yes) (bytes (0 ∷ 7 ∷ 8 ∷ 3 ∷ []))
        (start_at 1) ≡ false }
    ensures as_after_torn { is_other_data_by (start_at 1) (start_at 1) (bytes (0 ∷ 1 ∷ 2 ∷ 3 ∷ []))
        (bytes (0 ∷ 7 ∷ 8 ∷ 3 ∷ [])) (window_of Both Torn) (bytes (0 ∷ 7 ∷ 8 ∷ 3 ∷ []))
        (start_at 1) ≡ true }
{}

/// A block has the bytes from its offset to its end, and a storage those of its size. A clear entry
/// has none.
pub fn bytes_that_are_covered()
    ensures before_block { is_covered (block_at 4 ∷ []) [] 3 ≡ false }
    ensures first_of_block { is_covered (block_at 4 ∷ []) [] 4 ≡ true }
    ensures last_of_block { is_covered (block_at 4 ∷ []) [] 23 ≡ true }
    ensures behind_block { is_covered (block_at 4 ∷ []) [] 24 ≡ false }
    ensures second_block { is_covered (block_at 40 ∷ block_at 4 ∷ []) [] 4 ≡ true }
    ensures before_load { is_covered [] (load_at 4 2 ∷ []) 3 ≡ false }
    ensures first_of_load { is_covered [] (load_at 4 2 ∷ []) 4 ≡ true }
    ensures last_of_load { is_covered [] (load_at 4 2 ∷ []) 5 ≡ true }
    ensures behind_load { is_covered [] (load_at 4 2 ∷ []) 6 ≡ false }
    ensures empty_load { is_covered [] (load_at 4 0 ∷ []) 4 ≡ false }
    ensures clear_load { is_covered [] (clear 8 ∷ []) 0 ≡ false }
    ensures second_load { is_covered [] (clear 8 ∷ load_at 0 1 ∷ []) 0 ≡ true }
{}

/// A byte is loose where it is neither 0 nor 0xff, its page is programmed, and nothing of the image
/// covers it at its offset in the window.
pub fn bytes_that_are_loose()
    ensures loose { is_loose (7 ∷ []) (Program 0 [] ∷ []) 0 [] [] 0 ≡ true }
    ensures zero_byte { is_loose (0 ∷ []) (Program 0 [] ∷ []) 0 [] [] 0 ≡ false }
    ensures erased_byte { is_loose (255 ∷ []) (Program 0 [] ∷ []) 0 [] [] 0 ≡ false }
    ensures near_erased { is_loose (254 ∷ []) (Program 0 [] ∷ []) 0 [] [] 0 ≡ true }
    ensures unwritten { is_loose (7 ∷ []) (Erase 0 ∷ Raise 0 1 ∷ []) 0 [] [] 0 ≡ false }
    ensures other_page { is_loose (7 ∷ []) (Program 1 [] ∷ []) 0 [] [] 0 ≡ false }
    ensures later_program { is_loose (7 ∷ []) (Program 1 [] ∷ Program 0 [] ∷ []) 0 [] [] 0 ≡ true }
    ensures covered { is_loose (1 ∷ 7 ∷ []) (Program 0 [] ∷ []) 1 [] (load_at 0 1 ∷ []) 1 ≡ false }
    ensures beside { is_loose (1 ∷ 7 ∷ []) (Program 0 [] ∷ []) 0 [] (load_at 0 1 ∷ []) 1 ≡ true }
    ensures in_block { is_loose (7 ∷ []) (Program 0 [] ∷ []) 0 (block_at 0 ∷ []) [] 0 ≡ false }
{}

/// The offsets of a window that pass, in ascending order. Without a load map there is none.
pub fn offsets_that_are_loose()
    ensures none { offsets_where (λ x. nat_lt x 9) 5 0 ≡ [] }
    ensures some { offsets_where (λ x. nat_lt x 7) 5 3 ≡ 5 ∷ 6 ∷ [] }
    ensures later { offsets_where (λ x. nat_lt 5 x) 5 3 ≡ 6 ∷ 7 ∷ [] }
    ensures mapped { loose_by (1 ∷ 7 ∷ 0 ∷ 9 ∷ []) (Program 0 [] ∷ []) (window_at 0 4) (Some 2)
        (Ok [])
        (Ok (load_at 0 1 ∷ [])) ≡ 1 ∷ 3 ∷ [] }
    ensures shorter { loose_by (1 ∷ 7 ∷ 0 ∷ 9 ∷ []) (Program 0 [] ∷ []) (window_at 1 2) (Some 2)
        (Ok [])
        (Ok []) ≡ 1 ∷ [] }
    ensures unmapped { loose_by (1 ∷ 7 ∷ 0 ∷ 9 ∷ []) (Program 0 [] ∷ []) (window_at 0 4) None (Ok
        [])
        (Ok []) ≡ [] }
{}

/// An image starts early where a loose byte differs from the end. Where the former decision is the
/// same, one has to differ from the former content too.
pub fn images_that_start_early()
    ensures early { starts_early_by (start_at 1) (start_at 3) (bytes (1 ∷ 2 ∷ [])) (bytes (1 ∷ 7
        ∷ []))
        (1 ∷ []) (bytes (1 ∷ 2 ∷ [])) (start_at 3) ≡ true }
    ensures there { starts_early_by (start_at 1) (start_at 3) (bytes (1 ∷ 2 ∷ [])) (bytes (1 ∷ 7
        ∷ []))
        (1 ∷ []) (bytes (1 ∷ 7 ∷ [])) (start_at 3) ≡ false }
    ensures beside { starts_early_by (start_at 1) (start_at 3) (bytes (1 ∷ 2 ∷ [])) (bytes (1 ∷ 7
        ∷ []))
        (0 ∷ []) (bytes (1 ∷ 2 ∷ [])) (start_at 3) ≡ false }
    ensures former { starts_early_by (start_at 1) (start_at 3) (bytes (1 ∷ 2 ∷ [])) (bytes (1 ∷ 7
        ∷ []))
        (1 ∷ []) (bytes (1 ∷ 2 ∷ [])) (start_at 1) ≡ false }
    ensures as_before { starts_early_by (start_at 3) (start_at 3) (bytes (1 ∷ 2 ∷ [])) (bytes (1
        ∷ 7 ∷ []))
        (1 ∷ []) (bytes (1 ∷ 2 ∷ [])) (start_at 3) ≡ false }
    ensures between { starts_early_by (start_at 3) (start_at 3) (bytes (1 ∷ 2 ∷ [])) (bytes (1 ∷
        7 ∷ []))
        (1 ∷ []) (bytes (1 ∷ 4 ∷ [])) (start_at 3) ≡ true }
    ensures none { starts_early_by (start_at 1) (start_at 3) (bytes (1 ∷ 2 ∷ [])) (bytes (1 ∷ 7 ∷
        []))
        [] (bytes (1 ∷ 2 ∷ [])) (start_at 3) ≡ false }
    ensures second { starts_early_by (start_at 1) (start_at 3) (bytes (1 ∷ 2 ∷ [])) (bytes (1 ∷ 7
        ∷ []))
        (0 ∷ 1 ∷ []) (bytes (1 ∷ 2 ∷ [])) (start_at 3) ≡ true }
{}

/// The line of a window, one of each word.
pub fn lines_of_data()
    ensures both { data_line (told second Both No) 0
        ≡ codes "data window=0x00002000+0x00001000 of=both written=no torn=0\n" }
    ensures former { data_line (told second Former Yes) 12
        ≡ codes "data window=0x00002000+0x00001000 of=former written=yes torn=12\n" }
    ensures end { data_line (told fourth End Torn) 3
        ≡ codes "data window=0x00004000+0x00001000 of=end written=torn torn=3\n" }
{}
