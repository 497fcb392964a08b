//! Worked classes, by computing.

ghost use Rattle.std.specs.Prelude.{◌≡◌, ◌∷◌, [], true, false, Ok};
ghost use Rattle.pico_board.specs.declared.Step.TheVariants.{Erase};
ghost use Rattle.pico_board.specs.declared.boot.Cpu.TheVariants.{Arm};
ghost use Rattle.cut_class.specs.declared.class.Class.TheVariants.{Former, Finished, Whole, Tail, Mixed, Bootsel};
ghost use Rattle.boot_cuts.specs.Classes.{furthest};
ghost use Rattle.boot_cuts.specs.Classing.{agrees_to_end, class_by, is_mended};
ghost use Rattle.boot_cuts.specs.Counts.{class_count, runs_count};
ghost use Rattle.boot_cuts.specs.Examples.{before, block_at, falls, falls_otherwise, finished, first_start, last_start, run_to, told};
ghost use Rattle.cut_class.specs.Classes.{is_same_class};

/// A cut is `former` where the boot decides as before, and the image that it starts has its bytes.
/// Where it starts none there is nothing to compare.
pub fn former_cuts()
    ensures start { class_by first_start last_start Arm before finished [] before first_start
        ≡ Former }
    ensures fall { class_by falls last_start Arm before finished [] finished falls ≡ Former }
    ensures other_fall { class_by falls last_start Arm before finished [] before falls_otherwise
        ≡ Bootsel }
    ensures both { class_by first_start first_start Arm before before [] before first_start
        ≡ Former }
{}

/// A cut that is not `former` is `finished` where the boot makes the start of the end. Its image
/// has the bytes that it has there.
pub fn finished_cuts()
    ensures start { class_by first_start last_start Arm before finished [] finished last_start
        ≡ Finished }
    ensures one_start { class_by first_start first_start Arm before finished [] finished
        first_start ≡ Finished }
    ensures fall { class_by first_start falls Arm before finished [] finished falls ≡ Bootsel }
{}

/// The window of the image at the end is not left torn: no step that is left torn lies in it.
pub fn windows_of_the_end()
    ensures none { is_mended [] last_start ≡ true }
    ensures beside { is_mended (Erase 1 ∷ []) last_start ≡ true }
    ensures falls { is_mended [] falls ≡ false }
{}

/// The furthest block need not be the last one of the loop. Of one block alone nothing may be
/// missing.
pub fn ends_of_loops()
    ensures last { furthest 0 (block_at 0 ∷ block_at 40 ∷ []) ≡ 60 }
    ensures first { furthest 0 (block_at 40 ∷ block_at 0 ∷ []) ≡ 60 }
    ensures none { furthest 0 [] ≡ 0 }
    ensures alone { agrees_to_end (1 ∷ 2 ∷ []) (1 ∷ 2 ∷ []) (Ok (block_at 0 ∷ [])) ≡ false }
{}

/// How many cuts are of a class: those of the answers, and of a run both its ends and all between.
pub fn counts_of_classes()
    ensures cuts { class_count Bootsel (told Bootsel falls ∷ told Former falls
        ∷ told Bootsel falls ∷ told Mixed last_start ∷ []) ≡ 2 }
    ensures none { class_count Finished (told Bootsel falls ∷ []) ≡ 0 }
    ensures one { runs_count Bootsel (run_to 4 4 (told Bootsel falls) ∷ []) ≡ 1 }
    ensures runs { runs_count Former (run_to 0 2 (told Former falls)
        ∷ run_to 3 3 (told Bootsel falls) ∷ run_to 4 7 (told Former falls) ∷ []) ≡ 7 }
    ensures same { is_same_class Tail Tail ≡ true }
    ensures other { is_same_class Tail Mixed ≡ false }
    ensures crossed { is_same_class Whole Finished ≡ false }
{}
