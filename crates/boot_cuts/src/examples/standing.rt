//! Worked classes of starts that are neither the former nor the finished one, by computing.

ghost use Rattle.std.specs.Prelude.{◌≡◌, ◌∷◌, [], true, false, Ok};
ghost use Rattle.pico_board.specs.declared.Step.TheVariants.{Program};
ghost use Rattle.pico_board.specs.declared.boot.Cpu.TheVariants.{Arm, Riscv};
ghost use Rattle.cut_class.specs.declared.class.Class.TheVariants.{Former, Finished, Whole, Tail, Mixed};
ghost use Rattle.boot_cuts.specs.Classing.{agrees_to_end, class_by, stands_in, start_class};
ghost use Rattle.boot_cuts.specs.Examples.{bare_page, block_at, falls, forty_and, long_image, one_with, page_image, page_of, page_start, two_mapped, two_with};

/// A start is `whole` where its image stands in the content before the script, or at its end, with
/// the same bytes. Otherwise it is `mixed`.
pub fn whole_cuts()
    ensures former { class_by falls falls Arm (page_of 0x20000001) bare_page []
        (page_of 0x20000001) (page_start 0x20000001) ≡ Whole }
    ensures end { class_by falls falls Arm bare_page (page_of 0x20000001) []
        (page_of 0x20000001) (page_start 0x20000001) ≡ Whole }
    ensures in_neither { class_by falls falls Arm bare_page bare_page []
        (page_of 0x20000001) (page_start 0x20000001) ≡ Mixed }
    ensures another { class_by falls falls Arm (page_of 0x20000001) (page_of 0x20000003) []
        (page_of 0x20000005) (page_start 0x20000005) ≡ Mixed }
{}

/// The end does not speak for a window that is left torn, though the content before the script
/// does. So what stands there at the end is itself not `finished`.
pub fn cuts_in_a_torn_window()
    ensures mended { class_by falls (page_start 0x20000001) Arm bare_page (page_of 0x20000001) []
        (page_of 0x20000001) (page_start 0x20000001) ≡ Finished }
    ensures end { class_by falls (page_start 0x20000001) Arm bare_page (page_of 0x20000001)
        (Program 0 [] ∷ []) (page_of 0x20000001) (page_start 0x20000001) ≡ Mixed }
    ensures beside { class_by falls (page_start 0x20000001) Arm bare_page (page_of 0x20000001)
        (Program 1 [] ∷ []) (page_of 0x20000001) (page_start 0x20000001) ≡ Finished }
    ensures stood_before { class_by falls (page_start 0x20000001) Arm (page_of 0x20000001)
        (page_of 0x20000001) (Program 0 [] ∷ []) (page_of 0x20000001) (page_start 0x20000001)
        ≡ Whole }
    ensures former { class_by (page_start 0x20000001) (page_start 0x20000001) Arm
        (page_of 0x20000001) (page_of 0x20000001) (Program 0 [] ∷ []) (page_of 0x20000001)
        (page_start 0x20000001) ≡ Former }
    ensures no_tail { start_class Arm (two_with 0 (0 ∷ [])) (two_with 0xab123579 (1 ∷ [])) true
        (two_with 0xab123579 (2 ∷ [])) (long_image 49) ≡ Mixed }
{}

/// An image stands in a window where the rules accept just this image there, for this processor.
pub fn images_that_stand()
    ensures this { stands_in Arm (page_of 0x20000001) (page_image 0x20000001) ≡ true }
    ensures another { stands_in Arm (page_of 0x20000003) (page_image 0x20000001) ≡ false }
    ensures none { stands_in Arm bare_page (page_image 0x20000001) ≡ false }
    ensures processor { stands_in Riscv (page_of 0x20000001) (page_image 0x20000001) ≡ false }
{}

/// A start is `tail` where only bytes behind the last block of an image without a load map differ
/// from the end. With another byte in that block it is `mixed`, and so it is with one block alone.
pub fn tail_cuts()
    ensures behind { start_class Arm (two_with 0 (0 ∷ [])) (two_with 0xab123579 (1 ∷ [])) false
        (two_with 0xab123579 (2 ∷ [])) (long_image 49) ≡ Tail }
    ensures last_byte { start_class Arm (two_with 0 (0 ∷ [])) (two_with 0xab123579 (1 ∷ [])) false
        (two_with 0xaa123579 (1 ∷ [])) (long_image 49) ≡ Mixed }
    ensures whole { start_class Arm (two_with 0 (0 ∷ [])) (two_with 0xab123579 (1 ∷ [])) false
        (two_with 0xab123579 (1 ∷ [])) (long_image 49) ≡ Whole }
    ensures one_block { start_class Arm (one_with 0) (one_with 1) false (one_with 2) (long_image 29)
        ≡ Mixed }
    ensures mapped { start_class Arm (two_with 0 (0 ∷ [])) (two_mapped (1 ∷ [])) false
        (two_mapped (2 ∷ [])) (long_image 53) ≡ Whole }
{}

/// The windows agree up to the end of the furthest block, and no byte further.
pub fn windows_that_agree_to_the_end()
    ensures within { agrees_to_end (forty_and 1) (forty_and 2) (Ok (block_at 21 ∷ block_at 0 ∷ []))
        ≡ false }
    ensures behind { agrees_to_end (forty_and 1) (forty_and 2) (Ok (block_at 20 ∷ block_at 0 ∷ []))
        ≡ true }
{}
