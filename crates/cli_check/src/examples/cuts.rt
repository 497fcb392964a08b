//! Worked examples of the lines and of their status: each is the `ensures` of a function that does
//! nothing.

ghost use Rattle.std.specs.Prelude.{◌≡◌, ◌∷◌, ◌++◌, [], codes, None, Some};
ghost use Rattle.pico_board.specs.declared.Step.TheVariants.{Erase, Program, Raise};
ghost use Rattle.cut_class.specs.declared.class.Class.TheVariants.{Former, Finished, Whole, Tail, Mixed, Bootsel};
ghost use Rattle.cli_course.specs.declared.status.Status.TheVariants.{Done, Unbootable, Mixed as MixedStatus};
ghost use Rattle.cli_course.specs.Outcomes.{verdict_status};
ghost use Rattle.cli_check.specs.CutsTexts.{class_text, cut_text, cuts_text, end_text, run_text, step_at_text, step_text};
ghost use Rattle.cli_check.specs.CutsWorks.{verdict_of};
ghost use Rattle.cli_check.specs.CutsExamples.{falls, falls_otherwise, run_to, starts, three_steps, told};

/// A step is told with its flash offset in eight digits, or with its row in at least three.
pub fn texts_of_steps()
    ensures erase { step_text (Erase 2) ≡ codes "erase 0x00002000" }
    ensures first_erase { step_text (Erase 0) ≡ codes "erase 0x00000000" }
    ensures program { step_text (Program 33 []) ≡ codes "program 0x00002100" }
    ensures last_program { step_text (Program 0xffff []) ≡ codes "program 0x00ffff00" }
    ensures low_row { step_text (Raise 0x048 1) ≡ codes "raise 0x048" }
    ensures row { step_text (Raise 0x0c1 7) ≡ codes "raise 0x0c1" }
    ensures last_row { step_text (Raise 0xfff 1) ≡ codes "raise 0xfff" }
    ensures longer_row { step_text (Raise 0x1000 1) ≡ codes "raise 0x1000" }
    ensures no_step { step_at_text None ≡ [] }
    ensures some_step { step_at_text (Some (Erase 1)) ≡ codes "erase 0x00001000" }
{}

/// Cut 2k falls before step k, and cut 2k + 1 within it.
pub fn texts_of_cuts()
    ensures first { cut_text three_steps (3 ∷ 3 ∷ 10 ∷ []) 0
        ≡ codes "0 event=3 erase 0x00002000 before" }
    ensures second { cut_text three_steps (3 ∷ 3 ∷ 10 ∷ []) 1
        ≡ codes "0 event=3 erase 0x00002000 within" }
    ensures third { cut_text three_steps (3 ∷ 3 ∷ 10 ∷ []) 2
        ≡ codes "1 event=3 program 0x00002100 before" }
    ensures last { cut_text three_steps (3 ∷ 3 ∷ 10 ∷ []) 5
        ≡ codes "2 event=10 raise 0x0c1 within" }
{}

/// A line has the first and the last cut of its run, the class and the decision; the end line has
/// the number of steps.
pub fn texts_of_lines()
    ensures former { run_text three_steps (3 ∷ 3 ∷ 10 ∷ []) (run_to 0 0 (told Former falls))
        ≡ codes "0 event=3 erase 0x00002000 before to 0 event=3 erase 0x00002000 before "
        ++ codes "former bootsel no-image\n" }
    ensures bootsel { run_text three_steps (3 ∷ 3 ∷ 10 ∷ [])
        (run_to 1 4 (told Bootsel falls_otherwise))
        ≡ codes "0 event=3 erase 0x00002000 within to 2 event=10 raise 0x0c1 before "
        ++ codes "bootsel bootsel flash-off\n" }
    ensures finished { run_text three_steps (3 ∷ 3 ∷ 10 ∷ []) (run_to 5 5 (told Finished starts))
        ≡ codes "2 event=10 raise 0x0c1 within to 2 event=10 raise 0x0c1 within finished "
        ++ (codes "start window=0x00002000+0x00002000 block=0x00000100 pc=0x10000201 "
        ++ codes "sp=0x20082000 limit=0x00000000 version=1.2 rollback=none trial=no\n") }
    ensures end { end_text 3 Bootsel falls ≡ codes "end 3 bootsel bootsel no-image\n" }
    ensures no_steps { cuts_text [] [] [] Former falls
        ≡ codes "end 0 former bootsel no-image\n" }
    ensures whole { cuts_text (Erase 1 ∷ []) (2 ∷ []) (run_to 0 0 (told Former falls)
        ∷ run_to 1 1 (told Bootsel falls_otherwise) ∷ []) Finished falls
        ≡ codes "0 event=2 erase 0x00001000 before to 0 event=2 erase 0x00001000 before "
        ++ (codes "former bootsel no-image\n0 event=2 erase 0x00001000 within to "
        ++ (codes "0 event=2 erase 0x00001000 within bootsel bootsel flash-off\n"
        ++ codes "end 1 finished bootsel no-image\n")) }
{}

/// The words of the classes.
pub fn words_of_classes()
    ensures former { class_text Former ≡ codes "former" }
    ensures finished { class_text Finished ≡ codes "finished" }
    ensures whole { class_text Whole ≡ codes "whole" }
    ensures tail { class_text Tail ≡ codes "tail" }
    ensures mixed { class_text Mixed ≡ codes "mixed" }
    ensures bootsel { class_text Bootsel ≡ codes "bootsel" }
{}

/// The status is 9 where a line says `mixed`. Otherwise it is 8 where one says `bootsel`, and 0
/// where none does. The end line, which stands first here, counts alone too.
pub fn statuses_of_lines()
    ensures none { verdict_status (verdict_of (told Former falls ∷ told Finished starts
        ∷ told Former starts ∷ [])) ≡ Done }
    ensures whole { verdict_status (verdict_of (told Finished starts ∷ told Whole starts ∷ []))
        ≡ Done }
    ensures tail { verdict_status (verdict_of (told Finished starts ∷ told Tail starts ∷ []))
        ≡ Done }
    ensures fall { verdict_status (verdict_of (told Former falls ∷ told Bootsel falls ∷ []))
        ≡ Unbootable }
    ensures start { verdict_status (verdict_of (told Former falls ∷ told Mixed starts ∷ []))
        ≡ MixedStatus }
    ensures both { verdict_status (verdict_of (told Former falls ∷ told Bootsel falls
        ∷ told Mixed starts ∷ [])) ≡ MixedStatus }
    ensures turned { verdict_status (verdict_of (told Former falls ∷ told Mixed starts
        ∷ told Bootsel falls ∷ [])) ≡ MixedStatus }
    ensures end_falls { verdict_status (verdict_of (told Bootsel falls ∷ told Former starts ∷ []))
        ≡ Unbootable }
    ensures end_starts { verdict_status (verdict_of (told Mixed starts ∷ told Former falls
        ∷ [])) ≡ MixedStatus }
    ensures end_alone { verdict_status (verdict_of (told Former starts ∷ [])) ≡ Done }
{}
