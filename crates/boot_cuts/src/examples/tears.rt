//! Worked windows that a script leaves torn, by computing.

ghost use Rattle.std.specs.Prelude.{◌≡◌, ◌∷◌, [], ℕ, List, None, Some, false, true};
ghost use Rattle.pico_board.specs.declared.Step.TheVariants.{Erase, Program, Raise};
ghost use Rattle.pico_board.specs.Cuts.{cut_with};
ghost use Rattle.slot_choice.specs.Examples.{window_at};
ghost use Rattle.boot_tape.specs.CutMoves.{cut_moves};
ghost use Rattle.boot_tape.specs.Moving.{Done, Torn};
ghost use Rattle.boot_cuts.specs.Tears.{is_left_torn, left_torn};

/// A cut of the script leaves its step torn, before it as within it. An erase of its sector that
/// completes later makes that good. One that completed earlier does not.
pub fn steps_left_torn()
    ensures none { left_torn (Done (Erase 1) ∷ Done (Program 16 []) ∷ []) ≡ [] }
    ensures within { left_torn (Torn (Erase 1) true (7 ∷ []) ∷ []) ≡ Erase 1 ∷ [] }
    ensures before { left_torn (Torn (Program 16 []) false [] ∷ []) ≡ Program 16 [] ∷ [] }
    ensures erased { left_torn (Torn (Erase 1) true (7 ∷ []) ∷ Done (Erase 1) ∷ []) ≡ [] }
    ensures erased_later { left_torn (Torn (Erase 1) true (7 ∷ []) ∷ Done (Erase 2)
        ∷ Done (Erase 1) ∷ []) ≡ [] }
    ensures erased_earlier { left_torn (Done (Erase 1) ∷ Torn (Program 16 []) true (7 ∷ []) ∷ [])
        ≡ Program 16 [] ∷ [] }
{}

/// Only an erase of that very sector makes a step good, and only one that completes. Pages 16 to
/// 31 lie in sector 1. A program of the page again makes nothing good, nor does a raise of the row.
pub fn steps_that_make_good()
    ensures first_page { left_torn (Torn (Program 16 []) true (7 ∷ []) ∷ Done (Erase 1) ∷ []) ≡ [] }
    ensures last_page { left_torn (Torn (Program 31 []) true (7 ∷ []) ∷ Done (Erase 1) ∷ []) ≡ [] }
    ensures page_before { left_torn (Torn (Program 15 []) true (7 ∷ []) ∷ Done (Erase 1) ∷ [])
        ≡ Program 15 [] ∷ [] }
    ensures page_behind { left_torn (Torn (Program 32 []) true (7 ∷ []) ∷ Done (Erase 1) ∷ [])
        ≡ Program 32 [] ∷ [] }
    ensures other_sector { left_torn (Torn (Erase 1) true (7 ∷ []) ∷ Done (Erase 0)
        ∷ Done (Erase 2) ∷ []) ≡ Erase 1 ∷ [] }
    ensures program { left_torn (Torn (Program 16 []) true (7 ∷ []) ∷ Done (Program 16 []) ∷ [])
        ≡ Program 16 [] ∷ [] }
    ensures raise { left_torn (Torn (Raise 1 2) true (7 ∷ []) ∷ Done (Raise 1 2) ∷ [])
        ≡ Raise 1 2 ∷ [] }
    ensures torn_again { left_torn (Torn (Erase 1) true (7 ∷ []) ∷ Torn (Erase 1) false [] ∷ [])
        ≡ Erase 1 ∷ Erase 1 ∷ [] }
    ensures of_two { left_torn (Torn (Erase 1) true (7 ∷ []) ∷ Torn (Erase 2) true (7 ∷ [])
        ∷ Done (Erase 1) ∷ []) ≡ Erase 2 ∷ [] }
{}

/// A window is left torn by an erase or a program that lies in it. One beside it, or one that
/// reaches past its end, is none of it, and a raise lies in no window.
pub fn windows_left_torn()
    ensures none { is_left_torn [] (window_at 0x1000 0x1000) ≡ false }
    ensures erase { is_left_torn (Erase 1 ∷ []) (window_at 0x1000 0x1000) ≡ true }
    ensures before { is_left_torn (Erase 0 ∷ []) (window_at 0x1000 0x1000) ≡ false }
    ensures behind { is_left_torn (Erase 2 ∷ []) (window_at 0x1000 0x1000) ≡ false }
    ensures past { is_left_torn (Erase 1 ∷ []) (window_at 0x1000 0xfff) ≡ false }
    ensures first_page { is_left_torn (Program 16 [] ∷ []) (window_at 0x1000 0x1000) ≡ true }
    ensures last_page { is_left_torn (Program 31 [] ∷ []) (window_at 0x1000 0x1000) ≡ true }
    ensures page_before { is_left_torn (Program 15 [] ∷ []) (window_at 0x1000 0x1000) ≡ false }
    ensures page_behind { is_left_torn (Program 32 [] ∷ []) (window_at 0x1000 0x1000) ≡ false }
    ensures raise { is_left_torn (Raise 16 1 ∷ []) (window_at 0 0x2000) ≡ false }
    ensures second { is_left_torn (Erase 0 ∷ Erase 1 ∷ []) (window_at 0x1000 0x1000) ≡ true }
{}

/// A cut that the script arms cuts one step of an event. Those before it complete, and those behind
/// it are not done. Where the event has no such step, the cut comes nearer.
pub fn steps_that_a_cut_of_the_script_cuts()
    ensures first { cut_moves (Some (cut_with 0 true (7 ∷ []))) (Erase 1 ∷ Erase 2 ∷ [])
        ≡ record { moves = Torn (Erase 1) true (7 ∷ []) ∷ []; whole = false; armed = None } }
    ensures second { cut_moves (Some (cut_with 1 false [])) (Erase 1 ∷ Erase 2 ∷ [])
        ≡ record {
          moves = Done (Erase 1) ∷ Torn (Erase 2) false [] ∷ [];
          whole = false;
          armed = None;
        } }
    ensures behind { cut_moves (Some (cut_with 2 false [])) (Erase 1 ∷ Erase 2 ∷ [])
        ≡ record {
          moves = Done (Erase 1) ∷ Done (Erase 2) ∷ [];
          whole = true;
          armed = Some (cut_with 0 false []);
        } }
    ensures none { cut_moves None (Erase 1 ∷ [])
        ≡ record { moves = Done (Erase 1) ∷ []; whole = true; armed = None } }
{}
