//! Worked examples of steps that program what none before them erases, and of what stands against a
//! script that is played again.

ghost use Rattle.std.specs.Prelude.{◌≡◌, List, None, Some, [], ◌∷◌, false, true, ℕ};
ghost use Rattle.pico_board.specs.declared.Step.TheVariants.{Erase, Program, Raise};
ghost use Rattle.pico_board.specs.declared.boot.Cpu.{Cpu};
ghost use Rattle.pico_board.specs.Content.{Content};
ghost use Rattle.check_records.specs.declared.found.Again.TheVariants.{NoStep, NoTable, NoTarget, Yes};
ghost use Rattle.check_records.specs.Again.{AreCutFacts, again_by};
ghost use Rattle.check_records.specs.Examples.{short_content};
ghost use Rattle.check_records.specs.Repeats.{DiffersOnlyIn};
ghost use Rattle.check_records.specs.Unerased.{IsUnerased, first_unerased};

/// Sector 1 has the pages 16 to 31. A program of one of them is behind its erase or is not; an
/// erase that comes later, and one of another sector, do not count.
pub fn steps_that_are_unerased()
    ensures none { first_unerased [] ≡ None }
    ensures first_page { first_unerased (Erase 1 ∷ Program 16 [] ∷ []) ≡ None }
    ensures last_page { first_unerased (Erase 1 ∷ Program 31 [] ∷ []) ≡ None }
    ensures page_before { first_unerased (Erase 1 ∷ Program 15 [] ∷ []) ≡ Some 1 }
    ensures page_behind { first_unerased (Erase 1 ∷ Program 32 [] ∷ []) ≡ Some 1 }
    ensures at_once { first_unerased (Program 16 [] ∷ Erase 1 ∷ []) ≡ Some 0 }
    ensures twice { first_unerased (Erase 1 ∷ Program 16 [] ∷ Program 16 [] ∷ []) ≡ None }
    ensures least { first_unerased (Erase 1 ∷ Program 0 [] ∷ Program 32 [] ∷ []) ≡ Some 1 }
    ensures raise { first_unerased (Raise 16 1 ∷ []) ≡ None }
    ensures stands { IsUnerased (Program 16 [] ∷ Erase 1 ∷ []) 0 }
{}

/// What stands against it is the first of a step, another table and another slot. A download and
/// another class stand against it only together.
pub fn the_first_reason_is_told()
    ensures step { again_by (Some 3) true true true ≡ NoStep 3 }
    ensures table { again_by None true true true ≡ NoTable }
    ensures target { again_by None false true true ≡ NoTarget }
    ensures former { again_by None false true false ≡ Yes }
    ensures no_download { again_by None false false true ≡ Yes }
    ensures nothing { again_by None false false false ≡ Yes }
{}

/// A script without an event has no cut, so none leaves another table or another class.
pub fn cuts_of_no_event()
    ensures { (c : Content) (cpu : Cpu) (pattern : List ℕ)
        → AreCutFacts c cpu [] pattern false false }
{}

/// Contents that differ in a sector that is erased and in a bit that is raised.
pub fn contents_that_differ_only_there()
    ensures { DiffersOnlyIn (Erase 0 ∷ Raise 1 4 ∷ []) (short_content 1 2 3 0)
        (short_content 7 2 3 4) }
{}
