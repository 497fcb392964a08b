//! A worked script that meets the premises of the laws, by computing: each example is the `ensures`
//! of a function that does nothing but cite others.

ghost use Rattle.std.specs.Prelude.{◌≡◌, ℕ, Bool, List, Some, false, slice_get, true};
ghost use Rattle.std.specs.List.{AllByRecursion};
ghost use Rattle.pico_board.specs.declared.Step.TheVariants.{Program};
ghost use Rattle.pico_board.specs.declared.boot.Cpu.TheVariants.{Arm};
ghost use Rattle.boot_script.specs.Events.{Cut};
ghost use Rattle.boot_session.specs.Sessions.{session};
ghost use Rattle.boot_sweep.specs.declared.results.CutResult.TheVariants.{Chance};
ghost use Rattle.boot_sweep.specs.Refusals.{KeepsToSlot, StartsIn};
ghost use Rattle.boot_sweep.specs.Sweeps.{sweep_lines};
ghost use Rattle.cut_class.specs.declared.class.Class.{Class};
ghost use Rattle.cut_class.specs.declared.class.Class.TheVariants.{Former, Finished, Whole, Tail, Mixed, Bootsel};
ghost use Rattle.boot_cuts.specs.Classes.{IsClass};
ghost use Rattle.boot_cuts.specs.Contents.{cut_contents};
ghost use Rattle.boot_tape.specs.Traces.{trace};
ghost use Rattle.check_laws.specs.Hosts.{HostWrites, IsHosts};
ghost use Rattle.check_laws.specs.SessionLaws.{Holds};
ghost use Rattle.law_cuts.specs.Sessions.{is_one_session};
ghost use Rattle.worked_flashes.specs.Choices.{small_former, small_slot};
ghost use Rattle.worked_flashes.specs.Flashes.{arm_slot, bare_slot, beside_small, data_page};
ghost use Rattle.worked_flashes.specs.Writes.{longer_steps};
ghost use Rattle.law_cuts.specs.Cases.{ArmsNoCut, IsGatedScript, IsOther, IsSweptScript, IsWholeOrNone};
ghost use Rattle.law_cuts.specs.Examples.{small_script};

use boot_session::examples::session::{a_cut_behind_the_image, a_cut_within_the_image};

/// The script is one session, of an erase and three programs, and a sweep refuses it for no reason.
/// Its line number 6, of the loss of power before the last program, says `chance`.
pub fn a_script_that_is_swept()
    ensures one { is_one_session (beside_small bare_slot) Arm small_script ≡ true }
    ensures session { session (beside_small bare_slot) Arm small_script ≡ longer_steps }
    ensures swept { IsSweptScript (beside_small bare_slot) Arm small_script }
    ensures line { (pattern : List ℕ) → slice_get (sweep_lines (beside_small bare_slot) Arm pattern
        (session (beside_small bare_slot) Arm small_script)) 6
        ≡ Some (record {
          number = 3;
          step = Program 66 data_page;
          within = false;
          result = Chance;
        }) }
{
    a_cut_behind_the_image();
    a_cut_within_the_image();
}

/// It is a host's, and the host writes. Its steps keep to the slot, in which nothing starts before
/// them, and leave the table.
pub fn a_script_of_a_host()
    ensures hosts { IsHosts (beside_small bare_slot) Arm small_script }
    ensures writes { HostWrites (beside_small bare_slot) Arm small_script }
    ensures starts { StartsIn (beside_small bare_slot) Arm small_former.image.window }
    ensures keeps { KeepsToSlot (beside_small bare_slot) Arm longer_steps small_slot }
    ensures holds { Holds (beside_small bare_slot) Arm longer_steps small_slot }
{
    a_cut_behind_the_image();
}

/// It arms no cut; a Cut event does.
pub fn a_script_without_a_cut()
    ensures script { AllByRecursion ArmsNoCut small_script }
    ensures cut { (left : ℕ) (within : Bool) (pattern : List ℕ)
        → ArmsNoCut (Cut left within pattern) → ⊥ }
{}

/// The three classes in which a script without one ends, and the others.
pub fn classes_of_ends()
    ensures former { IsWholeOrNone Former }
    ensures finished { IsWholeOrNone Finished }
    ensures bootsel { IsWholeOrNone Bootsel }
    ensures whole { IsWholeOrNone Whole → ⊥ }
    ensures tail { IsWholeOrNone Tail → ⊥ }
    ensures mixed { IsWholeOrNone Mixed → ⊥ }
{}

/// It is gated on the slot. Cut number 6 leaves an image that lacks its last page, and starts: it
/// is neither the former nor the finished one, and its class is another one.
pub fn a_gated_script_with_an_accidental_image()
    ensures gated { IsGatedScript (beside_small bare_slot) Arm small_script small_slot }
    ensures cut { (pattern : List ℕ) → slice_get (cut_contents pattern
        (trace (beside_small bare_slot) Arm small_script).done) 6
        ≡ Some (beside_small (arm_slot 0x0001000a)) }
    ensures other { (class : Class) × IsClass (beside_small bare_slot)
        (trace (beside_small bare_slot) Arm small_script).last
        (trace (beside_small bare_slot) Arm small_script).moves
        (beside_small (arm_slot 0x0001000a)) Arm class × IsOther class }
{
    a_script_that_is_swept();
    a_cut_behind_the_image();
    a_cut_within_the_image();
}
