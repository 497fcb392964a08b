//! Worked examples: windows that a step touches, who has written a window, what becomes of a
//! version, which images are lost, and which tables differ, each on both sides of its bound.

ghost use Rattle.std.specs.Prelude.{◌≡◌, ◌∷◌, [], None, Some, true, false};
ghost use Rattle.pico_board.specs.declared.Step.TheVariants.{Erase, Program, Raise};
ghost use Rattle.slot_choice.specs.Examples.{window_at};
ghost use Rattle.pico_board.specs.declared.boot.Cpu.TheVariants.{Arm};
ghost use Rattle.worked_flashes.specs.Choices.{small_former, starts_b};
ghost use Rattle.worked_flashes.specs.Flashes.{bare_slot, beside_small};
ghost use Rattle.worked_flashes.specs.Images.{in_b, version_at};
ghost use Rattle.boot_rules.specs.declared.decision.Decision.TheVariants.{Bootsel, Start};
ghost use Rattle.boot_rules.specs.declared.decision.Fall.TheVariants.{NoImage};
ghost use Rattle.cut_class.specs.declared.class.Class.TheVariants.{Former, Finished, Mixed};
ghost use Rattle.boot_sweep.specs.Moving.{Done, Torn};
ghost use Rattle.check_require.specs.declared.report.ImageEffect.TheVariants.{Down, New, Same, Unchanged, Up};
ghost use Rattle.boot_tape.specs.declared.notes.Doer.TheVariants as doers;
ghost use Rattle.check_require.specs.declared.report.Writer.TheVariants.{Boot, Buy, Script};
ghost use Rattle.check_images.specs.Boots.{IsBooted, after_boot};
ghost use Rattle.check_images.specs.Comparing.{is_same_found};
ghost use Rattle.check_images.specs.Effects.{effect_of, version_effect};
ghost use Rattle.check_images.specs.Losing.{is_of_start, member_at};
ghost use Rattle.check_images.specs.Members.{unit_windows};
ghost use Rattle.check_images.specs.Raising.{raise_count};
ghost use Rattle.check_images.specs.Examples.{found_at};
ghost use Rattle.check_images.specs.Touching.{touches};
ghost use Rattle.check_images.specs.Written.{writer_of};

use boot_session::examples::session::a_cut_behind_the_image;

/// A window of one sector at 0x1000. An erase or a program touches it by its first byte and by its
/// last one. A neighbour does not, and a raise touches nothing.
pub fn windows_that_are_touched()
    ensures sector { touches (window_at 0x1000 0x1000) (Erase 1) ≡ true }
    ensures before { touches (window_at 0x1000 0x1000) (Erase 0) ≡ false }
    ensures behind { touches (window_at 0x1000 0x1000) (Erase 2) ≡ false }
    ensures last_sector { touches (window_at 0x1000 0x2000) (Erase 2) ≡ true }
    ensures first_page { touches (window_at 0x1000 0x1000) (Program 16 []) ≡ true }
    ensures last_page { touches (window_at 0x1000 0x1000) (Program 31 []) ≡ true }
    ensures page_before { touches (window_at 0x1000 0x1000) (Program 15 []) ≡ false }
    ensures page_behind { touches (window_at 0x1000 0x1000) (Program 32 []) ≡ false }
    ensures first_byte { touches (window_at 0x10ff 0x1000) (Program 16 []) ≡ true }
    ensures next_byte { touches (window_at 0x1100 0x1000) (Program 16 []) ≡ false }
    ensures last_byte { touches (window_at 0x1000 0x101) (Program 17 []) ≡ true }
    ensures byte_before { touches (window_at 0x1000 0x100) (Program 17 []) ≡ false }
    ensures raise { touches (window_at 0x1000 0x1000) (Raise 1 1) ≡ false }
    ensures empty { touches (window_at 0x1800 0) (Erase 1) ≡ false }
{}

/// The script comes before a boot, and a boot before a buy, whatever the order of their steps. A
/// step that is torn counts as one that completes, and one beside the window does not count.
pub fn writers_of_windows()
    ensures script { writer_of (Done (Erase 1) ∷ Done (Erase 1) ∷ []) (doers.Boot ∷ doers.Host ∷ [])
        (window_at 0x1000 0x1000) ≡ Some Script }
    ensures boot { writer_of (Done (Erase 1) ∷ Done (Erase 1) ∷ []) (doers.Buy ∷ doers.Boot ∷ [])
        (window_at 0x1000 0x1000) ≡ Some Boot }
    ensures buy { writer_of (Done (Erase 2) ∷ Done (Erase 1) ∷ []) (doers.Boot ∷ doers.Buy ∷ [])
        (window_at 0x1000 0x1000) ≡ Some Buy }
    ensures torn { writer_of (Torn (Erase 1) true (0 ∷ []) ∷ []) (doers.Host ∷ [])
        (window_at 0x1000 0x1000) ≡ Some Script }
    ensures before { writer_of (Torn (Erase 1) false [] ∷ []) (doers.Host ∷ [])
        (window_at 0x1000 0x1000) ≡ None }
    ensures beside { writer_of (Done (Erase 2) ∷ []) (doers.Host ∷ []) (window_at 0x1000 0x1000)
        ≡ None }
    ensures raise { writer_of (Done (Raise 1 1) ∷ []) (doers.Boot ∷ []) (window_at 0x1000 0x1000)
        ≡ None }
    ensures nothing { writer_of [] [] (window_at 0x1000 0x1000) ≡ None }
{}

/// A greater version is up, an equal one the same, and a lower one down. The major number comes
/// first.
pub fn versions_that_turn()
    ensures up { version_effect (version_at 1 0) (version_at 1 1) ≡ Up }
    ensures same { version_effect (version_at 1 1) (version_at 1 1) ≡ Same }
    ensures down { version_effect (version_at 1 1) (version_at 1 0) ≡ Down }
    ensures major { version_effect (version_at 1 9) (version_at 2 0) ≡ Up }
    ensures minor { version_effect (version_at 2 0) (version_at 1 9) ≡ Down }
{}

/// There is no effect where the boot falls, or the end is as before, also where the boot fell
/// before. Otherwise a boot that fell before starts a new image.
pub fn effects_of_updates()
    ensures falls { effect_of (Start (starts_b false (in_b 1 0 false))) (Bootsel NoImage) Mixed
        ≡ Unchanged }
    ensures fell { effect_of (Bootsel NoImage) (Bootsel NoImage) Former ≡ Unchanged }
    ensures former { effect_of (Start (starts_b false (in_b 1 0 false)))
        (Start (starts_b false (in_b 1 0 false))) Former ≡ Unchanged }
    ensures new { effect_of (Bootsel NoImage) (Start (starts_b false (in_b 1 0 false))) Finished
        ≡ New }
    ensures up { effect_of (Start (starts_b false (in_b 1 0 false)))
        (Start (starts_b false (in_b 1 1 false))) Finished ≡ Up }
    ensures same { effect_of (Start (starts_b false (in_b 1 0 false)))
        (Start (starts_b false (in_b 1 0 false))) Finished ≡ Same }
    ensures down { effect_of (Start (starts_b false (in_b 1 1 false)))
        (Start (starts_b false (in_b 1 0 false))) Finished ≡ Down }
{}

/// The members of a unit, A first.
pub fn members_of_units()
    ensures pair { unit_windows (record {
      a = window_at 0x2000 0x1000;
      b = Some (window_at 0x1000 0x1000);
      a_part = None;
      b_part = None;
    }) ≡ window_at 0x2000 0x1000 ∷ window_at 0x1000 0x1000 ∷ [] }
    ensures alone { unit_windows (record {
      a = window_at 0x2000 0x1000;
      b = None;
      a_part = None;
      b_part = None;
    }) ≡ window_at 0x2000 0x1000 ∷ [] }
{}

/// The member that begins at an offset, whatever its length; none a byte before it or behind it.
/// Both members of the unit that starts are of it.
pub fn members_of_images()
    ensures first { member_at (window_at 0x1000 0x1000 ∷ window_at 0x2000 0x3000 ∷ []) 0x2000
        ≡ Some (window_at 0x2000 0x3000) }
    ensures before { member_at (window_at 0x1000 0x1000 ∷ []) 0xfff ≡ None }
    ensures behind { member_at (window_at 0x1000 0x1000 ∷ []) 0x1001 ≡ None }
    ensures starts { is_of_start (Start (starts_b false (in_b 1 0 false)))
        (window_at 0x20000 0x1e000) ≡ true }
    ensures other { is_of_start (Start (starts_b false (in_b 1 0 false)))
        (window_at 0x2000 0x1e000) ≡ true }
    ensures beside { is_of_start (Start (starts_b false (in_b 1 0 false)))
        (window_at 0x2000 0x1000) ≡ false }
    ensures falls { is_of_start (Bootsel NoImage) (window_at 0x2000 0x1e000) ≡ false }
{}

/// A normal boot on a flash with an image in the first slot of a pair, and nothing in the second.
pub fn a_boot()
    ensures { IsBooted (beside_small bare_slot) Arm (after_boot (beside_small bare_slot) Arm)
        (Start small_former) }
{
    a_cut_behind_the_image();
}

/// The same table in the same slot is the same, and so is none beside none. Another slot, another
/// word of the table, or none beside one is not.
pub fn tables_that_differ()
    ensures same { is_same_found (Some (found_at 0 7)) (Some (found_at 0 7)) ≡ true }
    ensures none { is_same_found None None ≡ true }
    ensures slot { is_same_found (Some (found_at 0 7)) (Some (found_at 1 7)) ≡ false }
    ensures word { is_same_found (Some (found_at 0 7)) (Some (found_at 0 6)) ≡ false }
    ensures gone { is_same_found (Some (found_at 0 7)) None ≡ false }
    ensures come { is_same_found None (Some (found_at 0 7)) ≡ false }
{}

/// Of steps the raises alone are counted, each as often as it is done.
pub fn raises_that_are_counted()
    ensures none { raise_count [] ≡ 0 }
    ensures others { raise_count (Erase 1 ∷ Program 16 [] ∷ []) ≡ 0 }
    ensures raises { raise_count (Erase 1 ∷ Raise 0x0c0 3 ∷ Raise 0x0c1 3 ∷ Raise 0x0c0 4 ∷ [])
        ≡ 3 }
{}
