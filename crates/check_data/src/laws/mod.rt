//! Laws of the definitions, proved: each is the `ensures` of a function that does nothing.

ghost use Rattle.std.specs.Prelude.{◌≡◌, ◌↔◌, ℕ, true, Contains, List};
ghost use Rattle.std.specs.List.Sorted.{IsStrictlyIncreasing};
ghost use Rattle.pico_board.specs.declared.boot.Cpu.{Cpu};
ghost use Rattle.pico_board.specs.Content.{Content};
ghost use Rattle.boot_sweep.specs.Moving.{MoveView};
ghost use Rattle.check_data.specs.declared.found.DataWindow.{DataWindow as Told};
ghost use Rattle.check_data.specs.Early.{StartsEarly, starts_early};
ghost use Rattle.check_data.specs.Loose.{IsLoose, loose_bytes};
ghost use Rattle.check_data.specs.Others.{RunsOnOthers, is_other_data};
ghost use Rattle.check_data.specs.Windows.{AreDataWindows, data_windows};

/// The windows with data are those that the function finds.
pub fn windows_with_data_are_found()
    ensures { (c z : Content) (cpu : Cpu) (moves : List MoveView) (windows : List Told)
        → AreDataWindows c z cpu moves windows ↔ (windows ≡ data_windows c z cpu moves) }
{}

/// An image runs on other data exactly where the function says so, of each window with data.
pub fn other_data_are_found()
    ensures { (c z : Content) (cpu : Cpu) (moves : List MoveView) (window : Told)
        → Contains (data_windows c z cpu moves) window → (d : Content)
        → (is_other_data c z cpu window d ≡ true) ↔ RunsOnOthers c z moves cpu window.window d }
{}

/// The loose bytes are those that the function finds, in ascending order.
pub fn loose_bytes_are_found()
    ensures each { (z : Content) (cpu : Cpu) (moves : List MoveView) (x : ℕ)
        → Contains (loose_bytes z cpu moves) x ↔ IsLoose z cpu moves x }
    ensures ascending { (z : Content) (cpu : Cpu) (moves : List MoveView)
        → IsStrictlyIncreasing (loose_bytes z cpu moves) }
{}

/// An image starts before its loose bytes are there exactly where the function says so.
pub fn early_starts_are_found()
    ensures { (c z : Content) (cpu : Cpu) (moves : List MoveView) (d : Content)
        → (starts_early c z cpu (loose_bytes z cpu moves) d ≡ true)
        ↔ StartsEarly c z moves cpu d }
{}
