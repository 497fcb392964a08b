//! Worked examples of plans and loads. Each is the `ensures` of a function that does nothing.

ghost use Rattle.std.specs.Prelude.{◌≡◌, [], ◌∷◌, ◌++◌, take, replicate};
ghost use Rattle.pico_board.specs.Examples.{window_at};
ghost use Rattle.picoboot_cmd.specs.Commands.{written_command};
ghost use Rattle.script_plan.specs.Plans.{IsPlanned, in_sectors};
ghost use Rattle.script_plan.specs.Commands.{exclusive_cmd, exit_cmd, update_cmd};
ghost use Rattle.script_plan.specs.Loads.{sector_count, sector_of};

/// An update is planned for a window of whole sectors, or of none, that ends at 16,777,216 or
/// below.
pub fn windows_of_plans()
    ensures greatest { IsPlanned (window_at 0 0x100_0000) }
    ensures above { ¬ (IsPlanned (window_at 0x1000 0x100_0000)) }
    ensures empty { IsPlanned (window_at 0x100_0000 0) }
    ensures part_of_a_sector { ¬ (IsPlanned (window_at 0x1000 0xfff)) }
    ensures between_sectors { ¬ (IsPlanned (window_at 0xfff 0x1000)) }
{}

/// The sectors of some bytes are as many as the bytes reach into.
pub fn bytes_in_sectors()
    ensures none { in_sectors 0 ≡ 0 }
    ensures one { in_sectors 1 ≡ 4096 }
    ensures whole { in_sectors 4096 ≡ 4096 }
    ensures more { in_sectors 4097 ≡ 8192 }
{}

/// The reboot of a plan has the flags 4, no delay, the window's address as p0, and a p1 of 0.
pub fn the_reboot_of_a_plan()
    ensures { (update_cmd 5 0x20000).args
        ≡ 4 ∷ 0 ∷ 0 ∷ 0 ∷ 0 ∷ 0 ∷ 0 ∷ 0 ∷ 0 ∷ 0 ∷ 2 ∷ 0x10 ∷ 0 ∷ 0 ∷ 0 ∷ 0 ∷ [] }
{}

/// A load has as many sectors as its image reaches into.
pub fn sectors_of_loads()
    ensures none { sector_count 0 ≡ 0 }
    ensures one { sector_count 1 ≡ 1 }
    ensures whole { sector_count 4096 ≡ 1 }
    ensures more { sector_count 4097 ≡ 2 }
{}

/// The last sector of an image has 0 after the image's end.
pub fn the_last_sector_of_a_load()
    ensures last { take 3 (sector_of (replicate 4096 7 ++ (8 ∷ 9 ∷ [])) 1) ≡ 8 ∷ 9 ∷ 0 ∷ [] }
{}

/// Exclusive access is asked for with the argument 1, and the exit from XIP has none.
pub fn commands_of_a_load()
    ensures exclusive { written_command (exclusive_cmd 1)
        ≡ 0x0b ∷ 0xd1 ∷ 0x1f ∷ 0x43 ∷ 1 ∷ 0 ∷ 0 ∷ 0 ∷ 1 ∷ 1 ∷ 0 ∷ 0 ∷ 0 ∷ 0 ∷ 0 ∷ 0
        ∷ 1 ∷ 0 ∷ 0 ∷ 0 ∷ 0 ∷ 0 ∷ 0 ∷ 0 ∷ 0 ∷ 0 ∷ 0 ∷ 0 ∷ 0 ∷ 0 ∷ 0 ∷ 0 ∷ [] }
    ensures exit { written_command (exit_cmd 2)
        ≡ 0x0b ∷ 0xd1 ∷ 0x1f ∷ 0x43 ∷ 2 ∷ 0 ∷ 0 ∷ 0 ∷ 6 ∷ 0 ∷ 0 ∷ 0 ∷ 0 ∷ 0 ∷ 0 ∷ 0
        ∷ 0 ∷ 0 ∷ 0 ∷ 0 ∷ 0 ∷ 0 ∷ 0 ∷ 0 ∷ 0 ∷ 0 ∷ 0 ∷ 0 ∷ 0 ∷ 0 ∷ 0 ∷ 0 ∷ [] }
{}
