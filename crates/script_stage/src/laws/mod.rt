//! Laws of stages, each the contract of a function that does nothing.

ghost use Rattle.std.specs.Prelude.{◌≡◌, ℕ, ◌+◌, ◌*◌, ◌≤◌, Bool, List, [], ◌∷◌, ◌++◌, length, slice_range, Ok};
ghost use Rattle.pico_board.specs.declared.window.Window.{Window};
ghost use Rattle.pico_board.specs.declared.boot.BootKind.TheVariants.{Bootsel};
ghost use Rattle.boot_script.specs.Events.{PowerOn, Reset};
ghost use Rattle.boot_script.specs.Scripts.{events};
ghost use Rattle.script_plan.specs.Plans.{IsPlanned};
ghost use Rattle.script_plan.specs.Commands.{erase_cmd, sent};
ghost use Rattle.script_stage.specs.Stages.{buy_events, last_calls, part_calls, rest_calls, stage_text, with_tokens};

/// The events of a stage: the power comes on, the board is reset to BOOTSEL, and the window's first
/// sector is erased. What the image has behind its first 4096 bytes is erased and written. Then the
/// other pages of the first sector are written, those before the last one and those behind it. Then
/// comes the last page, and the reboot into an update of the window. A part without bytes has no
/// command, and tokens count from 1. At last the image may be bought.
pub fn the_events_of_a_stage()
    ensures { (w : Window) (image : List ℕ) (page : ℕ) (is_bought : Bool) → IsPlanned w
        → length image ≤ w.len
        → events (stage_text w.start page is_bought image)
        ≡ Ok (PowerOn ∷ Reset Bootsel ∷ sent (erase_cmd 1 w.start 4096) []
        ∷ (with_tokens 2 (rest_calls (w.start + 4096) (slice_range image 4096 (length image))
        ++ (part_calls w.start (slice_range image 0 (256 * page))
        ++ (part_calls (w.start + 256 * (page + 1)) (slice_range image (256 * (page + 1)) 4096)
        ++ last_calls w.start (w.start + 256 * page)
        (slice_range image (256 * page) (256 * (page + 1))))))
        ++ buy_events is_bought)) }
{}
