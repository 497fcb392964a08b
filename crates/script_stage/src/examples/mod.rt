//! Worked examples of stages. Each is the `ensures` of a function that does nothing.

ghost use Rattle.std.specs.Prelude.{◌≡◌, [], ◌∷◌, ◌++◌, false, length, replicate, slice_index, true};
ghost use Rattle.pico_board.specs.declared.boot.BootKind.TheVariants.{Normal};
ghost use Rattle.boot_script.specs.Events.{Buy, Reset};
ghost use Rattle.script_plan.specs.Commands.{erase_cmd, sent, update_cmd, write_cmd};
ghost use Rattle.script_stage.specs.Stages.{buy_events, erase_call, last_calls, part_calls, rest_calls, with_tokens};
ghost use Rattle.script_stage.specs.Written.{filled_to, in_pages, written_window};

/// Tokens count on from the first one.
pub fn tokens_of_commands()
    ensures { with_tokens 3 (erase_call 0x2000 4096 ∷ last_calls 0x2000 0x2100 (7 ∷ []))
        ≡ sent (erase_cmd 3 0x2000 4096) [] ∷ sent (write_cmd 4 0x2100 1) (7 ∷ [])
        ∷ sent (update_cmd 5 0x2000) [] ∷ [] }
{}

/// A part without bytes has no command. What follows the first sector is erased first, in whole
/// sectors.
pub fn parts_of_stages()
    ensures no_part { part_calls 0x2000 [] ≡ [] }
    ensures part { with_tokens 2 (part_calls 0x2000 (7 ∷ []))
        ≡ sent (write_cmd 2 0x2000 1) (7 ∷ []) ∷ [] }
    ensures no_rest { rest_calls 0x3000 [] ≡ [] }
    ensures rest { with_tokens 2 (rest_calls 0x3000 (7 ∷ []))
        ≡ sent (erase_cmd 2 0x3000 4096) [] ∷ sent (write_cmd 3 0x3000 1) (7 ∷ []) ∷ [] }
{}

/// An image that is to be bought is bought where its update boot started it, and then the board is
/// reset.
pub fn buys_of_stages()
    ensures bought { buy_events true ≡ Buy ∷ Reset Normal ∷ [] }
    ensures kept { buy_events false ≡ [] }
{}

/// The pages of some bytes, both sides of a bound.
pub fn bytes_in_pages()
    ensures none { in_pages 0 ≡ 0 }
    ensures one { in_pages 1 ≡ 256 }
    ensures whole { in_pages 256 ≡ 256 }
    ensures more { in_pages 257 ≡ 512 }
    ensures filled { filled_to 9 3 (7 ∷ []) ≡ 7 ∷ 9 ∷ 9 ∷ [] }
    ensures longer { filled_to 9 1 (7 ∷ 8 ∷ []) ≡ 7 ∷ 8 ∷ [] }
{}

/// Behind an image of 3 bytes stand 0 to the end of its page, 0xff to the end of its sector, and
/// what was there.
pub fn a_written_window()
    ensures image { slice_index (written_window (1 ∷ 2 ∷ 3 ∷ []) (replicate 8192 7)) 2 ≡ 3 }
    ensures page { slice_index (written_window (1 ∷ 2 ∷ 3 ∷ []) (replicate 8192 7)) 3 ≡ 0 }
    ensures page_end { slice_index (written_window (1 ∷ 2 ∷ 3 ∷ []) (replicate 8192 7)) 255 ≡ 0 }
    ensures sector { slice_index (written_window (1 ∷ 2 ∷ 3 ∷ []) (replicate 8192 7)) 256 ≡ 255 }
    ensures sector_end { slice_index (written_window (1 ∷ 2 ∷ 3 ∷ []) (replicate 8192 7)) 4095
        ≡ 255 }
    ensures behind { slice_index (written_window (1 ∷ 2 ∷ 3 ∷ []) (replicate 8192 7)) 4096 ≡ 7 }
{}
