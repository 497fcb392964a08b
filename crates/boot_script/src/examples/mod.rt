//! Worked examples of scripts: the bytes of each event, both sides of each bound, and bytes with
//! two faults.

ghost use Rattle.std.specs.Prelude.{◌≡◌, ℕ, ◌+◌, Err, List, [], ◌∷◌, ◌++◌, None, Ok, Some, false, length, true};
ghost use Rattle.pico_board.specs.declared.BootKind.TheVariants.{Bootsel, Normal, Update};
ghost use Rattle.boot_script.specs.declared.event.ScriptFault.TheVariants.{Kind, Pattern, Short};
ghost use Rattle.boot_script.specs.declared.event.ScriptError.TheVariants.{Record, TooMany};
ghost use Rattle.boot_script.specs.declared.limits.TheConstants.{RECORD_LIMIT, SCRIPT_LIMIT};
ghost use Rattle.boot_script.specs.Events.{Buy, Command, Cut, End, IsWritableEvent, PowerOn, Reset, Uf2};
ghost use Rattle.boot_script.specs.Reading.{event_at};
ghost use Rattle.boot_script.specs.Scripts.{events, script_events};
ghost use Rattle.boot_script.specs.Judging.{first_error, script_error};

/// Events of one byte.
pub fn events_of_one_byte()
    ensures end { event_at (0 ∷ []) 0 ≡ Ok (End, 1) }
    ensures power_on { event_at (4 ∷ []) 0 ≡ Ok (PowerOn, 1) }
    ensures buy { event_at (6 ∷ []) 0 ≡ Ok (Buy, 1) }
    ensures seven { event_at (7 ∷ []) 0 ≡ Err (Kind 0) }
    ensures greatest { event_at (0xff ∷ []) 0 ≡ Err (Kind 0) }
    ensures none { event_at [] 0 ≡ Err (Short 0) }
    ensures behind_all { event_at (4 ∷ 6 ∷ []) 2 ≡ Err (Short 2) }
{}

/// A command has 32 bytes, and the length of its payload has four, the lowest first.
pub fn commands()
    ensures payload { (command : List ℕ) → length command ≡ 32
        → event_at (1 ∷ (command ++ (3 ∷ 0 ∷ 0 ∷ 0 ∷ 0xa ∷ 0xb ∷ 0xc ∷ 0xd ∷ []))) 0
        ≡ Ok (Command command (0xa ∷ 0xb ∷ 0xc ∷ []), 40) }
    ensures no_payload { (command : List ℕ) → length command ≡ 32
        → event_at (1 ∷ (command ++ (0 ∷ 0 ∷ 0 ∷ 0 ∷ []))) 0 ≡ Ok (Command command [], 37) }
    ensures one_byte_short { (command : List ℕ) → length command ≡ 32
        → event_at (1 ∷ (command ++ (3 ∷ 0 ∷ 0 ∷ 0 ∷ 0xa ∷ 0xb ∷ []))) 0 ≡ Err (Short 0) }
    ensures high_byte { (command : List ℕ) → length command ≡ 32
        → event_at (1 ∷ (command ++ (0 ∷ 0 ∷ 0 ∷ 1 ∷ 0xa ∷ []))) 0 ≡ Err (Short 0) }
    ensures no_length { (command : List ℕ) → length command ≡ 35
        → event_at (1 ∷ command) 0 ≡ Err (Short 0) }
{}

/// A UF2 block has 512 bytes.
pub fn uf2_blocks()
    ensures whole { (block : List ℕ) → length block ≡ 512
        → event_at (2 ∷ (block ++ (0 ∷ []))) 0 ≡ Ok (Uf2 block, 513) }
    ensures one_byte_short { (block : List ℕ) → length block ≡ 511
        → event_at (2 ∷ block) 0 ≡ Err (Short 0) }
{}

/// A cut before its step has no pattern, and one within it has 1 to 4096 bytes. The steps have
/// four bytes and the length of the pattern has two, the lowest first.
pub fn cuts()
    ensures before { event_at (3 ∷ 2 ∷ 1 ∷ 0 ∷ 0 ∷ 0 ∷ 0 ∷ 0 ∷ []) 0 ≡ Ok (Cut 258 false [], 8) }
    ensures within { event_at (3 ∷ 0 ∷ 0 ∷ 0 ∷ 1 ∷ 1 ∷ 2 ∷ 0 ∷ 0xa5 ∷ 0x5a ∷ 0xff ∷ []) 0
        ≡ Ok (Cut 16777216 true (0xa5 ∷ 0x5a ∷ []), 10) }
    ensures one_byte { event_at (3 ∷ 0 ∷ 0 ∷ 0 ∷ 0 ∷ 1 ∷ 1 ∷ 0 ∷ 0xa5 ∷ []) 0
        ≡ Ok (Cut 0 true (0xa5 ∷ []), 9) }
    ensures no_byte { event_at (3 ∷ 0 ∷ 0 ∷ 0 ∷ 0 ∷ 1 ∷ 0 ∷ 0 ∷ 0xa5 ∷ []) 0 ≡ Err (Pattern 0) }
    ensures before_with_one { event_at (3 ∷ 0 ∷ 0 ∷ 0 ∷ 0 ∷ 0 ∷ 1 ∷ 0 ∷ 0xa5 ∷ []) 0
        ≡ Err (Pattern 0) }
    ensures part_of_two { event_at (3 ∷ 0 ∷ 0 ∷ 0 ∷ 0 ∷ 2 ∷ 1 ∷ 0 ∷ 0xa5 ∷ []) 0
        ≡ Err (Pattern 0) }
    ensures part_of_two_alone { event_at (3 ∷ 0 ∷ 0 ∷ 0 ∷ 0 ∷ 2 ∷ 0 ∷ 0 ∷ []) 0 ≡ Err (Pattern 0) }
{}

/// A reset to a normal boot and one to BOOTSEL have no base.
pub fn resets()
    ensures normal { event_at (5 ∷ 0 ∷ 0 ∷ 0 ∷ 0 ∷ 0 ∷ []) 0 ≡ Ok (Reset Normal, 6) }
    ensures normal_base { event_at (5 ∷ 0 ∷ 0 ∷ 0 ∷ 0 ∷ 1 ∷ []) 0 ≡ Err (Kind 0) }
    ensures bootsel { event_at (5 ∷ 2 ∷ 0 ∷ 0 ∷ 0 ∷ 0 ∷ []) 0 ≡ Ok (Reset Bootsel, 6) }
    ensures bootsel_base { event_at (5 ∷ 2 ∷ 1 ∷ 0 ∷ 0 ∷ 0 ∷ []) 0 ≡ Err (Kind 0) }
    ensures update { event_at (5 ∷ 4 ∷ 0 ∷ 0 ∷ 2 ∷ 0x10 ∷ []) 0
        ≡ Ok (Reset (Update 0x10020000), 6) }
    ensures update_zero { event_at (5 ∷ 4 ∷ 0 ∷ 0 ∷ 0 ∷ 0 ∷ []) 0 ≡ Ok (Reset (Update 0), 6) }
    ensures one { event_at (5 ∷ 1 ∷ 0 ∷ 0 ∷ 0 ∷ 0 ∷ []) 0 ≡ Err (Kind 0) }
    ensures three { event_at (5 ∷ 3 ∷ 0 ∷ 0 ∷ 0 ∷ 0 ∷ []) 0 ≡ Err (Kind 0) }
    ensures five { event_at (5 ∷ 5 ∷ 0 ∷ 0 ∷ 0 ∷ 0 ∷ []) 0 ≡ Err (Kind 0) }
{}

/// Of two faults the first byte comes first. Then come fixed bytes that run past the end, then
/// their values, and last a pattern that runs past the end. A fault names where its event begins.
pub fn the_first_of_two_faults()
    ensures kind_and_short { event_at (4 ∷ 7 ∷ []) 1 ≡ Err (Kind 1) }
    ensures short_and_reset { event_at (4 ∷ 5 ∷ 1 ∷ 0 ∷ 0 ∷ 0 ∷ []) 1 ≡ Err (Short 1) }
    ensures short_and_cut { event_at (4 ∷ 3 ∷ 0 ∷ 0 ∷ 0 ∷ 0 ∷ 2 ∷ 0 ∷ []) 1 ≡ Err (Short 1) }
    ensures part_and_rest { event_at (3 ∷ 0 ∷ 0 ∷ 0 ∷ 0 ∷ 2 ∷ 5 ∷ 0 ∷ []) 0 ≡ Err (Pattern 0) }
    ensures before_and_rest { event_at (3 ∷ 0 ∷ 0 ∷ 0 ∷ 0 ∷ 0 ∷ 1 ∷ 0 ∷ []) 0 ≡ Err (Pattern 0) }
    ensures long_and_rest { event_at (3 ∷ 0 ∷ 0 ∷ 0 ∷ 0 ∷ 1 ∷ 1 ∷ 0x10 ∷ []) 0 ≡ Err (Pattern 0) }
    ensures longest { event_at (3 ∷ 0 ∷ 0 ∷ 0 ∷ 0 ∷ 1 ∷ 0 ∷ 0x10 ∷ []) 0 ≡ Err (Short 0) }
    ensures one_byte_short { event_at (3 ∷ 0 ∷ 0 ∷ 0 ∷ 0 ∷ 1 ∷ 2 ∷ 0 ∷ 0xa5 ∷ []) 0
        ≡ Err (Short 0) }
{}

/// Events of a script, up to its end. Later bytes are not read.
pub fn scripts()
    ensures two { events (4 ∷ 6 ∷ 0 ∷ 0xff ∷ []) ≡ Ok (PowerOn ∷ Buy ∷ []) }
    ensures end_alone { events (0 ∷ []) ≡ Ok [] }
    ensures no_end { events (4 ∷ 6 ∷ []) ≡ Err (Short 2) }
    ensures fault { events (4 ∷ 5 ∷ 0 ∷ 0 ∷ 0 ∷ 0 ∷ 0 ∷ 7 ∷ 0 ∷ []) ≡ Err (Kind 7) }
    ensures nothing { events [] ≡ Err (Short 0) }
{}

/// An event that is written to a script has a payload that is shorter than a script may be. The
/// pattern of its cut is one that a bench takes.
pub fn events_that_are_written()
    ensures longest { (command payload : List ℕ) → length payload ≡ 0x3ff_ffff
        → IsWritableEvent (Command command payload) }
    ensures longer { (command payload : List ℕ) → length payload ≡ 0x400_0000
        → ¬ (IsWritableEvent (Command command payload)) }
    ensures cut_within { IsWritableEvent (Cut 0 true (7 ∷ [])) }
    ensures no_pattern { ¬ (IsWritableEvent (Cut 0 true [])) }
{}

/// A script ends at its first end, and what follows is not read. The number of its records with
/// the end has a bound. A fault of a record comes before a missing end.
pub fn limits_of_scripts()
    ensures bytes { SCRIPT_LIMIT ≡ 67108864 }
    ensures records { RECORD_LIMIT ≡ 524288 }
    ensures ended { script_error (4 ∷ 0 ∷ []) ≡ None }
    ensures behind { script_error (0 ∷ 9 ∷ []) ≡ None }
    ensures short { script_error (4 ∷ []) ≡ Some (Record (Short 1)) }
    ensures most { first_error 2 (4 ∷ 0 ∷ []) 0 ≡ None }
    ensures too_many { first_error 2 (4 ∷ 4 ∷ 0 ∷ []) 0 ≡ Some TooMany }
    ensures last { first_error 2 (4 ∷ 9 ∷ []) 0 ≡ Some (Record (Kind 1)) }
    ensures past { first_error 2 (4 ∷ 4 ∷ 9 ∷ []) 0 ≡ Some TooMany }
    ensures events { script_events (4 ∷ 6 ∷ 0 ∷ 4 ∷ []) ≡ PowerOn ∷ Buy ∷ [] }
{}
