//! Laws of scripts: which bytes an event has, which fault comes, and the events of bytes one
//! after another.

ghost use Rattle.std.specs.Prelude.{◌≡◌, ◌↔◌, ℕ, ◌+◌, ◌<◌, ◌≤◌, All, Err, List, [], ◌∷◌, ◌++◌, None, Ok, Some, drop, false, flat_map, length, take, true};
ghost use Rattle.std.specs.List.{AllByRecursion};
ghost use Rattle.boot_script.specs.declared.event.ScriptFault.{ScriptFault};
ghost use Rattle.boot_script.specs.declared.event.ScriptError.{ScriptError};
ghost use Rattle.boot_script.specs.declared.limits.TheConstants.{RECORD_LIMIT, SCRIPT_LIMIT};
ghost use Rattle.boot_script.specs.Events.{End, EventView, IsWellFormed};
ghost use Rattle.boot_script.specs.Written.{written_event};
ghost use Rattle.boot_script.specs.Reading.{event_at};
ghost use Rattle.boot_script.specs.Faults.{IsEventFault};
ghost use Rattle.boot_script.specs.Scripts.{IsBeforeEnd, events_behind, events, events_from, is_end, later, script_events};
ghost use Rattle.boot_script.specs.Judging.{IsScript, IsScriptError, script_error};

/// The bytes of an event are read again, whatever stands before and after them.
pub fn written_events_are_read()
    ensures { (front rest : List ℕ) (e : EventView) → IsWellFormed e
        → event_at (front ++ (written_event e ++ rest)) (length front)
        ≡ Ok (e, length front + length (written_event e)) }
{}

/// What is read as an event is the bytes of that event. These bytes lie inside, and the next
/// offset is the one after them.
pub fn events_that_are_read_are_written()
    ensures { (bytes : List ℕ) (at : ℕ) (e : EventView) (next : ℕ) → All (λ b. b < 256) bytes
        → at ≤ length bytes → event_at bytes at ≡ Ok (e, next)
        → IsWellFormed e × (next ≡ at + length (written_event e)) × (next ≤ length bytes)
        × (bytes ≡ take at bytes ++ (written_event e ++ drop next bytes)) }
{}

/// A fault comes exactly where its rule says so, and names the offset of the event.
pub fn faults_come_by_their_rules()
    ensures { (bytes : List ℕ) (at : ℕ) (fault : ScriptFault)
        → (event_at bytes at ≡ Err fault) ↔ IsEventFault at (drop at bytes) fault }
{}

/// The events from an offset on are the event there and those from the byte after it. At an end
/// there are none. A fault there is the fault of all.
pub fn one_event_and_the_others()
    ensures more { (bytes : List ℕ) (at : ℕ) (e : EventView) (next : ℕ)
        → event_at bytes at ≡ Ok (e, next) → is_end e ≡ false
        → events_from bytes at ≡ events_behind (e ∷ []) (events_from bytes next) }
    ensures end { (bytes : List ℕ) (at next : ℕ) → event_at bytes at ≡ Ok (End, next)
        → events_from bytes at ≡ Ok [] }
    ensures fault { (bytes : List ℕ) (at : ℕ) (fault : ScriptFault)
        → event_at bytes at ≡ Err fault → events_from bytes at ≡ Err fault }
{}

/// Let any bytes follow the bytes of whole events. The events of both are these events, and then
/// those of the bytes that follow. A fault of those stands as much later.
pub fn events_of_a_concatenation()
    ensures { (es : List EventView) (bytes : List ℕ) → AllByRecursion IsBeforeEnd es
        → events (flat_map written_event es ++ bytes)
        ≡ events_behind es (later (length (flat_map written_event es)) (events bytes)) }
{}

/// The events of a script are those that were written before its end. No other bytes have these
/// events.
pub fn a_script_has_the_events_that_were_written()
    ensures read { (es : List EventView) (rest : List ℕ) → AllByRecursion IsBeforeEnd es
        → events (flat_map written_event es ++ (written_event End ++ rest)) ≡ Ok es }
    ensures written { (bytes : List ℕ) (es : List EventView) → All (λ b. b < 256) bytes
        → events bytes ≡ Ok es
        → AllByRecursion IsBeforeEnd es
        × ((rest : List ℕ) × (bytes ≡ flat_map written_event es ++ (written_event End ++ rest))) }
{}

/// Bytes are a script within the limits, or they have the one error that the rules name first.
pub fn scripts_are_judged()
    ensures none { (bytes : List ℕ) → (script_error bytes ≡ None) ↔ IsScript bytes }
    ensures error { (bytes : List ℕ) (error : ScriptError)
        → (script_error bytes ≡ Some error) ↔ IsScriptError bytes error }
{}

/// The events of a script within the limits are read without a fault. Bytes within the limits are
/// a script where their events are so read.
pub fn scripts_are_read()
    ensures read { (bytes : List ℕ) → IsScript bytes → (length bytes ≤ SCRIPT_LIMIT)
        × (events bytes ≡ Ok (script_events bytes))
        × (length (script_events bytes) < RECORD_LIMIT) }
    ensures only { (bytes : List ℕ) (es : List EventView) → length bytes ≤ SCRIPT_LIMIT
        → events bytes ≡ Ok es → length es < RECORD_LIMIT → IsScript bytes }
{}
