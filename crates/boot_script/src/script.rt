//! Scripts within the limits, and the walk over their events.

ghost use Rattle.std.specs.Prelude.{◌≡◌, ◌≤◌, IfErr, IfOk, None, Some, length};
ghost use Rattle.boot_script.specs.Scripts.{script_events};
ghost use Rattle.boot_script.specs.Judging.{IsScript, first_error, script_error};

use crate::event::{Event, ScriptError};
use crate::limits::{RECORD_LIMIT, SCRIPT_LIMIT};
use crate::reading::next_event;
use std::marker::Model;

/// The bytes of a script: at most 67,108,864, with an end among the first 524,288 records and no
/// fault before the end. What stands after the end is not read.
#[derive(Clone, Copy, Debug)]
pub struct Script<'a> {
    /// The bytes.
    pub bytes: &'a [u8],
    pub ghost whole: { script_error bytes.now ≡ None },
}

impl<'a> Script<'a> {
    /// The script of these bytes, or the first reason why they are none.
    pub fn read(bytes: &'a [u8]) -> Result<Script<'a>, ScriptError>
        ensures ok { IfOk result (λ script. script.bytes.now ≡ bytes.now) }
        ensures form { IfOk result (λ script. IsScript bytes.now) }
        ensures none { IfOk result (λ script. script_error bytes.now ≡ None) }
        ensures err { IfErr result (λ error. script_error bytes.now ≡ Some error) }
    {
        if bytes.len() > SCRIPT_LIMIT as usize {
            return Err(ScriptError::TooLarge);
        }
        match first_error(bytes) {
            None => Ok(Script { bytes }),
            Some(error) => Err(error),
        }
    }

    /// The events before the end.
    pub fn events(&self) -> Events<'a>
        ensures { result ≡ script_events self.now.bytes.now }
    {
        Events {
            bytes: self.bytes,
            at: 0,
        }
    }
}

/// The walk over the events of a script, seen as the list of those that are left.
#[derive(Debug, Drop)]
pub struct Events<'a> {
    bytes: &'a [u8],
    at: u32,
}

impl<'a> Model for Events<'a> {
    ghost use Rattle.std.specs.Prelude.{List};
    ghost use Rattle.boot_script.specs.Events.{EventView};
    ghost use Rattle.boot_script.specs.Walking.{IsWalk, events_left};

    ghost Value = { List EventView };

    ghost view = { λ walk. events_left walk.bytes.now walk.at };

    ghost invariant = { λ walk. IsWalk walk.bytes.now walk.at };
}

impl<'a> Iterator for Events<'a> {
    ghost use Rattle.std.specs.Iterator.{item_count};
    ghost use Rattle.boot_script.specs.Walking.{GivesFirst};

    type Item = Event<'a>;

    ghost next_gives = { GivesFirst };

    ghost remaining = { item_count (λ left. left) };

    fn next(&mut self) -> Option<Event<'a>> {
        let (event, next) = match next_event(self.bytes, self.at) {
            Ok(read) => read,
            Err(_) => return None,
        };
        if event.is_end() {
            return None;
        }
        self.at = next;
        Some(event)
    }
}

/// Why bytes that are not too many are no script, by their first records.
fn first_error(bytes: &[u8]) -> Option<ScriptError>
    requires { length bytes.now ≤ SCRIPT_LIMIT }
    ensures { result ≡ first_error RECORD_LIMIT bytes.now 0 }
{
    let mut at = 0;
    for _ in 0..RECORD_LIMIT {
        let (event, next) = match next_event(bytes, at) {
            Ok(read) => read,
            Err(fault) => return Some(ScriptError::Record(fault)),
        };
        if event.is_end() {
            return None;
        }
        at = next;
    }
    Some(ScriptError::TooMany)
}
