//! Laws of info commands: what they ask for, and their status.

ghost use Rattle.std.specs.Prelude.{◌≡◌, ◌≢◌, ◌↔◌, ℕ, ◌*◌, ◌<◌, ◌≤◌, Err, List, None, Ok, Option, Some, IfSome, length};
ghost use Rattle.part_table.specs.declared.Table.{Table};
ghost use Rattle.part_table.specs.declared.Target.{Target};
ghost use Rattle.part_table.specs.Partitions.{part_at};
ghost use Rattle.picoboot_cmd.specs.declared.Cmd.{Cmd};
ghost use Rattle.picoboot_cmd.specs.Checks.{IsCheckedStatus, first_failing};
ghost use Rattle.info_reply.specs.declared.ask.Ask.{Ask};
ghost use Rattle.info_reply.specs.declared.ask.Device.{Device};
ghost use Rattle.info_reply.specs.Asks.{ask_checks, ask_in, asked_info, reply_checks};
ghost use Rattle.info_reply.specs.Infos.{info_of};
ghost use Rattle.info_reply.specs.Statuses.{info_checks};

/// A refused command has the status of the first of all checks that fails. A command that asks for
/// something has the status of the first check of its reply that fails.
pub fn the_status_of_an_info_command()
    ensures refused { (device : Device) (slot : ℕ) (t : Option Table) (target : Option Target)
        (cmd : Cmd) (payload : List ℕ) (status : ℕ) → asked_info cmd payload ≡ Err status
        → first_failing (info_checks device slot t target cmd payload) ≡ status }
    ensures asks { (device : Device) (slot : ℕ) (t : Option Table) (target : Option Target)
        (cmd : Cmd) (payload : List ℕ) (ask : Ask) → asked_info cmd payload ≡ Ok ask
        → first_failing (info_checks device slot t target cmd payload)
        ≡ first_failing (reply_checks t ask (info_of device slot t target ask) cmd) }
    ensures first { (device : Device) (slot : ℕ) (t : Option Table) (target : Option Target)
        (cmd : Cmd) (payload : List ℕ) (status : ℕ)
        → (first_failing (info_checks device slot t target cmd payload) ≡ status)
        ↔ IsCheckedStatus (info_checks device slot t target cmd payload) status }
{}

/// What is asked for is what the arguments name. A refusal has the status of the first check of
/// the command that fails.
pub fn what_is_asked_for()
    ensures ok { (cmd : Cmd) (payload : List ℕ) (ask : Ask) → (asked_info cmd payload ≡ Ok ask)
        ↔ ((first_failing (ask_checks cmd payload) ≡ 0) × (ask_in cmd ≡ Some ask)) }
    ensures err { (cmd : Cmd) (payload : List ℕ) (status : ℕ)
        → (asked_info cmd payload ≡ Err status)
        ↔ ((status ≢ 0) × IsCheckedStatus (ask_checks cmd payload) status) }
{}
