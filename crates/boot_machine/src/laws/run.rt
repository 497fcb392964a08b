//! Laws on runs of the machine. Each is a function that does nothing, whose contract is the law.

ghost use Rattle.std.specs.Prelude.{◌≡◌, ◌≢◌, ◌↔◌, ◌⊎◌, ◌++◌, ◌<◌, ◌≤◌, ℕ, All, Bool, List, None, Ok, Option, Some, [], ◌∷◌, codes, false, true, length};
ghost use Rattle.std.specs.List.{AllByRecursion};
ghost use Rattle.block_codec.specs.Words.{AreWords, bytes_of};
ghost use Rattle.text_lines.specs.Events.{IsOutcome};
ghost use Rattle.text_lines.specs.Outcomes.{command_outcome, refused_outcome};
ghost use Rattle.text_lines.specs.declared.outcome.EventOutcome.{EventOutcome};
ghost use Rattle.text_lines.specs.declared.outcome.EventOutcome.TheVariants as event_outcomes;
ghost use Rattle.boot_machine.specs.Boots.{entered};
ghost use Rattle.boot_machine.specs.Machines.{FromFlash, Host, InBootsel, MachineView, Off, Placing, Running};
ghost use Rattle.boot_machine.specs.Moves.{IsDoneWhole, IsLost, Moves, MovesBy, Plays, armed_for, effect};
ghost use Rattle.boot_machine.specs.Ranges.{AreInRange};
ghost use Rattle.boot_machine.specs.Runs.{AnswersTarget, BeginsDownload, HasDone, IsFresh, IsBootIntoRam, PlaysWriting, StartsRam, served_by, machine_with_cut};
ghost use Rattle.boot_machine.specs.Serving.{followed, ruling_on, served_event, table_of_found, taken_in, wanted_in};
ghost use Rattle.boot_machine.specs.Standing.{Carries, IsStep};
ghost use Rattle.boot_machine.specs.declared.parts.Parts.{Parts};
ghost use Rattle.boot_machine.specs.declared.state.State.TheVariants.{Off as POWERLESS};
ghost use Rattle.boot_rules.specs.Chosen.{Chosen};
ghost use Rattle.boot_rules.specs.declared.decision.Decision.TheVariants.{Start};
ghost use Rattle.slot_choice.specs.declared.choice.Choice.{Choice};
ghost use Rattle.sector_pool.specs.Pool.{Pool};
ghost use Rattle.uf2_place.specs.Accepting.{DownloadView};
ghost use Rattle.pico_board.specs.Board.{Rose, State as BoardState};
ghost use Rattle.pico_board.specs.declared.Step.{Step};
ghost use Rattle.part_table.specs.declared.Table.{Table};
ghost use Rattle.boot_rules.specs.Targets.{target_of};
ghost use Rattle.boot_script.specs.Events.{EventView};
ghost use Rattle.info_reply.specs.Infos.{target_words};
ghost use Rattle.part_table.specs.Rights.{allowed_by};
ghost use Rattle.part_table.specs.declared.Right.TheVariants.{BootWrite};
ghost use Rattle.part_table.specs.declared.Target.{Target};
ghost use Rattle.pico_board.specs.Content.{Content, IsContent};
ghost use Rattle.pico_board.specs.Cuts.{Cut};
ghost use Rattle.pico_board.specs.Steps.{IsStepIn};
ghost use Rattle.pico_board.specs.declared.boot.BootKind.{BootKind};
ghost use Rattle.pico_board.specs.declared.boot.Cpu.{Cpu};
ghost use Rattle.picoboot_cmd.specs.Commands.{command_in};
ghost use Rattle.picoboot_cmd.specs.declared.cmd.Cmd.{Cmd};
ghost use Rattle.image_def.specs.declared.started.Started.{Started};
ghost use Rattle.ram_start.specs.Serving.{is_ram_command};
ghost use Rattle.ram_start.specs.Sram.{RamWrite, ram_after};
ghost use Rattle.uf2_place.specs.Placement.{grown, sector_in};
ghost use Rattle.uf2_place.specs.Rulings.{begun, is_page_within, ruling, wanted};
ghost use Rattle.uf2_place.specs.declared.answer.PlaceFault.TheVariants.{NoTarget, NotPermitted, Outside};
ghost use Rattle.uf2_place.specs.declared.block.Uf2.{Uf2};

/// Where an info command is answered by the words of a target of a family, that is the family's
/// target. Where it is answered by the one word 0, the family has none. No other target has these
/// bytes. A block of the family that begins a download and is not skipped is taken or refused by
/// it.
pub fn answered_target()
    ensures target { (c : Content) (cpu : Cpu) (host : Host) (command payload : List ℕ)
        (family : ℕ) (answer : Option Target)
        → AnswersTarget c cpu host command payload family answer
        → target_of c (table_of_found host.found) cpu family ≡ answer }
    ensures one { (a b : Option Target) → AreWords (target_words a) → AreWords (target_words b)
        → bytes_of (target_words a) ≡ bytes_of (target_words b) → a ≡ b }
    ensures ruling { (c : Content) (cpu : Cpu) (host : Host) (command payload : List ℕ)
        (family : ℕ) (answer : Option Target) (bytes : List ℕ) (b : Uf2)
        → AnswersTarget c cpu host command payload family answer
        → BeginsDownload (length c.flash) host family bytes b
        → ruling_on (length c.flash) (table_of_found host.found)
        (target_of c (table_of_found host.found) cpu b.family) host.placing b
        ≡ begun (table_of_found host.found) b answer }
    ensures served { (c : Content) (cpu : Cpu) (host : Host) (command payload : List ℕ)
        (family : ℕ) (answer : Option Target) (bytes : List ℕ) (b : Uf2)
        → AnswersTarget c cpu host command payload family answer
        → BeginsDownload (length c.flash) host family bytes b
        → served_event c cpu host (EventView.Uf2 bytes) ≡ served_by host answer b }
{}

/// An info command is answered by a target, or by none, and the next event is a block of its family
/// that begins a download. The info command leaves the machine as it is, and its reply has the
/// target's words. Without a target the block is refused. With one it is refused outside its window
/// or where the sector may not be written, and otherwise it is the first one of a download into it.
pub fn answered_target_is_taken()
    ensures told { (m n : MachineView) (host : Host) (command payload : List ℕ)
        (outcome : EventOutcome) (family : ℕ)
        (answer : Option Target)
        → m.place ≡ InBootsel host
        → AnswersTarget m.content m.cpu host command payload family answer
        → Moves m (EventView.Command command payload) n outcome
        → (n ≡ m) × ((cmd : Cmd) × (command_in command ≡ Ok cmd)
        × (outcome ≡ command_outcome cmd 0 (bytes_of (target_words answer)))) }
    ensures moves { (m n o : MachineView) (host : Host) (command payload bytes : List ℕ)
        (outcome told : EventOutcome)
        (family : ℕ) (answer : Option Target) (b : Uf2)
        → m.place ≡ InBootsel host
        → AnswersTarget m.content m.cpu host command payload family answer
        → BeginsDownload (length m.content.flash) host family bytes b
        → Moves m (EventView.Command command payload) n outcome
        → Moves n (EventView.Uf2 bytes) o told
        → MovesBy m m.armed (followed m.content m.cpu (served_by host answer b)) o told }
    ensures refused { (m n o : MachineView) (host : Host) (command payload bytes : List ℕ)
        (outcome told : EventOutcome)
        (family : ℕ) (b : Uf2)
        → m.place ≡ InBootsel host → AnswersTarget m.content m.cpu host command payload family None
        → BeginsDownload (length m.content.flash) host family bytes b
        → Moves m (EventView.Command command payload) n outcome
        → Moves n (EventView.Uf2 bytes) o told
        → (o ≡ m) × (told ≡ refused_outcome NoTarget) }
    ensures outside { (m n o : MachineView) (host : Host) (command payload bytes : List ℕ)
        (outcome told : EventOutcome)
        (family : ℕ) (t : Target) (b : Uf2)
        → m.place ≡ InBootsel host
        → AnswersTarget m.content m.cpu host command payload family (Some t)
        → BeginsDownload (length m.content.flash) host family bytes b
        → is_page_within t.window.len b ≡ false
        → Moves m (EventView.Command command payload) n outcome
        → Moves n (EventView.Uf2 bytes) o told
        → (o ≡ m) × (told ≡ refused_outcome Outside) }
    ensures forbidden { (m n o : MachineView) (host : Host)
        (command payload bytes : List ℕ)
        (outcome told : EventOutcome)
        (family : ℕ) (t : Target) (b : Uf2)
        → m.place ≡ InBootsel host
        → AnswersTarget m.content m.cpu host command payload family (Some t)
        → BeginsDownload (length m.content.flash) host family bytes b
        → is_page_within t.window.len b ≡ true
        → allowed_by (table_of_found host.found) (sector_in t.window b) BootWrite ≡ false
        → Moves m (EventView.Command command payload) n outcome
        → Moves n (EventView.Uf2 bytes) o told
        → (o ≡ m) × (told ≡ refused_outcome NotPermitted) }
    ensures taken { (m n o : MachineView) (host : Host) (command payload bytes : List ℕ)
        (outcome told : EventOutcome)
        (family : ℕ) (t : Target) (b : Uf2)
        → m.place ≡ InBootsel host
        → AnswersTarget m.content m.cpu host command payload family (Some t)
        → BeginsDownload (length m.content.flash) host family bytes b
        → is_page_within t.window.len b ≡ true
        → allowed_by (table_of_found host.found) (sector_in t.window b) BootWrite ≡ true
        → Moves m (EventView.Command command payload) n outcome
        → Moves n (EventView.Uf2 bytes) o told
        → MovesBy m m.armed
        (followed m.content m.cpu (taken_in host t (b ∷ []) b (grown t [] (b ∷ [])))) o told }
{}

/// Every run has the writes to the SRAM since BOOTSEL was entered. In a run that begins without
/// power or in BOOTSEL as it is entered, the SRAM is what they leave.
pub fn ram_after_writes()
    ensures runs { (m n : MachineView) (before : List RamWrite) (events : List EventView)
        (outcomes : List EventOutcome) → Plays m events n outcomes
        → ((behind : List RamWrite) × PlaysWriting m before events n outcomes behind) }
    ensures plays { (m n : MachineView) (before behind : List RamWrite) (events : List EventView)
        (outcomes : List EventOutcome) → PlaysWriting m before events n outcomes behind
        → Plays m events n outcomes }
    ensures ram { (m n : MachineView) (behind : List RamWrite) (events : List EventView)
        (outcomes : List EventOutcome) (host : Host) → IsFresh m.place
        → PlaysWriting m [] events n outcomes behind → n.place ≡ InBootsel host
        → host.ram ≡ ram_after behind }
{}

/// In every run that begins without power or in BOOTSEL as it is entered, a machine starts an image
/// in RAM by a reboot command whose range holds that image. It is valid in what the writes since
/// BOOTSEL was entered have left there, and not below its rollback rows. A RAM command does no
/// step: it leaves the content and the armed cut.
pub fn ram_start()
    ensures starts { (m n o : MachineView) (events : List EventView) (outcomes : List EventOutcome)
        (event : EventView) (outcome : EventOutcome) (s : Started)
        → IsFresh m.place → Plays m events n outcomes → StartsRam n event o outcome s
        → ((writes : List RamWrite) × PlaysWriting m [] events n outcomes writes
        × IsBootIntoRam n.content n.cpu event writes s × (o.content ≡ n.content)) }
    ensures any { (m n o : MachineView) (events : List EventView) (outcomes : List EventOutcome)
        (event : EventView) (outcome : EventOutcome) (s : Started) (writes : List RamWrite)
        → IsFresh m.place → PlaysWriting m [] events n outcomes writes
        → StartsRam n event o outcome s
        → IsBootIntoRam n.content n.cpu event writes s × (o.content ≡ n.content) }
    ensures keeps { (m n : MachineView) (host : Host) (command payload : List ℕ)
        (outcome : EventOutcome) (cmd : Cmd)
        → m.place ≡ InBootsel host → command_in command ≡ Ok cmd → is_ram_command cmd ≡ true
        → Moves m (EventView.Command command payload) n outcome
        → (n.content ≡ m.content) × (n.armed ≡ m.armed) }
{}

/// Where the board tells its armed cut, a move is determined: there is one machine and one outcome.
/// Where it does not, it does not tell one afterwards either.
pub fn a_told_cut_decides()
    ensures one { (m n o : MachineView) (cut : Option Cut) (event : EventView)
        (outcome other : EventOutcome)
        → m.armed ≡ Some cut → Moves m event n outcome → Moves m event o other
        → (n ≡ o) × (outcome ≡ other) }
    ensures told { (m n : MachineView) (cut : Option Cut) (event : EventView)
        (outcome : EventOutcome)
        → m.armed ≡ Some cut → Moves m event n outcome
        → ((next : Option Cut) × (n.armed ≡ Some next)) }
    ensures untold { (m n : MachineView) (event : EventView) (outcome : EventOutcome)
        → m.armed ≡ None → Moves m event n outcome → n.armed ≡ None }
{}

/// There is a move for every machine and event. Where the board does not tell its armed cut, there
/// is the one with all steps done. Where it tells that none is armed, there is that one alone.
/// Where it tells a cut, whose pattern has bytes, and the steps lie in the content, there is the
/// one that the cut decides.
pub fn there_is_a_move()
    ensures untold { (m : MachineView) (event : EventView) → m.armed ≡ None
        → ((n : MachineView) × (outcome : EventOutcome)
        × IsDoneWhole m (armed_for m.armed event) (effect m event) n outcome) }
    ensures unarmed { (m : MachineView) (event : EventView) → armed_for m.armed event ≡ Some None
        → ((n : MachineView) × (outcome : EventOutcome)
        × IsDoneWhole m (armed_for m.armed event) (effect m event) n outcome) }
    ensures alone { (m n : MachineView) (event : EventView) (outcome : EventOutcome)
        → armed_for m.armed event ≡ Some None → Moves m event n outcome
        → IsDoneWhole m (armed_for m.armed event) (effect m event) n outcome }
    ensures armed { (m : MachineView) (event : EventView) (cut : Cut)
        → armed_for m.armed event ≡ Some (Some cut) → All (λ b. b < 256) cut.pattern
        → IsContent m.content
        → AllByRecursion (IsStepIn (length m.content.flash)) (effect m event).steps
        → ((n : MachineView) × (outcome : EventOutcome) × Moves m event n outcome) }
{}

/// The outcome of a move is lost power exactly where power was lost in a step. That is where a
/// machine that had power is off. In an event without steps no power is lost.
pub fn only_lost_power_says_so()
    ensures told { (m n : MachineView) (event : EventView) (outcome : EventOutcome)
        → Moves m event n outcome
        → (outcome ≡ event_outcomes.PowerLost)
        ↔ IsLost m (armed_for m.armed event) (effect m event) n outcome }
    ensures off { (m n : MachineView) (event : EventView) (outcome : EventOutcome)
        → Moves m event n outcome
        → m.place ≢ Off → n.place ≡ Off
        → IsLost m (armed_for m.armed event) (effect m event) n outcome }
    ensures no_step { (m n : MachineView) (event : EventView) (outcome : EventOutcome)
        → Moves m event n outcome
        → (effect m event).steps ≡ []
        → IsDoneWhole m (armed_for m.armed event) (effect m event) n outcome }
{}

/// What the outcome of a move tells is in the ranges of its fields, where the numbers of the
/// machine and of the event are in theirs. So its line is one of those of which the law on the
/// longest line speaks.
pub fn outcomes_of_moves_are_in_range()
    ensures { (m n : MachineView) (event : EventView) (outcome : EventOutcome)
        → AreInRange m event → Moves m event n outcome → IsOutcome outcome }
{}

/// Without power a machine stays as it is, but for a cut that is armed and for power that comes
/// back. A cut is armed in any state, and leaves all else.
pub fn without_power_nothing_is_done()
    ensures stays { (m n : MachineView) (event : EventView) (outcome : EventOutcome) → m.place ≡ Off
        → event ≢ EventView.PowerOn
        → ((left : ℕ) (within : Bool) (pattern : List ℕ)
        → event ≢ EventView.Cut left within pattern)
        → Moves m event n outcome → n ≡ m }
    ensures told { (m n : MachineView) (event : EventView) (outcome : EventOutcome) → m.place ≡ Off
        → event ≢ EventView.PowerOn → event ≢ EventView.End
        → ((left : ℕ) (within : Bool) (pattern : List ℕ)
        → event ≢ EventView.Cut left within pattern)
        → Moves m event n outcome → outcome ≡ event_outcomes.Off }
    ensures cut { (m n : MachineView) (left : ℕ) (within : Bool) (pattern : List ℕ)
        (outcome : EventOutcome)
        → Moves m (EventView.Cut left within pattern) n outcome
        → (n ≡ machine_with_cut m left within pattern) × (outcome ≡ event_outcomes.CutArmed) }
    ensures end { (m n : MachineView) (outcome : EventOutcome) → Moves m EventView.End n outcome
        → (n ≡ m) × (outcome ≡ event_outcomes.Ended) }
{}

/// The table is found when BOOTSEL is entered, in the content that is there then, and kept until
/// the next boot.
pub fn the_table_is_kept()
    ensures kept { (m n : MachineView) (host other : Host) (event : EventView)
        (outcome : EventOutcome)
        → m.place ≡ InBootsel host → Moves m event n outcome → n.place ≡ InBootsel other
        → (other.found ≡ host.found) ⊎ (InBootsel other ≡ entered n.content) }
    ensures reset { (m n : MachineView) (other : Host) (kind : BootKind) (outcome : EventOutcome)
        → m.place ≢ Off → Moves m (EventView.Reset kind) n outcome → n.place ≡ InBootsel other
        → InBootsel other ≡ entered n.content }
    ensures power { (m n : MachineView) (other : Host) (outcome : EventOutcome)
        → m.place ≡ Off → Moves m EventView.PowerOn n outcome → n.place ≡ InBootsel other
        → InBootsel other ≡ entered n.content }
{}

/// Whatever is recorded of a board, a step whose outcome is not lost power appends the event's
/// steps to it, here to what was done from a content on. Where it is, the board has no power, and
/// its count of cuts rose.
pub fn a_step_tells_what_it_did()
    ensures recorded { (c : Content) (old new : Parts BoardState) (m : MachineView)
        (event : EventView)
        (outcome : EventOutcome) (steps : List Step)
        → IsStep (λ s. s) (HasDone c) old m event new outcome
        → outcome ≢ event_outcomes.PowerLost → HasDone c old.board steps
        → HasDone c new.board (steps ++ (effect m event).steps) }
    ensures lost { (c : Content) (old new : Parts BoardState) (m : MachineView) (event : EventView)
        (outcome : EventOutcome) → IsStep (λ s. s) (HasDone c) old m event new outcome
        → outcome ≡ event_outcomes.PowerLost
        → (new.state ≡ POWERLESS) × (new.board.powered ≡ false)
        × Rose old.board.cuts new.board.cuts }
{}

/// In every run that begins without power or in BOOTSEL as it is entered, a trial image that runs
/// is what a boot chooses on the content as it is. Its start wrote nothing, and nothing is written
/// while it runs. So what is said of the own writes of a buy holds of each buy in a run.
pub fn a_running_trial_is_chosen()
    ensures { (m n : MachineView) (events : List EventView) (outcomes : List EventOutcome)
        (choice : Choice)
        → IsFresh m.place → Plays m events n outcomes → n.place ≡ Running (FromFlash choice)
        → choice.image.trial ≡ true
        → (kind : BootKind) × Chosen n.content n.cpu kind (Start choice) }
{}

/// The ruling on a block by the blocks that a download stands for is the ruling by what the
/// download keeps. Its answers come by their rules.
pub fn rulings_are_by_the_blocks()
    ensures { (n : ℕ) (table : Option Table) (c : Content) (cpu : Cpu) (d : DownloadView)
        (pool : Pool)
        (placing : Option Placing) (b : Uf2) → Carries d pool placing
        → ruling_on n table (target_of c table cpu b.family) placing b
        ≡ ruling n table (wanted_in c table cpu (wanted n d.current b)) d.marks.numbers d.current
        b }
{}
