//! Laws of updates, each the contract of a function that does nothing.

pub mod own;

ghost use Rattle.std.specs.Prelude.{◌≡◌, ◌+◌, ◌≤◌, ℕ, List, [], Option, Some};
ghost use Rattle.std.specs.List.{AllByRecursion};
ghost use Rattle.boot_machine.specs.Machines.{Host};
ghost use Rattle.boot_machine.specs.Serving.{table_of_found};
ghost use Rattle.boot_rules.specs.Chosen.{Chosen};
ghost use Rattle.boot_rules.specs.declared.decision.Decision.TheVariants.{Start};
ghost use Rattle.boot_rules.specs.Tables.{table_in};
ghost use Rattle.boot_rules.specs.Targets.{target_of};
ghost use Rattle.boot_script.specs.Events.{EventView};
ghost use Rattle.boot_session.specs.Sessions.{entered_host, session};
ghost use Rattle.check_images.specs.declared.found.ImageFacts.{ImageFacts};
ghost use Rattle.check_images.specs.Boots.{after_boot};
ghost use Rattle.check_images.specs.Effects.{IsEffect};
ghost use Rattle.check_images.specs.Starting.{IsStart};
ghost use Rattle.check_laws.specs.Hosts.{IsHosts, first_content};
ghost use Rattle.check_laws.specs.SessionLaws.{host_steps};
ghost use Rattle.check_records.specs.Again.{IsAgain};
ghost use Rattle.check_records.specs.declared.found.Again.TheVariants.{Yes};
ghost use Rattle.check_records.specs.Unerased.{IsUnerased};
ghost use Rattle.check_require.specs.Meeting.{unmet};
ghost use Rattle.check_require.specs.Reports.{ReportView};
ghost use Rattle.check_require.specs.Requires.{default_require};
ghost use Rattle.image_check.specs.SameImage.{SameImage};
ghost use Rattle.law_updates.specs.Again.{IsNoBlock, NamesRowsOnce};
ghost use Rattle.law_updates.specs.Often.{IsLeftAfter};
ghost use Rattle.law_updates.specs.Raised.{AreLeftByBoots, IsRaiseOf, IsRaisedBy, IsUntouched, MayRise};
ghost use Rattle.law_updates.specs.Targets.{AsksOnce, HaveSameTargets};
ghost use Rattle.law_updates.specs.Boots.{after_boots};
ghost use Rattle.law_updates.specs.Met.{GoesOn, LeavesWholeImages};
ghost use Rattle.otp_roll.specs.declared.rows.TheConstants.{FIRST_ROW};
ghost use Rattle.pico_board.specs.Content.{Content, IsContent};
ghost use Rattle.pico_board.specs.Steps.{CutOf, after_all};
ghost use Rattle.pico_board.specs.declared.Step.{Step};
ghost use Rattle.pico_board.specs.declared.boot.BootKind.TheVariants.{Normal};
ghost use Rattle.pico_board.specs.declared.boot.Cpu.{Cpu};
ghost use Rattle.slot_choice.specs.declared.choice.Choice.{Choice};
ghost use Rattle.trial_buy.specs.Starting.{start_steps};

use check_records::laws::{
    steps_that_are_done_again_come_to_one_end, the_first_unerased_step_is_told,
};

/// Where a normal boot starts an image, it goes on: each of any number of normal boots after it
/// starts that image, with the bytes that it has. The first one raises the rows of the image, if it
/// writes at all, and those behind it write nothing. So what holds of the content after the first
/// one, as which images are valid on it, holds after each of them.
pub fn a_start_goes_on()
    ensures starts { (z : Content) (cpu : Cpu) (choice : Choice) (n : ℕ) → IsContent z
        → Chosen z cpu Normal (Start choice)
        → Chosen (after_boots n z cpu) cpu Normal (Start choice) }
    ensures bytes { (z : Content) (cpu : Cpu) (choice : Choice) (n : ℕ) → IsContent z
        → Chosen z cpu Normal (Start choice)
        → SameImage (after_boots n z cpu) z choice.image cpu }
    ensures settled { (z : Content) (cpu : Cpu) (choice : Choice) → IsContent z
        → Chosen z cpu Normal (Start choice)
        → start_steps (after_boot z cpu) cpu choice ≡ [] }
    ensures content { (z : Content) (cpu : Cpu) (n : ℕ) → IsContent z
        → after_boots (n + 1) z cpu ≡ after_boot z cpu }
{}

/// Played again. The events are those of a host, from BOOTSEL on as it is entered on the content c:
/// c1, where they are those of a host's script. Let each program of their session follow an erase
/// of its sector, and let a loss of power in the session leave d, with the table of c. Let each UF2
/// block that asks for the target of its family, since it is not skipped and continues no download,
/// have the same one on d as on c. Then the session that the events make on d leads to the end of
/// the one on c. It has the same steps where no two OTP writes name one row. Of two that do, the
/// first may be refused on d, since the row has the bits of the second already.
pub fn a_script_that_is_played_again()
    ensures content { (c d : Content) (cpu : Cpu) (events : List EventView)
        → HaveSameTargets c d cpu (entered_host c) events
        → ((k : ℕ) → IsUnerased (session c cpu events) k → ⊥)
        → CutOf c (session c cpu events) d → table_in d ≡ table_in c
        → after_all d (session d cpu events) ≡ after_all c (session c cpu events) }
    ensures steps { (c d : Content) (cpu : Cpu) (events : List EventView)
        → HaveSameTargets c d cpu (entered_host c) events → NamesRowsOnce events
        → CutOf c (session c cpu events) d → table_in d ≡ table_in c
        → session d cpu events ≡ session c cpu events }
{
    the_first_unerased_step_is_told();
    steps_that_are_done_again_come_to_one_end();
}

/// Played again and again. Let each program of the session follow an erase of its sector. Let power
/// be lost any number of times: in the session, and then each time in the one that is played again
/// on what was left. Boots in between may raise rows that no OTP write of the events names, and
/// that are in no triple of the image in RAM that they start. Each content that is played on has
/// the table of c, and gives each block that asks for a target the same one. Then, once the session
/// is played to its end, the content is the one that it would have come to, with the rows that the
/// boots raised raised as well. The session does the same steps each time, where no two OTP writes
/// name one row.
pub fn a_script_that_is_played_often()
    ensures content { (n : ℕ) (c d : Content) (cpu : Cpu) (events : List EventView)
        (raises : List Step) → ((k : ℕ) → IsUnerased (session c cpu events) k → ⊥)
        → IsLeftAfter n c cpu events raises d
        → after_all d (session d cpu events)
        ≡ after_all (after_all c (session c cpu events)) raises }
    ensures steps { (n : ℕ) (c d : Content) (cpu : Cpu) (events : List EventView)
        (raises : List Step) → NamesRowsOnce events → IsLeftAfter n c cpu events raises d
        → session d cpu events ≡ session c cpu events }
{
    the_first_unerased_step_is_told();
    steps_that_are_done_again_come_to_one_end();
}

/// What normal boots leave, each of them done or cut by a loss of power, is what raises leave. They
/// raise no row before the first one that an image may list. So boots between two playings of the
/// events do what `IsLeftAfter` says of them, where each row that they raise is one that no OTP
/// write of the events names, and is in no triple of the image in RAM that these start.
pub fn boots_raise_rows_alone()
    ensures listed { (c : Content) (cpu : Cpu) (row : ℕ) → IsRaisedBy c cpu row
        → FIRST_ROW ≤ row }
    ensures raises { (c x y : Content) (cpu : Cpu) (events : List EventView) (m : ℕ)
        → AreLeftByBoots (IsUntouched c cpu events) m x cpu y
        → (raises : List Step) × AllByRecursion (IsRaiseOf (MayRise c cpu events)) raises
        × (y ≡ after_all x raises) }
{}

/// What `again yes` says of a host's script. Each program of the host's steps follows an erase of
/// its sector in these steps. So the law above holds of it, where what it is played on has the
/// table of the content at the host's first event, and gives each block that asks for a target the
/// same one.
pub fn the_line_again_holds()
    ensures erased { (c : Content) (cpu : Cpu) (events : List EventView) (pattern : List ℕ) (k : ℕ)
        → IsHosts c cpu events → IsAgain c cpu events pattern Yes
        → IsUnerased (host_steps c cpu events) k → ⊥ }
    ensures content { (n : ℕ) (c d : Content) (cpu : Cpu) (events : List EventView)
        (pattern : List ℕ) (raises : List Step)
        → IsHosts c cpu events → IsAgain c cpu events pattern Yes
        → IsLeftAfter n (first_content c cpu) cpu events raises d
        → after_all d (session d cpu events)
        ≡ after_all (after_all (first_content c cpu) (host_steps c cpu events)) raises }
{
    a_script_that_is_played_often();
}

/// Which blocks have the same targets, as a script is played again on d which was made for c.
/// Commands ask for none. Where one block alone asks, before any step, it is enough that its family
/// has the same target on d and on c.
pub fn targets_that_are_the_same()
    ensures commands { (c d : Content) (cpu : Cpu) (host : Host) (events : List EventView)
        → AllByRecursion IsNoBlock events → HaveSameTargets c d cpu host events }
    ensures download { (c d : Content) (cpu : Cpu) (family : ℕ) (host : Host)
        (events : List EventView) → AsksOnce c d cpu family host events
        → target_of d (table_of_found host.found) cpu family
        ≡ target_of c (table_of_found host.found) cpu family
        → HaveSameTargets c d cpu host events }
{}

/// Met, and it goes on. Where nothing is unmet that is asked by default, another image starts at
/// the end, and each cut that is counted, and the end, decides as before or starts an image that
/// stands whole before the script or at its end. None leaves nothing to start where something did,
/// or starts a half-written image. Where the update leads from the content c to z, each of any
/// number of normal boots after z starts the image that is told of z. What the first one leaves,
/// all leave. So what is told of the image beside it, and of images that are lost, holds after
/// each.
pub fn met_and_it_goes_on()
    ensures cuts { (r : ReportView) → unmet default_require r ≡ [] → LeavesWholeImages r }
    ensures boots { (c z : Content) (cpu : Cpu) (r : ReportView) (starts : Option ImageFacts)
        → IsContent z → unmet default_require r ≡ [] → IsEffect c z cpu r.image
        → IsStart z cpu starts
        → (told : ImageFacts) × (starts ≡ Some told) × GoesOn z cpu told }
{}
