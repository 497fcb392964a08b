//! Losses of power in a script that is played again, with all that its laws ask for.

ghost use Rattle.std.specs.Prelude.{◌≡◌, [], ℕ, None};
ghost use Rattle.boot_machine.specs.Boots.{booted};
ghost use Rattle.boot_session.specs.Sessions.{session};
ghost use Rattle.check_records.specs.Unerased.{IsUnerased};
ghost use Rattle.law_updates.specs.Again.{NamesRowsOnce};
ghost use Rattle.law_updates.specs.Examples.{boot_raises, page_written, row_raised, small_update, two_sectors, written_again};
ghost use Rattle.law_updates.specs.Often.{IsLeftAfter};
ghost use Rattle.law_updates.specs.Raised.{AreLeftByBoots, IsRaisedBy, IsUntouched, MayRise};
ghost use Rattle.pico_board.specs.declared.boot.BootKind.TheVariants.{Normal};
ghost use Rattle.pico_board.specs.declared.boot.Cpu.TheVariants.{Arm};

use check_records::laws::the_first_unerased_step_is_told;

/// A script erases a sector, writes a page of it, and writes a row. Each program of its session
/// follows an erase, and no two writes name one row. Power is lost in the raise of the row, before
/// a bit of it has changed.
pub fn a_loss_behind_a_page()
    ensures named { NamesRowsOnce small_update }
    ensures erased { (k : ℕ) → IsUnerased (session two_sectors Arm small_update) k → ⊥ }
    ensures left { IsLeftAfter 1 two_sectors Arm small_update [] page_written }
{
    the_first_unerased_step_is_told();
}

/// A normal boot behind the loss raises a triple that the script does not name, and then power is
/// lost again. A row that the script names may not rise in between, nor one before those that
/// images list.
pub fn a_boot_behind_the_loss()
    ensures boot { (booted page_written Arm Normal None).steps ≡ boot_raises }
    ensures raised { IsRaisedBy page_written Arm 0x0c3 }
    ensures rows { (row : ℕ) → IsRaisedBy page_written Arm row
        → MayRise two_sectors Arm small_update row }
    ensures boots { AreLeftByBoots (IsUntouched two_sectors Arm small_update) 1 page_written Arm
        row_raised }
    ensures named { MayRise two_sectors Arm small_update 0x0c0 → ⊥ }
    ensures flags { MayRise two_sectors Arm small_update 0x048 → ⊥ }
    ensures once { IsLeftAfter 1 two_sectors Arm small_update boot_raises row_raised }
    ensures twice { IsLeftAfter 2 two_sectors Arm small_update boot_raises written_again }
{}
