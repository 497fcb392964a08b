//! Worked laws of sessions, as `check` tells them.

ghost use Rattle.std.specs.Prelude.{[], ◌∷◌, ◌++◌};
ghost use Rattle.pico_board.specs.declared.boot.Cpu.TheVariants.{Arm};
ghost use Rattle.worked_flashes.specs.Flashes.{bare, beside_former, block_page, vector_page};
ghost use Rattle.worked_flashes.specs.Writes.{slot};
ghost use Rattle.boot_session.specs.Examples.{update_block};
ghost use Rattle.check_laws.specs.declared.found.SessionFound.TheVariants.{Confined, Gated, Staged};
ghost use Rattle.check_laws.specs.SessionLaws.{IsSessionLaw};
ghost use Rattle.law_staged.specs.Examples.{hosts_script, page_write};

use crate::examples::a_staged_session;
use boot_session::examples::session::{a_cut_between_two_pages, sessions_of_a_plan_and_a_download};

/// A host's script on a flash that starts version 1.9 from a pair's first slot. The law is staged
/// where a download brings version 1.10 to the second slot, with the page of its block last. It is
/// gated where the first block of that comes alone, which erases the slot's first sector. It is
/// confined where a command programs a page of the slot that no command has erased.
pub fn laws_of_sessions()
    ensures staged { IsSessionLaw (beside_former bare) Arm (hosts_script
        (update_block 0 vector_page ∷ update_block 1 (block_page 0x0001000a) ∷ [])) (Staged slot) }
    ensures gated { IsSessionLaw (beside_former bare) Arm
        (hosts_script (update_block 0 vector_page ∷ [])) (Gated slot) }
    ensures confined { IsSessionLaw (beside_former bare) Arm (hosts_script (page_write ∷ []))
        (Confined slot) }
{
    a_cut_between_two_pages();
    a_staged_session();
    sessions_of_a_plan_and_a_download();
}
