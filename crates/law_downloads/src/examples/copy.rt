//! A worked update by a UF2 file, proved by computing: the `ensures` of a function that does
//! nothing.

ghost use Rattle.std.specs.Prelude.{◌≡◌};
ghost use Rattle.worked_flashes.specs.Flashes.{bare};
ghost use Rattle.worked_flashes.specs.Flashes.{beside_former, begins_with, vector_page};
ghost use Rattle.worked_flashes.specs.Choices.{former_start};
ghost use Rattle.worked_flashes.specs.Writes.{plain_steps};
ghost use Rattle.pico_board.specs.declared.boot.Cpu.TheVariants.{Arm};
ghost use Rattle.law_downloads.specs.Copied.{IsDownload, IsLostUpdate, copied_session};
ghost use Rattle.law_downloads.specs.Examples.{second_slot, two_page_image};

use boot_session::examples::session::a_cut_between_two_pages;

/// Version 1.10 is copied next to 1.9 as a file of two blocks of rp2350-arm-s. All premises of the
/// laws hold, and the session erases the slot's first sector and programs its two pages. The
/// premises hold too where power is lost before the second page. So the update can be done again.
pub fn an_update_that_lost_its_supply()
    ensures download { IsDownload (beside_former bare) Arm 0xe48bff59 second_slot two_page_image }
    ensures steps { copied_session (beside_former bare) Arm 0xe48bff59 two_page_image
        ≡ plain_steps }
    ensures lost { IsLostUpdate (beside_former bare) Arm 0xe48bff59 second_slot two_page_image
        former_start (beside_former (begins_with vector_page)) }
{
    a_cut_between_two_pages();
}
