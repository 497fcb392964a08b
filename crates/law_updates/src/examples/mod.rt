//! Worked examples of the premises of the laws.

pub mod often;
pub mod own;

ghost use Rattle.std.specs.Prelude.{[], ◌∷◌, ℕ};
ghost use Rattle.std.specs.List.{AllByRecursion};
ghost use Rattle.pico_board.specs.declared.boot.Cpu.TheVariants.{Arm};
ghost use Rattle.pico_board.specs.Content.{Content};
ghost use Rattle.boot_script.specs.Events.{End, PowerOn};
ghost use Rattle.boot_session.specs.Sessions.{entered_host};
ghost use Rattle.check_laws.specs.OwnLaws.{IsBootKept, IsBuyKept};
ghost use Rattle.law_updates.specs.Again.{IsNoBlock, NamesRowsOnce};
ghost use Rattle.law_updates.specs.Examples.{a_buy, an_update, begun_host, first_block, last_choice, row_write, runs_trial};
ghost use Rattle.law_updates.specs.Targets.{AsksFor, AsksOnce};
ghost use Rattle.law_updates.specs.Made.{BeginsBoot, BeginsBuy};

use law_boot_cuts::examples::other_rows_stand_apart;

/// An update boot of the last of three images, which raises a triple that none of the others lists.
pub fn a_boot_that_is_kept()
    ensures begins { BeginsBoot Arm an_update last_choice }
    ensures kept { IsBootKept Arm an_update }
{
    other_rows_stand_apart();
}

/// Two writes of OTP rows side by side name each row once. Where the first one has a row more, both
/// name that row.
pub fn writes_that_name_rows()
    ensures once { NamesRowsOnce (PowerOn ∷ row_write 0x0c0 1 []
        ∷ row_write 0x0c1 1 [] ∷ End ∷ []) }
    ensures twice { NamesRowsOnce (row_write 0x0c0 2 [] ∷ row_write 0x0c1 1 [] ∷ []) → ⊥ }
    ensures plain { AllByRecursion IsNoBlock (PowerOn ∷ row_write 0x0c0 1 [] ∷ End ∷ []) }
{}

/// A UF2 block asks for the target of its family where no download goes on. In one of which this
/// block is the first, another block of the family asks for none.
pub fn blocks_that_ask()
    ensures first { (n : ℕ) (c : Content) → AsksFor n (entered_host c) 0xe48bff59 first_block }
    ensures once { (c d : Content)
        → AsksOnce c d Arm 0xe48bff59 (entered_host c) (PowerOn ∷ first_block ∷ End ∷ []) }
    ensures further { (n : ℕ) (c : Content)
        → AsksFor n (begun_host c) 0xe48bff59 first_block → ⊥ }
    ensures other { (n : ℕ) (c : Content) → AsksFor n (entered_host c) 0xe48bff5a first_block → ⊥ }
{}

/// A trial image that runs after an update buys itself. It raises no row, so it is kept.
pub fn a_buy_of_a_trial()
    ensures begins { BeginsBuy runs_trial a_buy }
    ensures kept { IsBuyKept Arm a_buy }
{}
