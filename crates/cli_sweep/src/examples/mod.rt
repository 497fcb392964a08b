//! Worked examples of the definitions, proved by computing: each is the `ensures` of a function
//! that does nothing.

ghost use Rattle.std.specs.Prelude.{◌≡◌, [], codes, None, Some, true, false};
ghost use Rattle.boot_sweep.specs.declared.error.SweepError.TheVariants.{FormerInSlot, NotConfined, NotGated, TableChanged, TooManySteps};
ghost use Rattle.pico_board.specs.declared.boot.Cpu.TheVariants.{Arm};
ghost use Rattle.cli_course.specs.declared.status.Status.TheVariants.{Done};
ghost use Rattle.cli_course.specs.Outcomes.{refused, worked};
ghost use Rattle.cli_sweep.specs.FirmWorks.{firm_line, firm_work};
ghost use Rattle.cli_sweep.specs.SweepWorks.{sweep_fault, swept_work};

/// Why a session is not swept, and which file is refused for it. The lines of a session that is
/// swept.
pub fn sweep_faults()
    ensures confined { sweep_fault (NotConfined 0) ≡ codes "not-confined 0" }
    ensures gated { sweep_fault (NotGated 31) ≡ codes "not-gated 31" }
    ensures many { sweep_fault TooManySteps ≡ codes "too-many-steps" }
    ensures former { sweep_fault FormerInSlot ≡ codes "former-in-slot" }
    ensures table { sweep_fault TableChanged ≡ codes "table-changed" }
    ensures told { worked (swept_work (codes "s") (codes "t") (Some TableChanged))
        ≡ refused (codes "s") (codes "table-changed") }
    ensures lines { worked (swept_work (codes "s") (codes "t") None)
        ≡ record { status = Done; text = codes "t"; files = [] } }
{}

/// What is printed of an image.
pub fn firm_texts()
    ensures yes { firm_line true ≡ codes "firm yes\n" }
    ensures no { firm_line false ≡ codes "firm no\n" }
    ensures empty { worked (firm_work (codes "i") [] Arm) ≡ refused (codes "i") (codes "empty") }
{}
