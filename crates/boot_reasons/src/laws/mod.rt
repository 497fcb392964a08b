//! Laws of the definitions, proved: each is the `ensures` of a function that does nothing.

ghost use Rattle.std.specs.Prelude.{◌≡◌, ℕ, [], Some, slice_get};
ghost use Rattle.pico_board.specs.declared.boot.Cpu.{Cpu};
ghost use Rattle.pico_board.specs.declared.boot.BootKind.{BootKind};
ghost use Rattle.pico_board.specs.Content.{Content};
ghost use Rattle.boot_rules.specs.declared.decision.Decision.TheVariants.{Bootsel};
ghost use Rattle.boot_rules.specs.declared.decision.Fall.TheVariants.{NoImage};
ghost use Rattle.boot_rules.specs.Tables.{table_of_content};
ghost use Rattle.boot_reasons.specs.declared.looks.UnitReport.{UnitReport};
ghost use Rattle.boot_reasons.specs.declared.looks.TakenImage.{TakenImage};
ghost use Rattle.boot_reasons.specs.declared.reasons.Reasons.{Reasons};
ghost use Rattle.boot_reasons.specs.Reasons.{reasons_in, table_of_reasons};
ghost use Rattle.boot_reasons.specs.Rules.{FallsBefore, IsExplained, StartsTaken, TakeNone};

/// For each content, processor and boot type the rules name exactly one list of reasons: that of
/// the function.
pub fn one_explanation()
    ensures right { (c : Content) (cpu : Cpu) (kind : BootKind)
        → IsExplained c cpu kind (reasons_in c cpu kind) }
    ensures only { (c : Content) (cpu : Cpu) (kind : BootKind) (r : Reasons)
        → IsExplained c cpu kind r → r ≡ reasons_in c cpu kind }
{}

/// The table in force of the reasons is the table of the flash, where it has one.
pub fn the_table_in_force_is_that_of_the_flash()
    ensures { (c : Content) (cpu : Cpu) (kind : BootKind) (r : Reasons)
        → IsExplained c cpu kind r
        → table_of_reasons r ≡ table_of_content c }
{}

/// Where units are looked at, the first unit that takes an image takes that of the decision. Where
/// no unit takes an image, the decision is NoImage. A boot that falls before looks at no unit.
pub fn the_first_taken_is_the_decision()
    ensures taken { (c : Content) (cpu : Cpu) (kind : BootKind) (r : Reasons) (k : ℕ)
        (look : UnitReport)
        (taken : TakenImage) → IsExplained c cpu kind r → slice_get r.looks.items k ≡ Some look
        → look.taken ≡ Some taken → StartsTaken look taken r.decision }
    ensures none { (c : Content) (cpu : Cpu) (kind : BootKind) (r : Reasons)
        → IsExplained c cpu kind r → (FallsBefore c kind → ⊥) → TakeNone r.looks.items
        → r.decision ≡ Bootsel NoImage }
    ensures before { (c : Content) (cpu : Cpu) (kind : BootKind) (r : Reasons)
        → IsExplained c cpu kind r → FallsBefore c kind
        → (r.looks.items ≡ []) × (r.unreached ≡ 0) }
{}
