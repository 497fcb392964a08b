//! Laws of the definitions, proved: each is the `ensures` of a function that does nothing.

ghost use Rattle.std.specs.Prelude.{◌≡◌, List};
ghost use Rattle.pico_board.specs.declared.boot.Cpu.{Cpu};
ghost use Rattle.pico_board.specs.declared.boot.BootKind.{BootKind};
ghost use Rattle.pico_board.specs.Content.{Content};
ghost use Rattle.slot_caveats.specs.declared.caveat.Caveat.{Caveat};
ghost use Rattle.boot_caveats.specs.Caveats.{caveats_in};
ghost use Rattle.boot_caveats.specs.Rules.{AreCaveats};

/// For each content, processor and boot type the rules name exactly one list of caveats: that of
/// the function.
pub fn one_list_of_caveats()
    ensures right { (c : Content) (cpu : Cpu) (kind : BootKind)
        → AreCaveats c cpu kind (caveats_in c cpu kind) }
    ensures only { (c : Content) (cpu : Cpu) (kind : BootKind) (list : List Caveat)
        → AreCaveats c cpu kind list → list ≡ caveats_in c cpu kind }
{}
