//! Laws, proved: each is the `ensures` of a function that does nothing.

ghost use Rattle.std.specs.Prelude.{◌≡◌, ◌↔◌, ℕ, List, true};
ghost use Rattle.pico_board.specs.declared.boot.Cpu.{Cpu};
ghost use Rattle.image_def.specs.declared.started.Started.{Started};
ghost use Rattle.image_check.specs.SameImage.{HoldsImage};
ghost use Rattle.boot_sweep.specs.Firms.{IsFirm};
ghost use Rattle.boot_firm.specs.Firmness.{is_firm};

/// An image that a window holds is firm exactly where the function says so.
pub fn firm_images_are_judged()
    ensures { (cpu : Cpu) (bytes : List ℕ) (s : Started) → HoldsImage cpu bytes s
        → (is_firm cpu bytes s ≡ true) ↔ IsFirm cpu bytes s }
{}
