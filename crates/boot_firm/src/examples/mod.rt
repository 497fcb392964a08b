//! Worked examples of the definitions, proved by computing: each is the `ensures` of a function
//! that does nothing.

ghost use Rattle.std.specs.Prelude.{◌≡◌, [], ◌∷◌, Err, None, Some, pos, true, false};
ghost use Rattle.block_loop.specs.declared.fault.LoopFault.TheVariants.{Broken};
ghost use Rattle.image_check.specs.declared.why.Why.{Why};
ghost use Rattle.load_map.specs.declared.load.MapFault.{MapFault};
ghost use Rattle.boot_firm.specs.Firmness.{has_front, is_alone, is_covered, is_of_loop, loads_front};

/// A load that has all bytes before an offset, and one that has not. With a wrong load map, and
/// without a definition, no load has them.
pub fn loads_in_front()
    ensures whole { loads_front 4096 (record { storage = Some 0; runtime = 0; size = 4096 } ∷ [])
        ≡ true }
    ensures late { loads_front 4096 (record { storage = Some 4; runtime = 0; size = 4096 } ∷ [])
        ≡ false }
    ensures short { loads_front 4096 (record { storage = Some 0; runtime = 0; size = 4095 } ∷ [])
        ≡ false }
    ensures clear { loads_front 4096 (record { storage = None; runtime = 0; size = 4096 } ∷ [])
        ≡ false }
    ensures second { loads_front 4096 (record { storage = None; runtime = 0; size = 4 }
        ∷ record { storage = Some 0; runtime = 0; size = 4096 } ∷ []) ≡ false }
    ensures none { loads_front 4096 [] ≡ false }
    ensures faulty { has_front 4096 (Err (Why.Map (MapFault.Storage 0))) ≡ false }
    ensures undefined { is_covered [] 4096 (Err Why.NoDefinition) ≡ false }
{}

/// A block is one of a loop by its place. Where the loop does not close, no block is one of it.
pub fn blocks_of_a_loop()
    ensures there { is_of_loop (record { at = 256; items = []; link = pos 0 } ∷ [])
        (Some (record { at = 256; items = []; link = pos 0 })) ≡ true }
    ensures elsewhere { is_of_loop (record { at = 256; items = []; link = pos 0 } ∷ [])
        (Some (record { at = 260; items = []; link = pos 0 })) ≡ false }
    ensures none { is_of_loop [] None ≡ true }
    ensures broken { is_alone [] (Err (Broken 256)) ≡ false }
{}
