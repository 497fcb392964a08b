//! Premises on what the rows of an OTP say.

ghost use Rattle.std.specs.Prelude.{[], ◌∷◌, ◌++◌, replicate};
ghost use Rattle.slot_caveats.specs.declared.caveat.Caveat.{Caveat};
ghost use Rattle.slot_caveats.specs.OtpRules.{AreCriticalCaveats, AreOtpCaveats, IsSecureBoot};

/// Three of the rows 0x040 to 0x047 ask for secure boot, and two do not.
pub fn rows_of_secure_boot()
    ensures three { IsSecureBoot (replicate 0x040 0 ++ 1 ∷ 1 ∷ 1 ∷ []) (Caveat.SecureBoot ∷ []) }
    ensures two { IsSecureBoot (replicate 0x040 0 ++ 1 ∷ 1 ∷ []) [] }
{}

/// An OTP of zeros gives no caveat.
pub fn rows_of_zeros()
    ensures rows { AreOtpCaveats [] [] }
    ensures critical { AreCriticalCaveats [] [] }
{}
