//! Laws of rollback rows: what counts, what is raised, and what raises leave, done or torn.

ghost use Rattle.std.specs.Prelude.{◌≡◌, ◌≢◌, ◌↔◌, ◌⊎◌, ℕ, ◌+◌, ◌-◌, ◌*◌, ◌^◌, ◌<◌, ◌≤◌, min, max, List, [], ◌∷◌, ◌++◌, All, Contains, length, slice_index, bit_or, count_ones};
ghost use Rattle.std.specs.Int.{bit_at};
ghost use Rattle.std.specs.List.{AllByRecursion};
ghost use Rattle.otp_roll.specs.Rows.{AreRowsApart, AreRollbackRows, IsOutside, IsRollbackVersion, Rises, majority, count};
ghost use Rattle.otp_roll.specs.Raises.{lowest_clear, raises};
ghost use Rattle.otp_roll.specs.Flags.{flash_off, rollback_required, slot_size};
ghost use Rattle.pico_board.specs.Content.{Content, IsContent};
ghost use Rattle.pico_board.specs.Steps.{CutOf, HasBitsOf, IsRaise, IsRaisedIn, IsStepIn, MayLeave, Torn, after, after_all};
ghost use Rattle.pico_board.specs.declared.Step.{Step};
ghost use Rattle.pico_board.specs.declared.Step.TheVariants.{Raise};

/// A bit is in the majority of a triple exactly where at least two of its rows have it.
pub fn a_majority_is_what_two_rows_have()
    ensures { (otp : List ℕ) (r k : ℕ) → (bit_at (majority otp r) k ≡ 1)
        ↔ (2 ≤ bit_at (slice_index otp r) k
        + bit_at (slice_index otp (r + 1)) k + bit_at (slice_index otp (r + 2)) k) }
{}

/// A triple has its row and the two after it, and the triples of two listed rows share no row.
pub fn a_triple_has_three_rows()
    ensures outside { (i r : ℕ) → IsOutside i r ↔ ((i ≢ r) × (i ≢ r + 1) × (i ≢ r + 2)) }
    ensures apart { (r s : ℕ) → AreRowsApart r s ↔ ((i : ℕ) → IsOutside i r ⊎ IsOutside i s) }
{}

/// The `n` lowest clear bits of a row are clear in it. Every bit below one of them is set in the
/// row, or is one of them. They are `n`, or all clear bits of the row where it has fewer.
pub fn the_lowest_clear_bits_of_a_row()
    ensures clear { (n v k : ℕ) → bit_at (lowest_clear n v) k ≡ 1 → bit_at v k ≡ 0 }
    ensures lowest { (n v j k : ℕ) → j < k → bit_at (lowest_clear n v) k ≡ 1
        → (bit_at v j ≡ 1) ⊎ (bit_at (lowest_clear n v) j ≡ 1) }
    ensures number { (n v : ℕ) → v < 2 ^ 24
        → count_ones (bit_or v (lowest_clear n v)) ≡ count_ones v + min n (24 - count_ones v) }
{}

/// No majority loses a bit, and no count falls, where OTP bits are only raised.
pub fn a_count_never_falls()
    ensures count { (old new rows : List ℕ) → Rises old new → count old rows ≤ count new rows }
    ensures majority { (old new : List ℕ) (r : ℕ) → Rises old new
        → HasBitsOf (majority new r) (majority old r) }
{}

/// Nothing is raised where the count is at the version already, or no row is listed.
pub fn no_raise_at_the_version()
    ensures reached { (otp rows : List ℕ) (version : ℕ) → version ≤ count otp rows
        → raises otp rows version ≡ [] }
    ensures no_rows { (otp : List ℕ) (version : ℕ) → raises otp [] version ≡ [] }
{}

/// One list of rows follows another. The rows of the first list are raised to the part of the
/// version that the last rows do not count. Then the last rows are raised to the part that the
/// first rows cannot hold.
pub fn raises_of_appended_rows()
    ensures { (otp xs ys : List ℕ) (version : ℕ) → All (λ v. v < 2 ^ 24) otp
        → raises otp (xs ++ ys) version
        ≡ raises otp xs (version - count otp ys) ++ raises otp ys (version - 24 * length xs) }
{}

/// Each of the steps is a raise of a row of a listed triple, inside the OTP, by bits of a row.
pub fn raises_are_of_listed_triples()
    ensures raises { (otp rows : List ℕ) (version : ℕ)
        → AllByRecursion IsRaise (raises otp rows version) }
    ensures listed { (otp rows : List ℕ) (version i bits : ℕ)
        → Contains (raises otp rows version) (Raise i bits)
        → (r : ℕ) × Contains rows r × ¬ (IsOutside i r) }
    ensures inside { (n : ℕ) (otp rows : List ℕ) (version : ℕ) → AreRollbackRows rows
        → All (IsStepIn n) (raises otp rows version) }
{}

/// After the raises the count is the greater of the version and the former count.
pub fn raises_reach_the_version()
    ensures { (c : Content) (rows : List ℕ) (version : ℕ) → IsContent c → AreRollbackRows rows
        → IsRollbackVersion version rows
        → count (after_all c (raises c.otp rows version)).otp rows
        ≡ max version (count c.otp rows) }
{}

/// A row that no step of a list raises is as it was, whether the list is done or torn.
pub fn rows_that_no_step_raises_stay()
    ensures { (c : Content) (steps : List Step) (d : Content) (i : ℕ)
        → ((r bits : ℕ) → Contains steps (Raise r bits) → i ≢ r) → MayLeave c steps d
        → slice_index d.otp i ≡ slice_index c.otp i }
{}

/// Raises, done or torn, leave the flash and every row outside the listed triples. So they leave
/// the boot flags and the slot size.
pub fn raises_leave_the_rest()
    ensures flash { (c : Content) (rows : List ℕ) (version : ℕ) (d : Content)
        → MayLeave c (raises c.otp rows version) d → d.flash ≡ c.flash }
    ensures rows { (c : Content) (rows : List ℕ) (version i : ℕ) (d : Content)
        → All (IsOutside i) rows
        → MayLeave c (raises c.otp rows version) d → slice_index d.otp i ≡ slice_index c.otp i }
    ensures required { (c : Content) (rows : List ℕ) (version : ℕ) (d : Content)
        → AreRollbackRows rows
        → MayLeave c (raises c.otp rows version) d
        → rollback_required d.otp ≡ rollback_required c.otp }
    ensures flash_off { (c : Content) (rows : List ℕ) (version : ℕ) (d : Content)
        → AreRollbackRows rows
        → MayLeave c (raises c.otp rows version) d → flash_off d.otp ≡ flash_off c.otp }
    ensures slot_size { (c : Content) (rows : List ℕ) (version n : ℕ) (d : Content)
        → AreRollbackRows rows
        → MayLeave c (raises c.otp rows version) d → slot_size d.otp n ≡ slot_size c.otp n }
{}

/// What the loss of power in the raises leaves lies bit by bit between the rows before and after
/// the raises. So does each majority and each count.
pub fn a_cut_of_raises_stays_between()
    ensures bits { (c d : Content) (rows : List ℕ) (version : ℕ)
        → CutOf c (raises c.otp rows version) d
        → IsRaisedIn c d (after_all c (raises c.otp rows version)) }
    ensures majority { (c d : Content) (rows : List ℕ) (version r : ℕ)
        → CutOf c (raises c.otp rows version) d
        → HasBitsOf (majority d.otp r) (majority c.otp r)
        × HasBitsOf (majority (after_all c (raises c.otp rows version)).otp r) (majority d.otp r) }
    ensures count { (c d : Content) (rows others : List ℕ) (version : ℕ)
        → CutOf c (raises c.otp rows version) d
        → (count c.otp others ≤ count d.otp others)
        × (count d.otp others ≤ count (after_all c (raises c.otp rows version)).otp others) }
{}

/// A torn raise adds to a majority only bits that the finished raise adds.
pub fn a_torn_raise_adds_no_other_bit()
    ensures { (c : Content) (row bits : ℕ) (d : Content) (r : ℕ) → Torn c (Raise row bits) d
        → HasBitsOf (majority d.otp r) (majority c.otp r)
        × HasBitsOf (majority (after c (Raise row bits)).otp r) (majority d.otp r) }
{}
