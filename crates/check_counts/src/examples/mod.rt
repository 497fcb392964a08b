//! Worked examples: each is the `ensures` of a function that does nothing.

ghost use Rattle.std.specs.Prelude.{◌≡◌, ◌∷◌, [], true, false};
ghost use Rattle.boot_rules.specs.declared.decision.Decision.TheVariants as decisions;
ghost use Rattle.boot_rules.specs.declared.decision.Fall.TheVariants.{NoImage};
ghost use Rattle.cut_class.specs.declared.class.Class.TheVariants.{Former, Finished, Whole, Tail, Mixed, Bootsel};
ghost use Rattle.slot_choice.specs.declared.choice.Choice.{Choice};
ghost use Rattle.slot_caveats.specs.declared.caveat.Caveat.TheVariants.{ImageInSlot, SecureBoot, TableOrder, TableTie};
ghost use Rattle.check_counts.specs.CaveatsSeen.{firsts, has_caveat};
ghost use Rattle.check_counts.specs.Examples.{class_counts, plain_facts, seen_so};
ghost use Rattle.check_counts.specs.Tallies.{begun, counted, counted_each, seen_first, seen_with, with_all, with_facts};

/// A caveat that comes again is told where it comes first. One that tells another slot is another
/// one.
pub fn caveats_that_come_first()
    ensures again { firsts (TableTie ∷ SecureBoot ∷ TableTie ∷ []) ≡ TableTie ∷ SecureBoot ∷ [] }
    ensures others { firsts (ImageInSlot 1 ∷ ImageInSlot 0 ∷ ImageInSlot 1 ∷ [])
        ≡ ImageInSlot 1 ∷ ImageInSlot 0 ∷ [] }
    ensures variants { firsts (ImageInSlot 0 ∷ TableOrder 0 ∷ [])
        ≡ ImageInSlot 0 ∷ TableOrder 0 ∷ [] }
    ensures none { has_caveat (ImageInSlot 0 ∷ []) (ImageInSlot 1) ≡ false }
{}

/// Those before the script come first, and then those after it. Each says on which of the two it
/// holds.
pub fn caveats_of_the_two_ends()
    ensures { seen_first (TableTie ∷ ImageInSlot 0 ∷ []) (SecureBoot ∷ TableTie ∷ [])
        ≡ seen_so TableTie true true 0 ∷ seen_so (ImageInSlot 0) true false 0
        ∷ seen_so SecureBoot false true 0 ∷ [] }
{}

/// A cut counts once for each caveat that holds there, also for one that it has twice. A new one
/// joins at the end, and holds on neither end.
pub fn caveats_of_cuts()
    ensures counted { seen_with (seen_so TableTie true false 3 ∷ seen_so SecureBoot false true 0 ∷ [])
        (TableTie ∷ [])
        ≡ seen_so TableTie true false 4 ∷ seen_so SecureBoot false true 0 ∷ [] }
    ensures twice { seen_with (seen_so TableTie true false 3 ∷ []) (TableTie ∷ TableTie ∷ [])
        ≡ seen_so TableTie true false 4 ∷ [] }
    ensures new { seen_with (seen_so TableTie true false 3 ∷ [])
        (TableOrder 1 ∷ TableTie ∷ TableOrder 1 ∷ [])
        ≡ seen_so TableTie true false 4 ∷ seen_so (TableOrder 1) false false 1 ∷ [] }
    ensures none { seen_with (seen_so TableTie true false 3 ∷ []) []
        ≡ seen_so TableTie true false 3 ∷ [] }
{}

/// A count rises where the test holds, up to its greatest value.
pub fn counts_that_rise()
    ensures holds { counted 0 true ≡ 1 }
    ensures fails { counted 7 false ≡ 7 }
    ensures last { counted 0xffff_fffe true ≡ 0xffff_ffff }
    ensures most { counted 0xffff_ffff true ≡ 0xffff_ffff }
    ensures each { counted_each (0 ∷ 5 ∷ 2 ∷ []) (true ∷ false ∷ true ∷ []) ≡ 1 ∷ 5 ∷ 3 ∷ [] }
{}

/// A cut counts for its class. Where a boot falls it counts as a fall too, whatever its class is.
pub fn classes_that_are_counted()
    ensures former_fall { class_counts (with_facts (begun 0 [])
        (plain_facts Former (decisions.Bootsel NoImage)))
        ≡ 1 ∷ 0 ∷ 0 ∷ 0 ∷ 0 ∷ 0 ∷ 1 ∷ [] }
    ensures fall { class_counts (with_facts (begun 0 [])
        (plain_facts Bootsel (decisions.Bootsel NoImage)))
        ≡ 0 ∷ 0 ∷ 0 ∷ 0 ∷ 0 ∷ 1 ∷ 1 ∷ [] }
    ensures starts { (a b c d e : Choice) → class_counts (with_all (begun 0 [])
        (plain_facts Former (decisions.Start a) ∷ plain_facts Finished (decisions.Start b)
        ∷ plain_facts Whole (decisions.Start c) ∷ plain_facts Tail (decisions.Start d)
        ∷ plain_facts Mixed (decisions.Start e) ∷ []))
        ≡ 1 ∷ 1 ∷ 1 ∷ 1 ∷ 1 ∷ 0 ∷ 0 ∷ [] }
{}

/// Another class is told where a cut is neither former nor a fall to BOOTSEL.
pub fn cuts_of_another_class()
    ensures former { (a : Choice) → (with_facts (begun 0 [])
        (plain_facts Former (decisions.Start a))).other_class ≡ false }
    ensures fall { (with_facts (begun 0 [])
        (plain_facts Bootsel (decisions.Bootsel NoImage))).other_class ≡ false }
    ensures finished { (a : Choice) → (with_facts (begun 0 [])
        (plain_facts Finished (decisions.Start a))).other_class ≡ true }
    ensures stays { (a b : Choice) → (with_all (begun 0 [])
        (plain_facts Mixed (decisions.Start a)
        ∷ plain_facts Former (decisions.Start b) ∷ [])).other_class ≡ true }
{}
