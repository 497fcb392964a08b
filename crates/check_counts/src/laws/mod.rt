//! Laws of the definitions, proved: each is the `ensures` of a function that does nothing.

ghost use Rattle.std.specs.Prelude.{List};
ghost use Rattle.pico_board.specs.Content.{Content};
ghost use Rattle.check_counts.specs.CaveatsSeen.{caveats_seen};
ghost use Rattle.check_counts.specs.Facts.{Sides};
ghost use Rattle.check_counts.specs.Rules.{AreCaveatsSeen};

/// The caveats of the function are told by the rules: each that holds before a script, after it or
/// at a cut is told once, in the order in which they come first, with where it holds.
pub fn caveats_are_told_by_the_rules()
    ensures { (s : Sides) (contents : List Content)
        → AreCaveatsSeen s.first s.last s.cpu contents (caveats_seen s contents) }
{}
