//! Worked examples of the choice, proved by computing: each is the `ensures` of a function that
//! does nothing.

pub mod flash;
pub mod table;

ghost use Rattle.std.specs.Prelude.{◌≡◌, [], ◌∷◌, true, false, Some, None};
ghost use Rattle.pico_board.specs.declared.boot.BootKind.TheVariants.{Normal, Update};
ghost use Rattle.worked_flashes.specs.Tables.{the_pair, unit_one, unit_two};
ghost use Rattle.slot_choice.specs.Examples.{window_at};
ghost use Rattle.boot_rules.specs.declared.decision.Decision.TheVariants.{Bootsel};
ghost use Rattle.boot_rules.specs.declared.decision.Fall.TheVariants.{NoImage};
ghost use Rattle.boot_rules.specs.Choosing.{choose, order_of, decision_of};
ghost use Rattle.worked_flashes.specs.Images.{image_of_version, in_a, in_b};
ghost use Rattle.boot_rules.specs.Examples.{images_at, pair_images};
ghost use Rattle.worked_flashes.specs.Choices.{starts_a, starts_b, starts_alone};

/// A normal boot of a pair starts the greater version, by major and then minor, A where they are
/// equal, and the only image.
pub fn the_greater_version_starts()
    ensures minor { choose (pair_images (Some (in_a 1 9 false)) (Some (in_b 1 10 false)))
        (order_of Normal (the_pair ∷ [])) ≡ Some (starts_b false (in_b 1 10 false)) }
    ensures major { choose (pair_images (Some (in_a 2 0 false)) (Some (in_b 1 10 false)))
        (order_of Normal (the_pair ∷ [])) ≡ Some (starts_a false (in_a 2 0 false)) }
    ensures tie { choose (pair_images (Some (in_a 1 9 false)) (Some (in_b 1 9 false)))
        (order_of Normal (the_pair ∷ [])) ≡ Some (starts_a false (in_a 1 9 false)) }
    ensures only_first { choose (pair_images (Some (in_a 1 9 false)) None)
        (order_of Normal (the_pair ∷ [])) ≡ Some (starts_a false (in_a 1 9 false)) }
    ensures only_second { choose (pair_images None (Some (in_b 1 9 false)))
        (order_of Normal (the_pair ∷ [])) ≡ Some (starts_b false (in_b 1 9 false)) }
    ensures none { decision_of (choose (pair_images None None) (order_of Normal (the_pair ∷ [])))
        ≡ Bootsel NoImage }
    ensures no_unit { decision_of
        (choose (pair_images (Some (in_a 1 9 false)) None) (order_of Normal [])) ≡ Bootsel
        NoImage }
{}

/// A trial image of version 1.1 in B starts where a flash-update boot names B, and then alone.
pub fn a_trial_starts_in_its_update()
    ensures normal { choose (pair_images (Some (in_a 1 0 false)) (Some (in_b 1 1 true)))
        (order_of Normal (the_pair ∷ [])) ≡ Some (starts_a false (in_a 1 0 false)) }
    ensures update { choose (pair_images (Some (in_a 1 0 false)) (Some (in_b 1 1 true)))
        (order_of (Update 0x10020000) (the_pair ∷ [])) ≡ Some (starts_b true (in_b 1 1 true)) }
    ensures elsewhere { choose (pair_images (Some (in_a 1 0 false)) (Some (in_b 1 1 true)))
        (order_of (Update 0x10003000) (the_pair ∷ [])) ≡ Some (starts_a false (in_a 1 0 false)) }
    ensures below_flash { choose (pair_images (Some (in_a 1 0 false)) (Some (in_b 1 1 true)))
        (order_of (Update 0x20000) (the_pair ∷ [])) ≡ Some (starts_a false (in_a 1 0 false)) }
    ensures other_member { choose (pair_images (Some (in_a 1 0 false)) (Some (in_b 1 1 true)))
        (order_of (Update 0x10002000) (the_pair ∷ [])) ≡ Some (starts_a true (in_a 1 0 false)) }
    ensures trial_alone { decision_of
        (choose (pair_images None (Some (in_b 1 1 true)))
        (order_of (Update 0x10002000) (the_pair ∷ []))) ≡ Bootsel NoImage }
{}

/// An update starts its member though the other one has the greater version, and the other one
/// where its member has no image.
pub fn an_update_goes_before_versions()
    ensures lesser { choose (pair_images (Some (in_a 2 0 false)) (Some (in_b 1 0 false)))
        (order_of (Update 0x10020000) (the_pair ∷ [])) ≡ Some (starts_b true (in_b 1 0 false)) }
    ensures missing { choose (pair_images (Some (in_a 1 0 false)) None)
        (order_of (Update 0x10020000) (the_pair ∷ [])) ≡ Some (starts_a false (in_a 1 0 false)) }
    ensures neither { decision_of
        (choose (pair_images None None) (order_of (Update 0x10020000) (the_pair ∷ []))) ≡ Bootsel
        NoImage }
{}

/// Units are tried in table order, and the updated member's unit before the others; in those, no
/// trial counts.
pub fn units_are_tried_in_order()
    ensures first { choose
        (images_at 0x2000 (Some (image_of_version (window_at 0x2000 0x2000) 1 0 false)) 0x4000
        (Some (image_of_version (window_at 0x4000 0x2000) 2 0 false)))
        (order_of Normal (unit_one ∷ unit_two ∷ [])) ≡ Some
        (starts_alone false (image_of_version (window_at 0x2000 0x2000) 1 0 false)) }
    ensures second { choose
        (images_at 0x2000 None 0x4000 (Some (image_of_version (window_at 0x4000 0x2000) 2 0 false)))
        (order_of Normal (unit_one ∷ unit_two ∷ [])) ≡ Some
        (starts_alone false (image_of_version (window_at 0x4000 0x2000) 2 0 false)) }
    ensures updated { choose
        (images_at 0x2000 (Some (image_of_version (window_at 0x2000 0x2000) 1 0 false)) 0x4000
        (Some (image_of_version (window_at 0x4000 0x2000) 2 0 true)))
        (order_of (Update 0x10004000) (unit_one ∷ unit_two ∷ [])) ≡ Some
        (starts_alone true (image_of_version (window_at 0x4000 0x2000) 2 0 true)) }
    ensures not_updated { choose
        (images_at 0x2000 (Some (image_of_version (window_at 0x2000 0x2000) 1 0 true)) 0x4000
        (Some (image_of_version (window_at 0x4000 0x2000) 2 0 true)))
        (order_of (Update 0x10004000) (unit_one ∷ unit_two ∷ [])) ≡ Some
        (starts_alone true (image_of_version (window_at 0x4000 0x2000) 2 0 true)) }
    ensures passed { choose
        (images_at 0x2000 (Some (image_of_version (window_at 0x2000 0x2000) 1 0 false)) 0x4000 None)
        (order_of (Update 0x10004000) (unit_one ∷ unit_two ∷ [])) ≡ Some
        (starts_alone false (image_of_version (window_at 0x2000 0x2000) 1 0 false)) }
    ensures trial_passed { decision_of
        (choose
        (images_at 0x2000 (Some (image_of_version (window_at 0x2000 0x2000) 1 0 true)) 0x4000 None)
        (order_of (Update 0x10004000) (unit_one ∷ unit_two ∷ []))) ≡ Bootsel NoImage }
{}
