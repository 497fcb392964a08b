//! Worked examples of the definitions, proved by computing: each is the `ensures` of a function
//! that does nothing.

ghost use Rattle.std.specs.Prelude.{◌≡◌, None, Some, true, false};
ghost use Rattle.slot_choice.specs.declared.unit.Member.TheVariants.{A, B};
ghost use Rattle.boot_reasons.specs.declared.slots.TableReason.{TableReason};
ghost use Rattle.boot_reasons.specs.declared.looks.UnitReason.{UnitReason};
ghost use Rattle.boot_reasons.specs.Slots.{in_force, table_in_force};
ghost use Rattle.boot_reasons.specs.Looks.{taken_image, taken_of};
ghost use Rattle.boot_reasons.specs.Examples.{example_image, example_table, window_of_a, window_of_b};

/// Whose table is that of the flash, for each reason and on both sides of it. Where two reasons
/// hold, the first of them is the answer.
pub fn reasons_for_tables()
    ensures none { table_in_force None None ≡ None }
    ensures only_first { table_in_force (Some (example_table 1 0 true)) None
        ≡ in_force 0 TableReason.Only }
    ensures only_second { table_in_force None (Some (example_table 1 0 false))
        ≡ in_force 1 TableReason.Only }
    ensures singleton { table_in_force (Some (example_table 1 0 true))
        (Some (example_table 2 0 false))
        ≡ in_force 0 TableReason.Singleton }
    ensures singleton_of_one_version { table_in_force (Some (example_table 1 0 true))
        (Some (example_table 1 0 true)) ≡ in_force 0 TableReason.Singleton }
    ensures second_singleton { table_in_force (Some (example_table 1 0 false))
        (Some (example_table 1 0 true)) ≡ in_force 0 TableReason.Tie }
    ensures lower_minor { table_in_force (Some (example_table 1 9 false))
        (Some (example_table 1 10 false)) ≡ in_force 1 TableReason.Version }
    ensures higher_major { table_in_force (Some (example_table 2 0 false))
        (Some (example_table 1 10 false)) ≡ in_force 0 TableReason.Version }
    ensures tie { table_in_force (Some (example_table 1 9 false)) (Some (example_table 1 9 false))
        ≡ in_force 0 TableReason.Tie }
{}

/// Which image is taken, for each reason and on both sides of it. Where two reasons hold, the
/// first of them is the answer.
pub fn reasons_for_images()
    ensures none { taken_of (Some A) None None ≡ None }
    ensures only_first { taken_of None (Some (example_image window_of_a 1 0)) None
        ≡ taken_image A UnitReason.Only (example_image window_of_a 1 0) }
    ensures only_second { taken_of None None (Some (example_image window_of_b 1 0))
        ≡ taken_image B UnitReason.Only (example_image window_of_b 1 0) }
    ensures updated_alone { taken_of (Some A) (Some (example_image window_of_a 1 0)) None
        ≡ taken_image A UnitReason.Updated (example_image window_of_a 1 0) }
    ensures updated_second { taken_of (Some B) (Some (example_image window_of_a 2 0))
        (Some (example_image window_of_b 1 0))
        ≡ taken_image B UnitReason.Updated (example_image window_of_b 1 0) }
    ensures updated_lacks { taken_of (Some B) (Some (example_image window_of_a 1 0)) None
        ≡ taken_image A UnitReason.Only (example_image window_of_a 1 0) }
    ensures greater_second { taken_of None (Some (example_image window_of_a 1 9))
        (Some (example_image window_of_b 1 10))
        ≡ taken_image B UnitReason.Version (example_image window_of_b 1 10) }
    ensures greater_first { taken_of None (Some (example_image window_of_a 2 0))
        (Some (example_image window_of_b 1 10))
        ≡ taken_image A UnitReason.Version (example_image window_of_a 2 0) }
    ensures tie { taken_of None (Some (example_image window_of_a 1 9))
        (Some (example_image window_of_b 1 9))
        ≡ taken_image A UnitReason.Tie (example_image window_of_a 1 9) }
{}
