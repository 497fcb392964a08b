//! Worked examples of made flashes. Each is the `ensures` of a function that does nothing.

ghost use Rattle.std.specs.Prelude.{◌≡◌, ◌++◌};
ghost use Rattle.part_table.specs.Written.{written_table};
ghost use Rattle.image_pack.specs.Filling.{padded};
ghost use Rattle.image_pack.specs.Flashes.{generated, made_image, made_table};

/// The images of made flashes: the minor versions are the last two digits of the number, and the
/// seed after the greatest is 0.
pub fn images_of_made_flashes()
    ensures digits { generated 129 ≡ padded 0x2000 (written_table made_table)
        ++ (padded 0x40000 (made_image 129 9) ++ padded 0xbe000 (made_image 130 2)) }
    ensures greatest { generated 4294967295 ≡ padded 0x2000 (written_table made_table)
        ++ (padded 0x40000 (made_image 4294967295 5) ++ padded 0xbe000 (made_image 0 9)) }
{}
