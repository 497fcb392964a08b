//! Worked images that lack one of the conditions of a firm image and have the others, by
//! computing. Each is the `ensures` of a function that does nothing.

ghost use Rattle.std.specs.Prelude.{◌≡◌, IsSome, None, [], drop};
ghost use Rattle.pico_board.specs.Content.{window_bytes};
ghost use Rattle.pico_board.specs.declared.boot.Cpu.TheVariants.{Arm};
ghost use Rattle.image_check.specs.SameImage.{HoldsImage};
ghost use Rattle.boot_sweep.specs.Firms.{Firm, HasNoOtherBlock, IsFirm, LoadsFront};
ghost use Rattle.law_plans.specs.Examples.{alone_on, cleared_blocks, clipped, crowded, early, firm, arm_start_at, undigested, unmapped, whole};

/// An image without a HASH_VALUE is not firm. But its definition stands after the first sector,
/// its load map stores all bytes before the definition, and the first sector has no other block.
pub fn an_image_without_a_digest()
    ensures { (held : HoldsImage Arm undigested (arm_start_at 0x1000))
        × (held.image.def.digest ≡ None)
        × LoadsFront 0x1000 held.sound.loads
        × HasNoOtherBlock undigested held.sound.loop
        × (IsFirm Arm undigested (arm_start_at 0x1000) → ⊥) }
{}

/// An image without a load map is not firm. But its definition stands after the first sector and
/// has a digest, and the first sector has no other block.
pub fn an_image_without_a_load_map()
    ensures { (held : HoldsImage Arm unmapped (arm_start_at 0x1000))
        × IsSome held.image.def.digest
        × (held.sound.loads ≡ [])
        × HasNoOtherBlock unmapped held.sound.loop
        × (IsFirm Arm unmapped (arm_start_at 0x1000) → ⊥) }
{}

/// An image whose definition stands in the first sector is not firm. But the definition has a
/// digest, the load map stores all bytes before it, and the first sector has no other block.
pub fn an_image_with_an_early_definition()
    ensures { (held : HoldsImage Arm early (arm_start_at 0x100))
        × IsSome held.image.def.digest
        × LoadsFront 0x100 held.sound.loads
        × HasNoOtherBlock early held.sound.loop
        × (IsFirm Arm early (arm_start_at 0x100) → ⊥) }
{}

/// An image whose load map stores all but the last byte before its definition is not firm. But the
/// definition stands after the first sector and has a digest, and the first sector has no other
/// block.
pub fn an_image_whose_map_leaves_a_byte_out()
    ensures { (held : HoldsImage Arm clipped (arm_start_at 0x1000))
        × IsSome held.image.def.digest
        × LoadsFront 0xfff held.sound.loads
        × HasNoOtherBlock clipped held.sound.loop
        × (IsFirm Arm clipped (arm_start_at 0x1000) → ⊥) }
{}

/// An image whose load map stores all bytes before its definition in its second entry is not firm.
/// But the definition stands after the first sector and has a digest, and the first sector has no
/// other block.
pub fn an_image_whose_map_begins_with_another_entry()
    ensures { (held : HoldsImage Arm cleared_blocks (arm_start_at 0x1000))
        × IsSome held.image.def.digest
        × LoadsFront 0x1000 (drop 1 held.sound.loads)
        × HasNoOtherBlock cleared_blocks held.sound.loop
        × (IsFirm Arm cleared_blocks (arm_start_at 0x1000) → ⊥) }
{}

/// An image with one more block in the first sector, which is none of its loop, is not firm. But
/// its definition stands after the first sector and has a digest, and its load map stores all
/// bytes before the definition.
pub fn an_image_with_another_block()
    ensures { (held : HoldsImage Arm crowded (arm_start_at 0x1000))
        × IsSome held.image.def.digest
        × LoadsFront 0x1000 held.sound.loads
        × (HasNoOtherBlock crowded held.sound.loop → ⊥)
        × (IsFirm Arm crowded (arm_start_at 0x1000) → ⊥) }
{}

/// An image with all of these conditions is firm.
pub fn a_firm_image()
    ensures { IsFirm Arm firm (arm_start_at 0x1000) }
{}

/// The firm image is firm alone in a flash. Where the OTP requires rollback versions, it is not
/// firm. It has all of these conditions there, but it has no rollback version, so it is not valid.
pub fn a_firm_image_on_two_flashes()
    ensures firm { Firm (alone_on 0) whole Arm (arm_start_at 0x1000) }
    ensures required { IsFirm Arm (window_bytes (alone_on 1) whole) (arm_start_at 0x1000)
        × (Firm (alone_on 1) whole Arm (arm_start_at 0x1000) → ⊥) }
{}
