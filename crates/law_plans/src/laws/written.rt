//! Laws of written images, each the contract of a function that does nothing.

ghost use Rattle.std.specs.Prelude.{◌≡◌, ◌↔◌, ◌*◌, ◌<◌, ◌≤◌, ◌/◌, ◌+◌, ◌%◌, ℕ, Bool, true, List, All, length, replicate, ◌++◌, ◌-◌, slice_index};
ghost use Rattle.pico_board.specs.Content.{Content, IsContent, window_bytes};
ghost use Rattle.pico_board.specs.Steps.{after_all};
ghost use Rattle.pico_board.specs.declared.boot.Cpu.{Cpu};
ghost use Rattle.pico_board.specs.declared.window.Window.{Window};
ghost use Rattle.pico_board.specs.declared.window.TheConstants.{MOST_FLASH_BYTES};
ghost use Rattle.block_codec.specs.Blocks.{BlockAt, BlockView, block_size};
ghost use Rattle.block_codec.specs.Erased.{IsErasedFrom};
ghost use Rattle.image_def.specs.declared.started.Started.{Started};
ghost use Rattle.load_map.specs.Stored.{AreStoredIn};
ghost use Rattle.image_check.specs.Addressing.{in_flash};
ghost use Rattle.image_check.specs.SameImage.{AgreeFrom};
ghost use Rattle.image_check.specs.Valid.{IsValidImage};
ghost use Rattle.image_check.specs.Changes.{moved_to};
ghost use Rattle.image_pack.specs.declared.spec.SealSpec.{SealSpec};
ghost use Rattle.image_pack.specs.Faults.{IsSealed, block_offset};
ghost use Rattle.image_pack.specs.Filling.{padded, round_up, whole_sectors};
ghost use Rattle.image_pack.specs.ReadBack.{IsHalves, MeetsRollback};
ghost use Rattle.image_pack.specs.Sealing.{sealed_text};
ghost use Rattle.image_pack.specs.Unsealable.{KeepsRules};
ghost use Rattle.law_plans.specs.Written.{HasNoLowBlockPast, plan_steps, planned};

/// Suppose that an image is valid in a window with 0xff from an offset on, and that its load map
/// stores nothing at or past that offset. Let another window have the same bytes before the
/// offset, and no block that begins in its first sector and ends past the offset. Then the image
/// is valid in that window too.
pub fn what_stands_behind_an_image()
    ensures { (one two : List ℕ) (n : ℕ) (w : Window) (cpu : Cpu) (trial : Bool) (otp : List ℕ)
        (s : Started) (v : IsValidImage in_flash w cpu trial otp one s)
        → length two ≡ length one → length one ≤ MOST_FLASH_BYTES
        → IsErasedFrom one n (length one) → AgreeFrom one two 0 n
        → AreStoredIn n v.sound.loads → HasNoLowBlockPast n two
        → IsValidImage in_flash w cpu trial otp two s }
{}

/// What is asked of low blocks there, and what is told of them below, is just this: each block that
/// begins below offset 4096 ends at or before n.
pub fn low_blocks_end_before()
    ensures { (n : ℕ) (bytes : List ℕ) → HasNoLowBlockPast n bytes
        ↔ ((x : ℕ) (b : BlockView) → x < 4096 → BlockAt bytes x b → x + block_size b ≤ n) }
{}

/// What a plan's steps leave in the window: the image, 0 to the end of its last page, 0xff to the
/// end of its last sector, and then what was there.
pub fn the_steps_of_a_plan_write_the_image()
    ensures bytes { (c : Content) (w : Window) (s : ℕ) (image : List ℕ)
        → w.start ≡ 4096 * s → w.len % 4096 ≡ 0 → w.start + w.len ≤ length c.flash
        → 0 < length image → length image ≤ w.len → All (λ b. b < 256) image
        → window_bytes (after_all c (plan_steps s image)) w
        ≡ planned image (window_bytes c w) }
    ensures front { (image old : List ℕ) (i : ℕ) → i < length image
        → slice_index (planned image old) i ≡ slice_index image i }
    ensures page { (image old : List ℕ) (i : ℕ) → length image ≤ i → i < round_up 256 (length image)
        → slice_index (planned image old) i ≡ 0 }
    ensures sector { (image old : List ℕ) (i : ℕ) → round_up 256 (length image) ≤ i
        → i < round_up 4096 (length image) → slice_index (planned image old) i ≡ 255 }
    ensures behind { (image old : List ℕ) (i : ℕ) → round_up 4096 (length image) ≤ i
        → slice_index (planned image old) i ≡ slice_index old i }
    ensures long { (image old : List ℕ) → round_up 4096 (length image) ≤ length old
        → length (planned image old) ≡ length old }
{}

/// Suppose that an image is valid in a window filled with 0xff after its end, and that its load
/// map stores nothing at or past its end. Suppose also that in the bytes that a plan leaves of it
/// there no block begins in the first sector and ends past the image's last sector. Then the image
/// is valid in these bytes. An image of more than a sector leaves no such block.
pub fn a_planned_image_stays_valid()
    ensures valid { (w : Window) (cpu : Cpu) (trial : Bool) (otp image old : List ℕ) (s : Started)
        (v : IsValidImage in_flash w cpu trial otp (padded w.len image) s)
        → w.len % 4096 ≡ 0 → w.len ≤ MOST_FLASH_BYTES → length image ≤ w.len → length old ≡ w.len
        → AreStoredIn (length image) v.sound.loads
        → HasNoLowBlockPast (round_up 4096 (length image)) (planned image old)
        → IsValidImage in_flash w cpu trial otp (planned image old) s }
    ensures low { (image old : List ℕ) → 4096 < length image
        → HasNoLowBlockPast (round_up 4096 (length image)) (planned image old) }
{}

/// Suppose that the own loads of a sealed image's binary are stored in the binary. Suppose also
/// that in the bytes that a plan leaves of the image no block begins in the first sector and ends
/// past the image's last sector. Then the image is valid in these bytes, with trial images
/// allowed, for every OTP that meets the spec's rollback rule. The image stores nothing past its
/// end then. The sealed image of a binary of at least a sector is longer than a sector, so it
/// leaves no such block.
pub fn a_planned_sealed_image_is_valid()
    ensures valid { (binary : List ℕ) (spec : SealSpec) (sealed : IsSealed binary spec)
        (own : KeepsRules spec.cpu (whole_sectors binary)) (w : Window) (otp old : List ℕ)
        → IsHalves spec.version → MeetsRollback otp spec
        → AreStoredIn (block_offset binary) own.loads
        → w.len % 4096 ≡ 0 → w.len ≤ MOST_FLASH_BYTES → length (sealed_text binary spec) ≤ w.len
        → length old ≡ w.len
        → HasNoLowBlockPast (round_up 4096 (length (sealed_text binary spec)))
        (planned (sealed_text binary spec) old)
        → IsValidImage in_flash w spec.cpu true otp (planned (sealed_text binary spec) old)
        (moved_to w sealed.started) }
    ensures stored { (binary : List ℕ) (spec : SealSpec) (sealed : IsSealed binary spec)
        (own : KeepsRules spec.cpu (whole_sectors binary)) (w : Window) (trial : Bool)
        (otp : List ℕ) (s : Started)
        (v : IsValidImage in_flash w spec.cpu trial otp (padded w.len (sealed_text binary spec)) s)
        → IsHalves spec.version → AreStoredIn (block_offset binary) own.loads
        → w.len % 4096 ≡ 0 → w.len ≤ MOST_FLASH_BYTES → length (sealed_text binary spec) ≤ w.len
        → AreStoredIn (length (sealed_text binary spec)) v.sound.loads }
    ensures long { (binary : List ℕ) (spec : SealSpec) → IsSealed binary spec
        → 4096 ≤ length binary → 4096 < length (sealed_text binary spec) }
{}
