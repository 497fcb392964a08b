//! Worked examples, proved by computing: each is the `ensures` of a function that does nothing.

ghost use Rattle.std.specs.Prelude.{◌≡◌, List, [], ◌∷◌, Err, Ok, Some, None, false, replicate, true, ℕ};
ghost use Rattle.worked_flashes.specs.Flashes.{otp_with};
ghost use Rattle.worked_flashes.specs.Images.{plain_digest, stored_digest};
ghost use Rattle.image_check.specs.declared.why.Why.TheVariants.{Digest, Trial};
ghost use Rattle.pico_board.specs.Content.{Content};
ghost use Rattle.pico_board.specs.declared.boot.Cpu.TheVariants.{Arm, Riscv};
ghost use Rattle.picoboot_cmd.specs.Examples.{command, erase_command, padded_range_args, read_command, write_command};
ghost use Rattle.picoboot_cmd.specs.declared.kinds.TheConstants.{OTP_READ, READ, REBOOT, WRITE};
ghost use Rattle.ram_start.specs.Examples.{hashed_bytes, hashed_in_ram, image_bytes, image_in_ram, reboot_into, trial_bytes, with_rows};
ghost use Rattle.ram_start.specs.Images.{ram_image};
ghost use Rattle.ram_start.specs.Serving.{is_ram_command, is_range, ram_command, ram_served, ram_status};
ghost use Rattle.load_map.specs.Addresses.{in_sram};
ghost use Rattle.ram_start.specs.Sram.{IsSram, RamWrite, ram_after, with_bytes_at, written_ram, written_all, zero_ram};

/// A range lies in SRAM up to its last byte, and a range of no byte at either end too.
pub fn ranges_of_sram()
    ensures first { in_sram 0x20000000 1 ≡ true }
    ensures below { in_sram 0x1fffffff 1 ≡ false }
    ensures whole { in_sram 0x20000000 0x82000 ≡ true }
    ensures longer { in_sram 0x20000000 0x82001 ≡ false }
    ensures last { in_sram 0x20081fff 1 ≡ true }
    ensures end { in_sram 0x20082000 0 ≡ true }
    ensures past { in_sram 0x20082001 0 ≡ false }
{}

/// A reboot names whole words of SRAM, one at least.
pub fn ranges_of_a_reboot()
    ensures word { is_range (reboot_into 3 0x20000000 4) ≡ true }
    ensures short { is_range (reboot_into 3 0x20000000 3) ≡ false }
    ensures unaligned { is_range (reboot_into 3 0x20000002 4) ≡ false }
    ensures odd_length { is_range (reboot_into 3 0x20000000 5) ≡ true }
    ensures whole { is_range (reboot_into 3 0x20000000 0x82000) ≡ true }
    ensures past { is_range (reboot_into 3 0x20000004 0x82000) ≡ false }
    ensures flash { is_range (reboot_into 3 0x10000000 4) ≡ false }
{}

/// Which commands are served in RAM.
pub fn commands_of_ram()
    ensures read { is_ram_command (read_command 0x20000000 4) ≡ true }
    ensures read_below { is_ram_command (read_command 0x1fffffff 4) ≡ false }
    ensures write { is_ram_command (write_command 0x20000000 4) ≡ true }
    ensures above { is_ram_command (write_command 0xfffffffc 4) ≡ true }
    ensures reboot { is_ram_command (reboot_into 3 0x20000000 4) ≡ true }
    ensures exclusive { is_ram_command (reboot_into 0x103 0x20000000 4) ≡ true }
    ensures normal { is_ram_command (reboot_into 0 0x20000000 4) ≡ false }
    ensures bootsel { is_ram_command (reboot_into 2 0x20000000 4) ≡ false }
    ensures update { is_ram_command (reboot_into 4 0x20000000 4) ≡ false }
    ensures another { is_ram_command (reboot_into 0x203 0x20000000 4) ≡ false }
    ensures shorter_read { is_ram_command (command READ 7 4 (padded_range_args 0x20000000 4))
        ≡ false }
    ensures longer_write { is_ram_command (command WRITE 9 4 (padded_range_args 0x20000000 4))
        ≡ false }
    ensures shorter_reboot { is_ram_command
        (command REBOOT 15 0 (reboot_into 3 0x20000000 4).args) ≡ false }
    ensures erase { is_ram_command (erase_command 0x20000000 0x1000) ≡ false }
    ensures otp_read { is_ram_command (command OTP_READ 8 4 (padded_range_args 0x20000000 4))
        ≡ false }
{}

/// The first check that fails gives the status: most of these commands fail a later one too. A busy
/// download matters to a write alone.
pub fn the_first_check_that_fails()
    ensures busy { (c : Content) (ram : List ℕ)
        → ram_status c ram Arm true (write_command 0x20081fff 2) [] ≡ 9 }
    ensures busy_read { (c : Content) (ram : List ℕ)
        → ram_status c ram Arm true (read_command 0x20000000 4) [] ≡ 0 }
    ensures transfer { (c : Content) (ram : List ℕ)
        → ram_status c ram Arm false (write_command 0x20081fff 2) (9 ∷ []) ≡ 3 }
    ensures payload { (c : Content) (ram : List ℕ)
        → ram_status c ram Arm false (read_command 0x20081fff 2) (9 ∷ []) ≡ 3 }
    ensures outside { (c : Content) (ram : List ℕ)
        → ram_status c ram Arm false (write_command 0x20081fff 2) (9 ∷ 10 ∷ []) ≡ 4 }
    ensures inside { (c : Content) (ram : List ℕ)
        → ram_status c ram Arm false (write_command 0x20081ffe 2) (9 ∷ 10 ∷ []) ≡ 0 }
    ensures reboot { (c : Content) (ram : List ℕ)
        → ram_status c ram Arm true (reboot_into 3 0x20000002 4) (9 ∷ []) ≡ 3 }
    ensures range { (c : Content) (ram : List ℕ)
        → ram_status c ram Arm true (reboot_into 3 0x20000002 4) [] ≡ 11 }
    ensures no_image { (c : Content)
        → ram_status c (0 ∷ 0 ∷ 0 ∷ 0 ∷ []) Arm true (reboot_into 3 0x20000000 4) [] ≡ 13 }
{}

/// What a command does whose status is 0. A write stores its bytes, a read is answered with those
/// of its range, and neither starts an image. With another status nothing is done.
pub fn what_ram_commands_do()
    ensures write { (c : Content)
        → ram_served 0 c (1 ∷ 2 ∷ 3 ∷ 4 ∷ []) Arm (write_command 0x20000001 2) (9 ∷ 10 ∷ [])
        ≡ record { status = 0; ram = 1 ∷ 9 ∷ 10 ∷ 4 ∷ []; reply = []; start = None } }
    ensures read { (c : Content)
        → ram_served 0 c (1 ∷ 2 ∷ 3 ∷ 4 ∷ []) Arm (read_command 0x20000001 2) []
        ≡ record { status = 0; ram = 1 ∷ 2 ∷ 3 ∷ 4 ∷ []; reply = 2 ∷ 3 ∷ []; start = None } }
    ensures refused { (c : Content)
        → ram_served 4 c (1 ∷ 2 ∷ 3 ∷ 4 ∷ []) Arm (write_command 0x20000001 2) (9 ∷ 10 ∷ [])
        ≡ record { status = 4; ram = 1 ∷ 2 ∷ 3 ∷ 4 ∷ []; reply = []; start = None } }
{}

/// A reboot starts the image of its range, whose addresses are seen from the range's first byte on;
/// the SRAM stays. It starts none for the other processor, of a part of the image, or of a trial
/// image. It starts none where the rows ask for a rollback version that the image does not have.
pub fn images_in_ram()
    ensures first { ram_command (with_rows 0) image_bytes Arm true (reboot_into 3 0x20000000 28) []
        ≡ record {
          status = 0;
          ram = image_bytes;
          reply = [];
          start = Some (image_in_ram 0x20000000);
        } }
    ensures later { (ram_command (with_rows 0) (0 ∷ 0 ∷ 0 ∷ 0 ∷ image_bytes) Arm false
        (reboot_into 0x103 0x20000004 28) []).start ≡ Some (image_in_ram 0x20000004) }
    ensures processor { ram_status (with_rows 0) image_bytes Riscv false
        (reboot_into 3 0x20000000 28) [] ≡ 13 }
    ensures part { ram_status (with_rows 0) image_bytes Arm false
        (reboot_into 3 0x20000000 27) [] ≡ 13 }
    ensures trial { ram_image (with_rows 0) trial_bytes 0x20000000 Arm ≡ Err Trial }
    ensures trial_status { ram_status (with_rows 0) trial_bytes Arm false
        (reboot_into 3 0x20000000 28) [] ≡ 13 }
    ensures required { ram_status (with_rows 1) image_bytes Arm false
        (reboot_into 3 0x20000000 28) [] ≡ 13 }
{}

/// An image in RAM with a digest of its block's words starts, and with a wrong one it does not.
pub fn digests_in_ram()
    ensures right { ram_image (with_rows 0) (hashed_bytes plain_digest) 0x20000000 Arm
        ≡ Ok (hashed_in_ram 0x20000000) }
    ensures wrong { ram_image (with_rows 0) (hashed_bytes stored_digest) 0x20000000 Arm
        ≡ Err Digest }
    ensures started { ram_command (with_rows 0) (hashed_bytes plain_digest) Arm false
        (reboot_into 3 0x20000000 72) []
        ≡ record {
          status = 0;
          ram = hashed_bytes plain_digest;
          reply = [];
          start = Some (hashed_in_ram 0x20000000);
        } }
    ensures refused { ram_command (with_rows 0) (hashed_bytes stored_digest) Arm false
        (reboot_into 3 0x20000000 72) []
        ≡ record { status = 13; ram = hashed_bytes stored_digest; reply = []; start = None } }
{}

/// Bytes are stored over those at their offset.
pub fn bytes_are_stored()
    ensures middle { with_bytes_at (1 ∷ 2 ∷ 3 ∷ 4 ∷ []) 1 (8 ∷ 9 ∷ []) ≡ 1 ∷ 8 ∷ 9 ∷ 4 ∷ [] }
    ensures none { with_bytes_at (1 ∷ 2 ∷ []) 2 [] ≡ 1 ∷ 2 ∷ [] }
{}

/// Writes are stored from their addresses on, in order, over an SRAM of zeros.
pub fn writes_are_stored()
    ensures one { written_ram (1 ∷ 2 ∷ 3 ∷ 4 ∷ [])
        (record { address = 0x20000001; bytes = 8 ∷ 9 ∷ [] }) ≡ 1 ∷ 8 ∷ 9 ∷ 4 ∷ [] }
    ensures in_order { written_all (1 ∷ 2 ∷ 3 ∷ 4 ∷ [])
        (record { address = 0x20000000; bytes = 5 ∷ 6 ∷ [] }
        ∷ record { address = 0x20000001; bytes = 7 ∷ 8 ∷ [] } ∷ []) ≡ 5 ∷ 7 ∷ 8 ∷ 4 ∷ [] }
    ensures zeros { ram_after [] ≡ zero_ram }
    ensures first { (w : RamWrite) → ram_after (w ∷ []) ≡ written_ram zero_ram w }
{}

/// The SRAM has 532,480 bytes, each below 256.
pub fn what_the_sram_is()
    ensures zeros { IsSram zero_ram }
    ensures shorter { ¬ (IsSram (replicate 532479 0)) }
    ensures longer { ¬ (IsSram (replicate 532481 0)) }
    ensures greatest { IsSram (255 ∷ replicate 532479 0) }
    ensures no_byte { ¬ (IsSram (256 ∷ replicate 532479 0)) }
{}
