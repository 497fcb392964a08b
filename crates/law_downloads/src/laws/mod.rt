//! Laws on UF2 files that a host copies whole to the board's drive. Each is the contract of a
//! function that does nothing.

ghost use Rattle.std.specs.Prelude.{◌≡◌, ◌⊎◌, ◌+◌, ◌*◌, ◌/◌, ◌<◌, ◌≤◌, All, false, true, ℕ, List, Ok, Some, length, map};
ghost use Rattle.pico_board.specs.Content.{Content, IsContent, window_bytes};
ghost use Rattle.pico_board.specs.Sessions.{Gated};
ghost use Rattle.pico_board.specs.Steps.{after_all};
ghost use Rattle.pico_board.specs.declared.boot.BootKind.TheVariants.{Normal};
ghost use Rattle.pico_board.specs.declared.boot.Cpu.{Cpu};
ghost use Rattle.part_table.specs.declared.Target.{Target};
ghost use Rattle.part_table.specs.declared.table.Right.TheVariants.{BootWrite};
ghost use Rattle.part_table.specs.Rights.{allowed_by};
ghost use Rattle.uf2_place.specs.Blocks.{written_block};
ghost use Rattle.uf2_place.specs.Files.{file_blocks, file_bytes};
ghost use Rattle.uf2_place.specs.Placement.{download_steps};
ghost use Rattle.slot_choice.specs.declared.choice.Choice.{Choice};
ghost use Rattle.boot_script.specs.Scripts.{events};
ghost use Rattle.boot_rules.specs.declared.decision.Decision.{Decision};
ghost use Rattle.boot_rules.specs.Chosen.{Chosen, IsBootMember};
ghost use Rattle.boot_rules.specs.Starts.{table_of_content};
ghost use Rattle.boot_rules.specs.Targets.{is_executable, target_of};
ghost use Rattle.boot_session.specs.CutSessions.{CutSession, StartsFinished};
ghost use Rattle.cli_course.specs.Outcomes.{Answers, one_file};
ghost use Rattle.cli_scripts.specs.Copies.{blocks_in, copy_events, copy_line, copy_work};
ghost use Rattle.law_downloads.specs.Copied.{AreLostUpdates, IsCutDownload, IsDownload, IsLostUpdate, copied_script, copied_session, downloaded, last_of};

/// The laws below ask no more of a download than this: an executable family has a gated target by
/// the content's own table, every sector of its window has boot write, and the image has at least
/// one byte, and at most as many as the window.
pub fn downloads_are_asked_no_more()
    ensures { (c : Content) (cpu : Cpu) (family : ℕ) (target : Target) (image : List ℕ)
        → IsContent c → is_executable family ≡ true
        → target_of c (table_of_content c) cpu family ≡ Some target → target.gated ≡ true
        → ((s : ℕ) → target.window.start ≤ 4096 * s
        → 4096 * s < target.window.start + target.window.len
        → allowed_by (table_of_content c) s BootWrite ≡ true)
        → All (λ b. b < 256) image → 0 < length image → length image ≤ target.window.len
        → IsDownload c cpu family target image }
{}

/// Suppose that an executable family has a gated target by a content's own table, and that every
/// sector of its window has boot write. Let an image be not empty, and no longer than the window.
/// Take the session on that content of the script of `copy` for the file of image and family. It
/// is the download of the file's blocks, whole and in order, and it is gated on the window. After
/// it the window holds the image, then 0xff to the end of the image's last sector, and then what
/// it held. The script is the one that `copy` writes, and it is read back as its events.
pub fn copied_download()
    ensures placed { (c : Content) (cpu : Cpu) (family : ℕ) (target : Target) (image : List ℕ)
        → IsDownload c cpu family target image
        → copied_session c cpu family image ≡ download_steps target (file_blocks image family) }
    ensures gated { (c : Content) (cpu : Cpu) (family : ℕ) (target : Target) (image : List ℕ)
        → IsDownload c cpu family target image
        → Gated (copied_session c cpu family image) target.window }
    ensures holds { (c : Content) (cpu : Cpu) (family : ℕ) (target : Target) (image : List ℕ)
        → IsDownload c cpu family target image
        → window_bytes (after_all c (copied_session c cpu family image)) target.window
        ≡ downloaded image (window_bytes c target.window) }
    ensures script { (out file : List ℕ)
        → copy_work out file
        ≡ Answers false (copy_line (length (blocks_in (length file / 512) file)))
        (one_file out (copied_script file)) }
    ensures read { (c : Content) (cpu : Cpu) (family : ℕ) (target : Target) (image : List ℕ)
        → IsDownload c cpu family target image
        → events (copied_script (file_bytes image family))
        ≡ Ok (copy_events (map written_block (file_blocks image family))) }
{}

/// Suppose that power is lost in such a session into a member of a boot unit's pair, that the
/// whole session leaves the table, and that the loss leaves no accidental image (`IsCutDownload`).
/// Then all premises of the law on gated sessions hold, also that the former answer is no image in
/// the window, since a target never runs. So the next normal boot decides as before, or it makes
/// the start that it makes after the whole session, of an image with the same bytes.
pub fn copied_cut()
    ensures session { (c : Content) (cpu : Cpu) (family : ℕ) (target : Target) (image : List ℕ)
        (d : Content) (e : Decision)
        → IsCutDownload c cpu family target image d → Chosen c cpu Normal e
        → CutSession c target.window cpu (copied_session c cpu family image) d e }
    ensures decision { (c : Content) (cpu : Cpu) (family : ℕ) (target : Target) (image : List ℕ)
        (d : Content) (e : Decision)
        → IsCutDownload c cpu family target image d → Chosen c cpu Normal e
        → Chosen d cpu Normal e
        ⊎ StartsFinished (after_all c (copied_session c cpu family image)) d cpu }
{}

/// Suppose that a normal boot starts the other member of the pair, both before such a session and
/// after power was lost in it. Then the family's target is the same by the table that is there
/// now. So the premises of a copied download hold again, and those on the pair. A download of the
/// same image that is then done whole ends with the image in the window. The same holds however
/// often power was lost.
pub fn done_again()
    ensures target { (c : Content) (cpu : Cpu) (family : ℕ) (target : Target) (image : List ℕ)
        (choice : Choice) (d : Content)
        → IsLostUpdate c cpu family target image choice d
        → target_of d (table_of_content d) cpu family ≡ Some target }
    ensures again { (c : Content) (cpu : Cpu) (family : ℕ) (target : Target) (image : List ℕ)
        (choice : Choice) (d : Content)
        → IsLostUpdate c cpu family target image choice d → IsDownload d cpu family target image }
    ensures pair { (c : Content) (cpu : Cpu) (family : ℕ) (target : Target) (image : List ℕ)
        (choice : Choice) (d : Content)
        → IsLostUpdate c cpu family target image choice d
        → (boot_member : IsBootMember d target.window cpu)
        × (choice.image.window ≡ boot_member.other) }
    ensures holds { (c : Content) (cpu : Cpu) (family : ℕ) (target : Target) (image : List ℕ)
        (choice : Choice) (d : Content)
        → IsLostUpdate c cpu family target image choice d
        → window_bytes (after_all d (copied_session d cpu family image)) target.window
        ≡ downloaded image (window_bytes d target.window) }
    ensures often { (c : Content) (cpu : Cpu) (family : ℕ) (target : Target) (image : List ℕ)
        (choice : Choice) (ds : List Content)
        → IsDownload c cpu family target image
        → AreLostUpdates c cpu family target image choice ds
        → IsDownload (last_of c ds) cpu family target image }
{}
