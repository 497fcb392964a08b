//! Laws of ELF files, each the contract of a function that does nothing.

ghost use Rattle.std.specs.Prelude.{◌≡◌, ◌↔◌, ℕ, ◌+◌, ◌-◌, ◌<◌, ◌≤◌, true, List, length, None, Some, slice_get, slice_index};
ghost use Rattle.std.specs.List.{AllByRecursion};
ghost use Rattle.pico_board.specs.declared.boot.Cpu.{Cpu};
ghost use Rattle.pico_board.specs.Content.{flash_base};
ghost use Rattle.image_pack.specs.declared.spec.SealSpec.{SealSpec};
ghost use Rattle.image_pack.specs.Faults.{IsSealed};
ghost use Rattle.elf_pack.specs.declared.fault.ElfFault.{ElfFault};
ghost use Rattle.elf_pack.specs.declared.segment.Segment.{Segment};
ghost use Rattle.elf_pack.specs.Binaries.{are_in_flash, elf_binary};
ghost use Rattle.elf_pack.specs.Faults.{HasBinary, HasAddress, IsElfFault, IsImageFault};
ghost use Rattle.elf_pack.specs.Judging.{elf_fault};
ghost use Rattle.elf_pack.specs.Segments.{byte_of, segments};

/// A file has at most one fault, and none where it has a binary. The function that judges in order
/// finds exactly that fault, or none exactly where there is a binary.
pub fn a_file_has_one_fault_or_a_binary()
    ensures one { (cpu : Cpu) (elf : List ℕ) (e f : ElfFault)
        → IsElfFault cpu elf e → IsElfFault cpu elf f → e ≡ f }
    ensures none { (cpu : Cpu) (elf : List ℕ) (e : ElfFault)
        → HasBinary cpu elf → IsElfFault cpu elf e → ⊥ }
    ensures fault { (cpu : Cpu) (elf : List ℕ) (e : ElfFault)
        → IsElfFault cpu elf e ↔ (elf_fault cpu elf ≡ Some e) }
    ensures binary { (cpu : Cpu) (elf : List ℕ) → HasBinary cpu elf ↔ (elf_fault cpu elf ≡ None) }
{}

/// A file and a spec have at most one fault, and none where the file has a binary that is sealed.
pub fn an_image_has_at_most_one_fault()
    ensures one { (elf : List ℕ) (spec : SealSpec) (e f : ElfFault)
        → IsImageFault elf spec e → IsImageFault elf spec f → e ≡ f }
    ensures none { (elf : List ℕ) (spec : SealSpec) (e : ElfFault) → HasBinary spec.cpu elf
        → IsSealed (elf_binary spec.cpu elf) spec → IsImageFault elf spec e → ⊥ }
{}

/// The binary of a file with segments in flash is what flash reads as. At the offset of each
/// address of each segment it has the segment's byte. At each other offset below its end it has
/// 0xff. No segment ends after it, and one ends with it.
pub fn the_binary_of_flash_segments_is_an_address_map()
    ensures segment { (cpu : Cpu) (elf : List ℕ) → HasBinary cpu elf
        → are_in_flash (segments elf) ≡ true → (i : ℕ) (s : Segment) (address : ℕ)
        → slice_get (segments elf) i ≡ Some s → HasAddress address s
        → slice_index (elf_binary cpu elf) (address - flash_base) ≡ byte_of elf address s }
    ensures elsewhere { (cpu : Cpu) (elf : List ℕ) → HasBinary cpu elf
        → are_in_flash (segments elf) ≡ true → (k : ℕ) → k < length (elf_binary cpu elf)
        → AllByRecursion (λ (s : Segment). HasAddress (flash_base + k) s → ⊥) (segments elf)
        → slice_index (elf_binary cpu elf) k ≡ 255 }
    ensures ends { (cpu : Cpu) (elf : List ℕ) → HasBinary cpu elf
        → are_in_flash (segments elf) ≡ true → (i : ℕ) (s : Segment)
        → slice_get (segments elf) i ≡ Some s
        → s.address + s.size ≤ flash_base + length (elf_binary cpu elf) }
    ensures reached { (cpu : Cpu) (elf : List ℕ) → HasBinary cpu elf
        → are_in_flash (segments elf) ≡ true → (i : ℕ) × (s : Segment)
        × (slice_get (segments elf) i ≡ Some s)
        × (s.address + s.size ≡ flash_base + length (elf_binary cpu elf)) }
{}
