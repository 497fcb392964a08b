//! Worked examples of the parts of the definitions, by hand from their sentences. Each is the
//! contract of a function that does nothing.

pub mod writes;

ghost use Rattle.std.specs.Prelude.{◌≡◌, [], ◌∷◌, Some, None, false, true};
ghost use Rattle.pico_board.specs.declared.Step.TheVariants.{Erase, Program, Raise};
ghost use Rattle.pico_board.specs.declared.boot.BootKind.TheVariants.{Bootsel, Normal, Update};
ghost use Rattle.pico_board.specs.declared.boot.Cpu.{Cpu};
ghost use Rattle.pico_board.specs.Content.{Content};
ghost use Rattle.boot_script.specs.Events.{EventView, Buy, Command, Cut, PowerOn, Reset, Uf2};
ghost use Rattle.boot_machine.specs.Machines.{Off};
ghost use Rattle.check_laws.specs.Hosting.{hosted_events, hosting};
ghost use Rattle.check_laws.specs.Hosts.{is_own};
ghost use Rattle.check_laws.specs.Triples.{is_apart, is_kept_by, is_raise_in};

/// What an image does by itself is a normal reset or a buy.
pub fn events_of_an_image()
    ensures normal { is_own (Reset Normal) ≡ true }
    ensures buy { is_own Buy ≡ true }
    ensures bootsel { is_own (Reset Bootsel) ≡ false }
    ensures update { is_own (Reset (Update 0x10002000)) ≡ false }
    ensures power { is_own PowerOn ≡ false }
    ensures cut { is_own (Cut 0 false []) ≡ false }
    ensures command { is_own (Command [] []) ≡ false }
{}

/// A host's script begins with power that comes back and a reset to BOOTSEL.
pub fn first_events_of_a_host()
    ensures begins { hosted_events (PowerOn ∷ Reset Bootsel ∷ Buy ∷ []) ≡ Some (Buy ∷ []) }
    ensures normal { hosted_events (PowerOn ∷ Reset Normal ∷ []) ≡ None }
    ensures no_power { hosted_events (Reset Bootsel ∷ []) ≡ None }
    ensures no_reset { hosted_events (PowerOn ∷ []) ≡ None }
    ensures cut_first { hosted_events (Cut 1 false [] ∷ PowerOn ∷ Reset Bootsel ∷ []) ≡ None }
{}

/// Host's events come first, where none before asked for a boot. Normal resets and buys follow.
pub fn events_behind_them()
    ensures own { (c : Content) (cpu : Cpu)
        → hosting c cpu Off None false (Reset Normal ∷ Buy ∷ Buy ∷ []) ≡ true }
    ensures hosted { (c : Content) (cpu : Cpu)
        → hosting c cpu Off None false (Command [] [] ∷ Uf2 [] ∷ Buy ∷ []) ≡ true }
    ensures late { (c : Content) (cpu : Cpu)
        → hosting c cpu Off None false (Buy ∷ Command [] [] ∷ []) ≡ false }
    ensures asked { (c : Content) (cpu : Cpu)
        → hosting c cpu Off (Some Normal) false (Uf2 [] ∷ []) ≡ false }
    ensures asked_last { (c : Content) (cpu : Cpu)
        → hosting c cpu Off (Some Normal) false (Reset Normal ∷ []) ≡ true }
    ensures cut { (c : Content) (cpu : Cpu)
        → hosting c cpu Off None false (Command [] [] ∷ Cut 3 false [] ∷ []) ≡ false }
    ensures power { (c : Content) (cpu : Cpu)
        → hosting c cpu Off None false (PowerOn ∷ []) ≡ false }
{}

/// The triple of row 0x0c0 has the rows 0x0c0, 0x0c1 and 0x0c2.
pub fn rows_of_a_triple()
    ensures first { is_raise_in 0x0c0 (Raise 0x0c0 1) ≡ true }
    ensures last { is_raise_in 0x0c0 (Raise 0x0c2 1) ≡ true }
    ensures below { is_raise_in 0x0c0 (Raise 0x0bf 1) ≡ false }
    ensures above { is_raise_in 0x0c0 (Raise 0x0c3 1) ≡ false }
    ensures erase { is_raise_in 0x0c0 (Erase 0x0c0) ≡ false }
    ensures program { is_raise_in 0x0c0 (Program 0x0c0 []) ≡ false }
{}

/// Two triples share no row where their first rows differ by three at least. A triple that shares a
/// row is kept where the steps raise none of its rows.
pub fn triples_that_share_a_row()
    ensures next { is_apart 0x0c0 0x0c3 ≡ true }
    ensures former { is_apart 0x0c3 0x0c0 ≡ true }
    ensures near { is_apart 0x0c0 0x0c2 ≡ false }
    ensures before { is_apart 0x0c2 0x0c0 ≡ false }
    ensures same { is_apart 0x0c0 0x0c0 ≡ false }
    ensures raised { is_kept_by (Raise 0x0c4 1 ∷ []) 0x0c0 0x0c2 ≡ false }
    ensures not_raised { is_kept_by (Raise 0x0c5 1 ∷ []) 0x0c0 0x0c2 ≡ true }
    ensures apart { is_kept_by (Raise 0x0c4 1 ∷ []) 0x0bf 0x0c2 ≡ true }
{}
