//! Laws of the work of `map`, proved: each is the `ensures` of a function that does nothing.

ghost use Rattle.std.specs.Prelude.{◌≡◌, ℕ, List, length, map};
ghost use Rattle.pico_board.specs.declared.boot.Cpu.{Cpu};
ghost use Rattle.pico_board.specs.Content.{Content, IsContent};
ghost use Rattle.slot_choice.specs.declared.choice.Choice.{Choice};
ghost use Rattle.boot_rules.specs.declared.decision.Decision.TheVariants.{Bootsel, Start};
ghost use Rattle.boot_rules.specs.declared.decision.Fall.{Fall};
ghost use Rattle.boot_map.specs.declared.maps.FlashMap.{FlashMap};
ghost use Rattle.boot_map.specs.MapRules.{IsMap};
ghost use Rattle.cli_inputs.specs.Rules.{IsByRules};
ghost use Rattle.svg_marks.specs.declared.class.Class.TheVariants.{Window, Row, Join, Starts};
ghost use Rattle.svg_marks.specs.Marks.{class_text, escaped};
ghost use Rattle.svg_marks.specs.Reading.{marks_in, times};
ghost use Rattle.svg_map.specs.Maps.{row_words};
ghost use Rattle.cli_map.specs.Rules.{IsMapOf};
ghost use Rattle.cli_map.specs.Texts.{bars_of};
ghost use Rattle.cli_map.specs.Works.{map_file, map_work};

/// The work on a content is right by the rules of a flash's map, and refuses nothing.
pub fn works_are_right()
    ensures { (c : Content) (cpu : Cpu) (out : List ℕ)
        → IsByRules (IsContent c) (map_work c cpu out) (λ name fault. ⊥) (IsMapOf c cpu out) }
{}

/// For each window of the map its file has one rectangle, one row, and one line that joins both,
/// and no others. The line of the map prints the number of windows. The file's rows are the texts
/// of the windows, in their order.
pub fn files_show_each_window()
    ensures windows { (n : ℕ) (m : FlashMap)
        → times (class_text Window) (map_file n m) ≡ length m.rows.items }
    ensures rows { (n : ℕ) (m : FlashMap)
        → times (class_text Row) (map_file n m) ≡ length m.rows.items }
    ensures joins { (n : ℕ) (m : FlashMap)
        → times (class_text Join) (map_file n m) ≡ length m.rows.items }
    ensures texts { (n : ℕ) (m : FlashMap)
        → marks_in Row (map_file n m) ≡ map escaped (map row_words (bars_of m)) }
{}

/// The word `starts` stands in the file of a map once where a normal boot starts an image.
/// Otherwise it does not stand there.
pub fn files_tell_what_starts()
    ensures start { (c : Content) (cpu : Cpu) (m : FlashMap) (choice : Choice) → IsContent c
        → IsMap c cpu m → m.decision ≡ Start choice
        → times (class_text Starts) (map_file (length c.flash) m) ≡ 1 }
    ensures fall { (c : Content) (cpu : Cpu) (m : FlashMap) (fall : Fall) → IsContent c
        → IsMap c cpu m → m.decision ≡ Bootsel fall
        → times (class_text Starts) (map_file (length c.flash) m) ≡ 0 }
{}
