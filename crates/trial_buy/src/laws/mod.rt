//! Laws of the steps of starts and buys, each the contract of a function that does nothing.

ghost use Rattle.std.specs.Prelude.{◌≡◌, ◌↔◌, ◌/◌, ◌<◌, ◌++◌, ℕ, [], ◌∷◌, drop, length, take, false, true, Some, None};
ghost use Rattle.pico_board.specs.declared.Step.TheVariants.{Erase};
ghost use Rattle.pico_board.specs.declared.window.Window.{Window};
ghost use Rattle.block_codec.specs.declared.versions.Version.{Version};
ghost use Rattle.image_def.specs.declared.started.Started.{Started};
ghost use Rattle.image_check.specs.Valid.{Valid};
ghost use Rattle.otp_roll.specs.Raises.{raises};
ghost use Rattle.slot_choice.specs.declared.unit.Member.{Member};
ghost use Rattle.slot_choice.specs.Versions.{better};
ghost use Rattle.pico_board.specs.declared.boot.Cpu.{Cpu};
ghost use Rattle.pico_board.specs.Content.{Content, IsContent};
ghost use Rattle.pico_board.specs.Steps.{after_all};
ghost use Rattle.slot_choice.specs.declared.choice.Choice.{Choice};
ghost use Rattle.trial_buy.specs.Buying.{buy_steps, cleared, clearing, trial_place};
ghost use Rattle.trial_buy.specs.Starting.{image_raises, is_other_better, other_erase, start_steps};

/// The start of a trial image writes nothing.
pub fn a_trial_start_writes_nothing()
    ensures { (c : Content) (cpu : Cpu) (choice : Choice) → choice.image.trial ≡ true
        → start_steps c cpu choice ≡ [] }
{}

/// The first 17 steps of a buy leave the content with the trial bit cleared, and all else as it
/// was.
pub fn a_buy_clears_the_trial_bit()
    ensures first { (c : Content) (cpu : Cpu) (choice : Choice)
        → take 17 (buy_steps c cpu choice) ≡ clearing c.flash (trial_place choice.image) }
    ensures cleared { (c : Content) (place : ℕ) → IsContent c → place < length c.flash
        → after_all c (clearing c.flash place)
        ≡ record { flash = cleared c.flash place; otp = c.otp } }
{}

/// The other member's image is better than the started one exactly where the choice in a unit
/// takes it: B's beside a started A, and A's beside a started B.
pub fn a_better_image_is_the_choice_in_a_unit()
    ensures beside_a { (v w : Version)
        → (is_other_better Member.A v w ≡ true) ↔ (better (Some v) (Some w) ≡ Some Member.B) }
    ensures beside_b { (v w : Version)
        → (is_other_better Member.B v w ≡ true) ↔ (better (Some w) (Some v) ≡ Some Member.A) }
{}

/// The other member's first sector is erased where a start was updated and the other member holds a
/// better image, valid in a normal boot. It is not erased where one of these fails.
pub fn when_the_other_image_is_erased()
    ensures erased { (c : Content) (cpu : Cpu) (choice : Choice) (w : Window) (s : Started)
        → choice.updated ≡ true → choice.other ≡ Some w → Valid c w cpu false s
        → is_other_better choice.member choice.image.version s.version ≡ true
        → other_erase c cpu choice ≡ Erase (w.start / 4096) ∷ [] }
    ensures not_better { (c : Content) (cpu : Cpu) (choice : Choice) (w : Window) (s : Started)
        → choice.other ≡ Some w → Valid c w cpu false s
        → is_other_better choice.member choice.image.version s.version ≡ false
        → other_erase c cpu choice ≡ [] }
    ensures no_image { (c : Content) (cpu : Cpu) (choice : Choice) (w : Window)
        → choice.other ≡ Some w → ((s : Started) → Valid c w cpu false s → ⊥)
        → other_erase c cpu choice ≡ [] }
    ensures alone { (c : Content) (cpu : Cpu) (choice : Choice) → choice.other ≡ None
        → other_erase c cpu choice ≡ [] }
    ensures not_updated { (c : Content) (cpu : Cpu) (choice : Choice) → choice.updated ≡ false
        → other_erase c cpu choice ≡ [] }
{}

/// A start of another image first erases the other member's first sector, where it does. Then it
/// raises the image's rows to its rollback version, where it has one. A buy does the same behind
/// its first 17 steps, whether the image is a trial or not.
pub fn what_a_start_writes()
    ensures both { (c : Content) (cpu : Cpu) (choice : Choice) (w : Window) (s : Started) (v : ℕ)
        → choice.image.trial ≡ false → choice.updated ≡ true → choice.other ≡ Some w
        → Valid c w cpu false s
        → is_other_better choice.member choice.image.version s.version ≡ true
        → choice.image.rollback ≡ Some v → start_steps c cpu choice
        ≡ Erase (w.start / 4096) ∷ raises c.otp choice.image.rows.items v }
    ensures raises_alone { (c : Content) (cpu : Cpu) (choice : Choice) (v : ℕ)
        → choice.image.trial ≡ false → choice.updated ≡ false → choice.image.rollback ≡ Some v
        → start_steps c cpu choice ≡ raises c.otp choice.image.rows.items v }
    ensures nothing { (c : Content) (cpu : Cpu) (choice : Choice) → choice.updated ≡ false
        → choice.image.rollback ≡ None → start_steps c cpu choice ≡ [] }
    ensures bought { (c : Content) (cpu : Cpu) (choice : Choice) → drop 17 (buy_steps c cpu choice)
        ≡ other_erase c cpu choice ++ image_raises c.otp choice.image }
{}
