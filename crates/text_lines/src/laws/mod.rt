//! Laws of the texts, each the contract of a function that does nothing.

ghost use Rattle.std.specs.Prelude.{◌≡◌, ◌⊎◌, ◌↔◌, ℕ, ◌≤◌, true, codes, length};
ghost use Rattle.text_lines.specs.Events.{outcome_text, IsOutcome};
ghost use Rattle.text_lines.specs.Outcomes.{has_reply};
ghost use Rattle.text_lines.specs.declared.outcome.EventOutcome.{EventOutcome};
ghost use Rattle.text_lines.specs.declared.outcome.EventOutcome.TheVariants.{PowerLost};

/// The longest text fits: every line of an event has at most 181 bytes, and there is room for 320.
pub fn the_longest_text_fits()
    ensures { (outcome : EventOutcome) → IsOutcome outcome → length (outcome_text outcome) ≤ 181 }
{}

/// The line of an event says that power was lost exactly where it was.
pub fn the_line_of_lost_power()
    ensures { (outcome : EventOutcome)
        → (outcome_text outcome ≡ codes "power lost") ↔ (outcome ≡ PowerLost) }
{}

/// A read, an info command and an OTP read are answered with bytes, and no other command.
pub fn commands_that_are_answered_with_bytes()
    ensures { (id : ℕ)
        → (has_reply id ≡ true) ↔ ((id ≡ 0x84) ⊎ (id ≡ 0x8b) ⊎ (id ≡ 0x8c)) }
{}
