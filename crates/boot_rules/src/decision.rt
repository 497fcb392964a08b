//! What a boot decides.

ghost use Rattle.std.specs.Prelude.{◌≡◌};
ghost use Rattle.boot_rules.specs.Choosing.{decision_of};

use slot_choice::Choice;

/// Why a boot falls to BOOTSEL, in the order of the checks (RP2350 Datasheet, chapter 5, Bootrom).
#[derive(Clone, Copy, PartialEq, Eq, Debug)]
pub enum Fall {
    /// The boot asked for BOOTSEL.
    Requested,
    /// The OTP says that the chip does not boot from flash.
    FlashOff,
    /// No boot unit has a valid image.
    NoImage,
}

/// What a boot decides: the image that starts, or the fall to BOOTSEL.
#[derive(Clone, PartialEq, Eq, Debug, Drop)]
pub enum Decision {
    /// The image of this choice starts.
    Start(Choice),
    /// No image starts.
    Bootsel(Fall),
}

/// The decision of a choice.
pub fn decision_of(choice: Option<Choice>) -> Decision
    ensures { result ≡ decision_of choice }
{
    match choice {
        Some(choice) => Decision::Start(choice),
        None => Decision::Bootsel(Fall::NoImage),
    }
}
