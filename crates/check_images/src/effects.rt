//! What becomes of the image that starts.

ghost use Rattle.std.specs.Prelude.{◌≡◌, List};
ghost use Rattle.pico_board.specs.Content.{Content};
ghost use Rattle.pico_board.specs.declared.boot.BootKind.TheVariants.{Normal};
ghost use Rattle.pico_board.specs.declared.boot.Cpu.{Cpu};
ghost use Rattle.boot_rules.specs.Chosen.{Chosen};
ghost use Rattle.boot_sweep.specs.Moving.{MoveView};
ghost use Rattle.boot_cuts.specs.Classes.{IsClass};
ghost use Rattle.check_images.specs.Effects.{IsEffect, changed_effect, effect_of, version_effect};

use block_codec::Version;
use boot_cuts::{Class, is_same_class};
use boot_rules::Decision;
use check_require::ImageEffect;
use slot_choice::is_below;

/// What becomes of an image of the first version, where one of the second starts.
fn version_effect(former: Version, last: Version) -> ImageEffect
    ensures { result ≡ version_effect former last }
{
    if is_below(former, last) {
        ImageEffect::Up
    } else if is_below(last, former) {
        ImageEffect::Down
    } else {
        ImageEffect::Same
    }
}

/// What becomes of the boot that decides so, where one of this version starts.
fn changed_effect(former: &Decision, last: Version) -> ImageEffect
    ensures { result ≡ changed_effect former.now last }
{
    match former {
        Decision::Start(choice) => version_effect(choice.image.version, last),
        Decision::Bootsel(_) => ImageEffect::New,
    }
}

/// What becomes of the image that starts, by the decisions of normal boots before the update and
/// after it, and by the class of what it leaves.
pub fn effect_of(former: &Decision, last: &Decision, end: Class) -> ImageEffect
    ensures function { result ≡ effect_of former.now last.now end }
    ensures effect { (c z : Content) (moves : List MoveView) (cpu : Cpu)
        → Chosen c cpu Normal former.now → Chosen z cpu Normal last.now
        → IsClass c z moves z cpu end → IsEffect c z cpu result }
{
    match last {
        Decision::Start(choice) => {
            if is_same_class(Class::Former, end) {
                ImageEffect::Unchanged
            } else {
                changed_effect(former, choice.image.version)
            }
        }
        Decision::Bootsel(_) => ImageEffect::Unchanged,
    }
}
