//! Laws of what is found of images, each the contract of a function that does nothing: of each
//! window, and of the image that starts, the rules allow one answer.

ghost use Rattle.std.specs.Prelude.{◌≡◌, ◌↔◌, true};
ghost use Rattle.pico_board.specs.declared.Step.{Step};
ghost use Rattle.pico_board.specs.declared.window.Window.{Window};
ghost use Rattle.check_images.specs.Touching.{Touches, touches};

/// A step touches a window exactly where a byte of the window is in the step's range.
pub fn touching_is_sharing_a_byte()
    ensures { (w : Window) (step : Step) → (touches w step ≡ true) ↔ Touches w step }
{}
