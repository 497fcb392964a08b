//! Laws of images that a loss of power makes by accident, each the contract of a function that does
//! nothing.

ghost use Rattle.std.specs.Prelude.{◌≡◌, ◌⊎◌, ◌↔◌, false};
ghost use Rattle.block_codec.specs.Erased.{IsErasedFrom};
ghost use Rattle.boot_rules.specs.AccidentalImages.{HasNoAccidentalImage, HasNoImage, IsSameImageIn};
ghost use Rattle.boot_rules.specs.Tables.{table_in};
ghost use Rattle.image_check.specs.Valid.{Valid};
ghost use Rattle.image_def.specs.declared.started.Started.{Started};
ghost use Rattle.pico_board.specs.Content.{Content, window_bytes};
ghost use Rattle.pico_board.specs.declared.boot.Cpu.{Cpu};
ghost use Rattle.pico_board.specs.declared.window.Window.{Window};

/// `HasNoAccidentalImage` holds of a content and a window exactly where two things do: the content
/// has the former table, and each image of the window, valid in a normal boot, is there before or
/// after all steps too, with the same bytes. So where the table is the former one, it holds if the
/// window has no image or an erased first sector. It also holds if the window has the bytes and the
/// rows of before or of after.
pub fn which_contents_have_no_accidental_image()
    ensures exactly { (c z d : Content) (w : Window) (cpu : Cpu) → HasNoAccidentalImage c z d w cpu
        ↔ ((table_in d ≡ table_in c)
        × ((s : Started) → Valid d w cpu false s
        → IsSameImageIn c d w cpu s ⊎ IsSameImageIn z d w cpu s)) }
    ensures empty { (c z d : Content) (w : Window) (cpu : Cpu) → table_in d ≡ table_in c
        → HasNoImage d w cpu → HasNoAccidentalImage c z d w cpu }
    ensures erased { (c z d : Content) (w : Window) (cpu : Cpu) → table_in d ≡ table_in c
        → IsErasedFrom (window_bytes d w) 0 4096 → HasNoAccidentalImage c z d w cpu }
    ensures former { (c z d : Content) (w : Window) (cpu : Cpu) → table_in d ≡ table_in c
        → window_bytes d w ≡ window_bytes c w → d.otp ≡ c.otp → HasNoAccidentalImage c z d w cpu }
    ensures finished { (c z d : Content) (w : Window) (cpu : Cpu) → table_in d ≡ table_in c
        → window_bytes d w ≡ window_bytes z w → d.otp ≡ z.otp → HasNoAccidentalImage c z d w cpu }
{}
