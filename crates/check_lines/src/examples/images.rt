//! Worked lines of images, one of each word.

ghost use Rattle.std.specs.Prelude.{◌≡◌, Err, None, Ok, Some, codes, false, true};
ghost use Rattle.slot_choice.specs.Examples.{window_at};
ghost use Rattle.worked_flashes.specs.Images.{version_at};
ghost use Rattle.image_check.specs.declared.why.Why.TheVariants.{Below, Digest, NoBlock, Trial};
ghost use Rattle.check_images.specs.declared.found.Hashed.TheVariants as hashes;
ghost use Rattle.check_images.specs.declared.found.Loss.TheVariants.{Fault, NoUnit};
ghost use Rattle.check_lines.specs.Texts.{effect_line, fallback_line, lost_line, starts_line, written_line};
ghost use Rattle.check_require.specs.declared.report.ImageEffect.TheVariants.{Down, New, Same, Unchanged, Up};
ghost use Rattle.check_require.specs.declared.report.Writer.TheVariants.{Boot, Buy, Script};

/// The effect on the image, on the table and on the flash.
pub fn lines_of_effects()
    ensures none { effect_line Unchanged false false
        ≡ codes "effect image=none table=no flash=no\n" }
    ensures new { effect_line New false true ≡ codes "effect image=new table=no flash=yes\n" }
    ensures up { effect_line Up true false ≡ codes "effect image=up table=yes flash=no\n" }
    ensures same { effect_line Same true true ≡ codes "effect image=same table=yes flash=yes\n" }
    ensures down { effect_line Down false true ≡ codes "effect image=down table=no flash=yes\n" }
{}

/// A window that was written, by whom, and its image or the first rule that it fails.
pub fn lines_of_windows()
    ensures script { written_line (record {
      window = window_at 0x4000 0x2000;
      by = Script;
      image = Ok (record {
        version = version_at 1 1;
        rollback = None;
        trial = false;
        hash = hashes.Yes;
        firm = true;
      });
    }) ≡ codes "written window=0x00004000+0x00002000 by=script ok version=1.1 rollback=none trial=no hash=yes firm=yes\n" }
    ensures boot { written_line (record {
      window = window_at 0x2000 0x2000;
      by = Boot;
      image = Err NoBlock;
    }) ≡ codes "written window=0x00002000+0x00002000 by=boot fault=no-block\n" }
    ensures buy { written_line (record {
      window = window_at 0x2000 0x2000;
      by = Buy;
      image = Ok (record {
        version = version_at 1 9;
        rollback = Some 3;
        trial = true;
        hash = hashes.Bare;
        firm = false;
      });
    }) ≡ codes "written window=0x00002000+0x00002000 by=buy ok version=1.9 rollback=3 trial=yes hash=bare firm=no\n" }
{}

/// The image that starts, and the one beside it.
pub fn lines_of_starts()
    ensures starts { starts_line (Some (record {
      version = version_at 0 9;
      rollback = Some 3;
      trial = false;
      hash = hashes.No;
      firm = false;
    })) 2 ≡ codes "starts ok version=0.9 rollback=3 trial=no hash=no firm=no loose=2\n" }
    ensures falls { starts_line None 0 ≡ codes "starts none\n" }
    ensures fallback { fallback_line (Some (record {
      window = window_at 0x4000 0x2000;
      image = Err Trial;
    })) ≡ codes "fallback window=0x00004000+0x00002000 fault=trial\n" }
    ensures none { fallback_line None ≡ codes "fallback none\n" }
{}

/// A window whose image is lost.
pub fn lines_of_losses()
    ensures gone { lost_line (record { window = window_at 0x6000 0x2000; loss = NoUnit })
        ≡ codes "lost window=0x00006000+0x00002000 no-unit\n" }
    ensures fault { lost_line (record { window = window_at 0x6000 0x2000; loss = Fault Digest })
        ≡ codes "lost window=0x00006000+0x00002000 fault=digest\n" }
    ensures below { lost_line (record { window = window_at 0x6000 0x2000; loss = Fault (Below 0 3) })
        ≡ codes "lost window=0x00006000+0x00002000 fault=rollback 0 below 3\n" }
{}
