//! Worked texts: the lines in their order.

ghost use Rattle.std.specs.Prelude.{◌≡◌, ◌∷◌, ◌++◌, [], Err, Ok, Some, codes, false, true};
ghost use Rattle.cut_class.specs.declared.class.Class.TheVariants.{Finished, Former};
ghost use Rattle.image_check.specs.declared.why.Why.TheVariants.{NoBlock};
ghost use Rattle.check_counts.specs.Examples.{seen_so};
ghost use Rattle.check_images.specs.declared.found.Hashed.TheVariants as hashes;
ghost use Rattle.check_laws.specs.declared.found.SessionFound.TheVariants as sessions;
ghost use Rattle.check_lines.specs.Examples.{counts_so};
ghost use Rattle.check_records.specs.declared.found.Again.TheVariants as agains;
ghost use Rattle.check_require.specs.declared.members.Member.TheVariants.{Cuts, Keep};
ghost use Rattle.check_require.specs.declared.report.DataOwner.TheVariants.{Both, End};
ghost use Rattle.check_require.specs.declared.report.DataWritten.TheVariants.{No, Torn};
ghost use Rattle.check_require.specs.declared.report.ImageEffect.TheVariants.{New, Up};
ghost use Rattle.check_require.specs.declared.report.LawOfWrites.TheVariants as writes;
ghost use Rattle.check_require.specs.declared.report.Writer.TheVariants.{Boot, Script};
ghost use Rattle.slot_caveats.specs.declared.caveat.Caveat.TheVariants as caveats;
ghost use Rattle.cli_check.specs.CheckTexts.{check_text};
ghost use Rattle.cli_check.specs.Examples.{all_well, data_in, falls, found_so, image_with, images_so, one, one_ignored, other, other_lost, starts};

/// A text without lines of windows with data, of losses, of caveats and of members.
pub fn short_texts()
    ensures { check_text (found_so Finished (counts_so 10 2 0 0 0 0 10) (images_so New []) all_well)
        [] ≡ codes "former bootsel no-image\n"
        ++ (codes "end start window=0x00002000+0x00002000 block=0x00000100 pc=0x10000201 "
        ++ (codes "sp=0x20082000 limit=0x00000000 version=1.2 rollback=none trial=no\n"
        ++ (codes "effect image=new table=no flash=yes\n"
        ++ (codes "written window=0x00002000+0x00002000 by=script "
        ++ (codes "ok version=1.2 rollback=none trial=no hash=yes firm=yes\n"
        ++ (codes "starts ok version=1.2 rollback=none trial=no hash=yes firm=yes loose=0\n"
        ++ (codes "fallback none\nrecords ok\nagain yes\nrows raised=0 next=0 by-mixed=0\n"
        ++ (codes "law session=gated window=0x00002000+0x00002000\nlaw boot=none\nlaw buy=none\n"
        ++ codes "cuts former=10 finished=2 whole=0 tail=0 mixed=0 bootsel=0 falls=10\n")))))))) }
{}

/// A text with each line, and two of those that may come more often.
pub fn long_texts()
    ensures { check_text (record {
      former = starts;
      finished = falls;
      end_class = Former;
      tally = record (counts_so 1 2 3 4 5 6 7) {
        early = 2;
        other_data = 0 ∷ 12 ∷ [];
        by_mixed = 9;
        caveats = seen_so caveats.TableTie true false 0
            ∷ seen_so (caveats.ImageInSlot 1) false true 4 ∷ [];
      };
      images = record {
        effect = Up;
        table = true;
        flash = false;
        rows = true;
        written = record { window = one; by = Script; image = Err NoBlock }
            ∷ record { window = other; by = Boot; image = Ok (image_with hashes.Bare) } ∷ [];
        starts = Some (image_with hashes.No);
        fallback = Some (record { window = one; image = Err NoBlock });
        lost = other_lost ∷ other_lost ∷ [];
        next = 8;
      };
      windows = data_in one Both Torn ∷ data_in other End No ∷ [];
      records = one_ignored;
      again = agains.NoTable;
      raised = 3;
      session = sessions.Silent;
      boot = writes.Kept;
      buy = writes.Open;
      script = record { held = Some 5; skipped = Some 4 };
    }) (Keep ∷ Cuts ∷ [])
        ≡ codes "former start window=0x00002000+0x00002000 block=0x00000100 pc=0x10000201 "
        ++ (codes "sp=0x20082000 limit=0x00000000 version=1.2 rollback=none trial=no\n"
        ++ (codes "end bootsel no-image\neffect image=up table=yes flash=no\n"
        ++ (codes "written window=0x00002000+0x00002000 by=script fault=no-block\n"
        ++ (codes "written window=0x00004000+0x00002000 by=boot "
        ++ (codes "ok version=1.2 rollback=none trial=no hash=bare firm=yes\n"
        ++ (codes "starts ok version=1.2 rollback=none trial=no hash=no firm=yes loose=2\n"
        ++ (codes "fallback window=0x00002000+0x00002000 fault=no-block\n"
        ++ (codes "lost window=0x00004000+0x00002000 fault=digest\n"
        ++ (codes "lost window=0x00004000+0x00002000 fault=digest\n"
        ++ (codes "data window=0x00002000+0x00002000 of=both written=torn torn=0\n"
        ++ (codes "data window=0x00004000+0x00002000 of=end written=no torn=12\n"
        ++ (codes "records refused=1 first=3 ignored\nagain no table\n"
        ++ (codes "rows raised=3 next=8 by-mixed=9\n"
        ++ (codes "law session=none\nlaw boot=kept\nlaw buy=open\n"
        ++ (codes "cuts former=1 finished=2 whole=3 tail=4 mixed=5 bootsel=6 falls=7\n"
        ++ (codes "caveat table-tie former=yes end=no cuts=0\n"
        ++ (codes "caveat image-in-slot 1 former=no end=yes cuts=4\n"
        ++ (codes "caveat held-sector event=5\ncaveat skipped-block event=4\n"
        ++ codes "unmet keep\nunmet cuts\n")))))))))))))))))) }
{}
