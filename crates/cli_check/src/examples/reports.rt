//! Worked examples of what a member looks at.

ghost use Rattle.std.specs.Prelude.{◌≡◌, ◌∷◌, [], Err, None, Ok, Some, false, true};
ghost use Rattle.cut_class.specs.declared.class.Class.TheVariants.{Finished};
ghost use Rattle.image_check.specs.declared.why.Why.TheVariants.{NoBlock};
ghost use Rattle.check_counts.specs.Examples.{seen_so};
ghost use Rattle.check_images.specs.declared.found.Hashed.TheVariants as hashes;
ghost use Rattle.check_lines.specs.Examples.{counts_so};
ghost use Rattle.check_records.specs.declared.found.Again.TheVariants as agains;
ghost use Rattle.check_require.specs.Examples.{caveat_at, counting, data_of, finding, started, written_by};
ghost use Rattle.check_require.specs.declared.caveats.CaveatName.TheVariants as names;
ghost use Rattle.check_require.specs.declared.report.DataOwner.TheVariants.{Both, End, Former};
ghost use Rattle.check_require.specs.declared.report.DataWritten.TheVariants.{No, Torn, Yes};
ghost use Rattle.check_require.specs.declared.report.ImageEffect.TheVariants.{Down, New};
ghost use Rattle.check_require.specs.declared.report.Writer.TheVariants.{Boot, Script};
ghost use Rattle.slot_caveats.specs.declared.caveat.Caveat.TheVariants as caveats;
ghost use Rattle.cli_check.specs.Examples.{all_well, data_in, found_so, image_with, images_so, not_done, one, one_ignored, other, other_lost};
ghost use Rattle.cli_check.specs.Reporting.{are_records_ok, caveat_found, data_each, falls_back, is_again, report_of, script_caveats, start_found, written_found};

/// The image in a window that was written is valid, or has a fault.
pub fn windows_that_were_written()
    ensures valid { written_found (record {
      window = one;
      by = Script;
      image = Ok (image_with hashes.No);
    }) ≡ written_by Script true }
    ensures fault { written_found (record { window = one; by = Boot; image = Err NoBlock })
        ≡ written_by Boot false }
{}

/// A digest of words of the block alone is none.
pub fn images_that_start()
    ensures none { start_found None 7 ≡ None }
    ensures hashed { start_found (Some (image_with hashes.Yes)) 0 ≡ Some (started true 0) }
    ensures bare { start_found (Some (image_with hashes.Bare)) 1 ≡ Some (started false 1) }
    ensures without { start_found (Some (image_with hashes.No)) 2 ≡ Some (started false 2) }
{}

/// There is a valid image to fall back on, or there is none.
pub fn images_to_fall_back_on()
    ensures none { falls_back None ≡ false }
    ensures fault { falls_back (Some (record { window = other; image = Err NoBlock })) ≡ false }
    ensures valid { falls_back (Some (record {
      window = other;
      image = Ok (image_with hashes.Yes);
    })) ≡ true }
{}

/// Each window with data has its own number of cuts.
pub fn windows_with_data()
    ensures none { data_each [] [] ≡ [] }
    ensures each { data_each (data_in one Former Yes ∷ data_in other End No ∷ []) (3 ∷ 0 ∷ [])
        ≡ data_of Former Yes 3 ∷ data_of End No 0 ∷ [] }
    ensures torn { data_each (data_in other Both Torn ∷ []) (1 ∷ [])
        ≡ data_of Both Torn 1 ∷ [] }
    ensures uncounted { data_each (data_in one Both No ∷ data_in other Both No ∷ []) (4 ∷ [])
        ≡ data_of Both No 4 ∷ [] }
{}

/// A record that did nothing, and a download that is not done, are no good records.
pub fn records_that_are_well()
    ensures well { are_records_ok all_well ≡ true }
    ensures refused { are_records_ok one_ignored ≡ false }
    ensures unfinished { are_records_ok not_done ≡ false }
{}

/// A script comes to the same end again, or something stands against it.
pub fn scripts_played_again()
    ensures yes { is_again agains.Yes ≡ true }
    ensures step { is_again (agains.NoStep 0) ≡ false }
    ensures table { is_again agains.NoTable ≡ false }
    ensures target { is_again agains.NoTarget ≡ false }
{}

/// A caveat is told by its name, and whether it holds at the end. Those of the script hold there.
pub fn caveats_that_are_found()
    ensures former { caveat_found (seen_so (caveats.ImageInSlot 1) true false 5)
        ≡ caveat_at names.ImageInSlot false }
    ensures at_end { caveat_found (seen_so (caveats.UnreadSide 0) false true 0)
        ≡ caveat_at names.UnreadBits true }
    ensures no_event { script_caveats (record { held = None; skipped = None }) ≡ [] }
    ensures held { script_caveats (record { held = Some 0; skipped = None })
        ≡ caveat_at names.HeldSector true ∷ [] }
    ensures skipped { script_caveats (record { held = None; skipped = Some 4 })
        ≡ caveat_at names.SkippedBlock true ∷ [] }
    ensures both { script_caveats (record { held = Some 7; skipped = Some 4 })
        ≡ caveat_at names.HeldSector true ∷ caveat_at names.SkippedBlock true ∷ [] }
{}

/// An update of a board that did not start, of which nothing bad is found, and one that loses an
/// image and plays a record that did nothing.
pub fn whole_reports()
    ensures well { report_of
        (found_so Finished (counts_so 10 2 0 0 0 0 10) (images_so New []) all_well)
        ≡ record (finding New (Some (started true 0)) true (counting 0 0 0 0) Finished 0)
        { again = true } }
    ensures lost { report_of (found_so Finished (counts_so 10 2 1 2 3 4 14)
        (images_so Down (other_lost ∷ other_lost ∷ [])) one_ignored)
        ≡ record (finding Down (Some (started true 0)) false (counting 1 2 3 4) Finished 2)
        { again = true } }
{}
