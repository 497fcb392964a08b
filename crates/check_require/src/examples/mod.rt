//! Worked examples: what words ask, and for each member a report that meets it and one that does
//! not, on both sides of each of its words; and which verdict comes first.

ghost use Rattle.std.specs.Prelude.{◌≡◌, [], ◌∷◌, None, Some, codes, false, length, true};
ghost use Rattle.check_require.specs.Examples.{caveat_at, counting, cut_as, data_of, finding, raising, started, turning, written_by};
ghost use Rattle.check_require.specs.Forms.{allowance_named, allowed_caveat, at_cuts, effect_named, everywhere, session_named, version_named};
ghost use Rattle.check_require.specs.Meeting.{are_cuts_allowed, has_data, has_effect, has_version, is_covered, is_hashed, is_kept, is_law_of, is_written_well, keeps_rows, may_come, still_starts, unmet, verdict_on};
ghost use Rattle.check_require.specs.Names.{caveat_named, caveat_names};
ghost use Rattle.check_require.specs.Requires.{default_caveats, default_require};
ghost use Rattle.check_require.specs.declared.caveats.CaveatName.TheVariants.{HeldSector, MayStart, RawCritical, SecureBoot, ShortFlash, SkippedBlock, Tie};
ghost use Rattle.check_require.specs.declared.meeting.Verdict.TheVariants.{Mixed, NoEffect, Passed, Refused, Unbootable, Unmet};
ghost use Rattle.check_require.specs.declared.members.Member.{Member};
ghost use Rattle.cut_class.specs.declared.class.Class.{Class};
ghost use Rattle.check_require.specs.declared.report.DataOwner.TheVariants.{Both, End, Former};
ghost use Rattle.check_require.specs.declared.report.DataWritten.TheVariants.{No, Torn, Yes};
ghost use Rattle.check_require.specs.declared.report.ImageEffect.TheVariants.{Down, New, Same, Unchanged, Up};
ghost use Rattle.check_require.specs.declared.report.LawOfWrites.{LawOfWrites};
ghost use Rattle.check_require.specs.declared.report.SessionLaw.{SessionLaw};
ghost use Rattle.check_require.specs.declared.report.Writer.{Writer};
ghost use Rattle.check_require.specs.declared.requirement.Allowance.{Allowance};
ghost use Rattle.check_require.specs.declared.requirement.SessionAsk.{SessionAsk};
ghost use Rattle.check_require.specs.declared.requirement.VersionAsk.{VersionAsk};
ghost use Rattle.check_require.specs.declared.requirement.WantedEffect.{WantedEffect};

/// What each word asks. Another word asks nothing.
pub fn words_of_members()
    ensures image { effect_named (codes "image") ≡ Some WantedEffect.Image }
    ensures table { effect_named (codes "table") ≡ Some WantedEffect.Table }
    ensures flash { effect_named (codes "flash") ≡ Some WantedEffect.Flash }
    ensures nothing { effect_named (codes "none") ≡ Some WantedEffect.Nothing }
    ensures no_effect { effect_named (codes "any") ≡ None }
    ensures up { version_named (codes "up") ≡ Some VersionAsk.Up }
    ensures same { version_named (codes "same") ≡ Some VersionAsk.Same }
    ensures any { version_named (codes "any") ≡ Some VersionAsk.Any }
    ensures no_version { version_named (codes "down") ≡ None }
    ensures staged { session_named (codes "staged") ≡ Some SessionAsk.Staged }
    ensures gated { session_named (codes "gated") ≡ Some SessionAsk.Gated }
    ensures confined { session_named (codes "confined") ≡ Some SessionAsk.Confined }
    ensures any_session { session_named (codes "any") ≡ Some SessionAsk.Any }
    ensures no_session { session_named (codes "open") ≡ None }
    ensures whole { allowance_named (codes "whole") ≡ Some Allowance.Whole }
    ensures tail { allowance_named (codes "tail") ≡ Some Allowance.Tail }
    ensures mixed { allowance_named (codes "mixed") ≡ Some Allowance.Mixed }
    ensures bootsel { allowance_named (codes "bootsel") ≡ Some Allowance.Bootsel }
    ensures raising { allowance_named (codes "raising") ≡ Some Allowance.Raising }
    ensures no_allowance { allowance_named (codes "former") ≡ None }
{}

/// A caveat is allowed by its name, or by `cuts:` and its name at cuts alone.
pub fn texts_of_caveats()
    ensures name { allowed_caveat (codes "may-start") ≡ Some (everywhere MayStart) }
    ensures cuts { allowed_caveat (codes "cuts:may-start") ≡ Some (at_cuts MayStart) }
    ensures held { allowed_caveat (codes "held-sector") ≡ Some (everywhere HeldSector) }
    ensures no_name { allowed_caveat (codes "cuts:") ≡ None }
    ensures twice { allowed_caveat (codes "cuts:cuts:tie") ≡ None }
    ensures other { allowed_caveat (codes "may") ≡ None }
    ensures longer { caveat_named (codes "tie ") ≡ None }
    ensures all { length caveat_names ≡ 32 }
    ensures default_ { length default_caveats ≡ 27 }
    ensures file { may_come default_caveats (caveat_at SecureBoot true) ≡ false }
    ensures critical { may_come default_caveats (caveat_at RawCritical true) ≡ false }
    ensures short { may_come default_caveats (caveat_at ShortFlash false) ≡ false }
    ensures script { may_come default_caveats (caveat_at SkippedBlock true) ≡ true }
{}

/// A caveat that is allowed at cuts alone may not hold at the end.
pub fn caveats_that_may_come()
    ensures listed { may_come (everywhere Tie ∷ []) (caveat_at Tie true) ≡ true }
    ensures other { may_come (everywhere Tie ∷ []) (caveat_at MayStart true) ≡ false }
    ensures at_cuts { may_come (at_cuts Tie ∷ []) (caveat_at Tie false) ≡ true }
    ensures at_end { may_come (at_cuts Tie ∷ []) (caveat_at Tie true) ≡ false }
    ensures either { may_come (at_cuts Tie ∷ everywhere Tie ∷ []) (caveat_at Tie true) ≡ true }
{}

/// An effect on the image is another image, whatever its version. A table or a byte of the flash
/// is another thing, and none is always had.
pub fn effects_of_updates()
    ensures unchanged { has_effect WantedEffect.Image (turning Unchanged) ≡ false }
    ensures new { has_effect WantedEffect.Image (turning New) ≡ true }
    ensures up { has_effect WantedEffect.Image (turning Up) ≡ true }
    ensures same { has_effect WantedEffect.Image (turning Same) ≡ true }
    ensures down { has_effect WantedEffect.Image (turning Down) ≡ true }
    ensures no_table { has_effect WantedEffect.Table (turning Up) ≡ false }
    ensures table { has_effect WantedEffect.Table (raising 0 0 true 0) ≡ true }
    ensures flash { has_effect WantedEffect.Flash (turning Unchanged) ≡ true }
    ensures no_flash { has_effect WantedEffect.Flash (raising 0 0 true 0) ≡ false }
    ensures nothing { has_effect WantedEffect.Nothing (turning Unchanged) ≡ true }
{}

/// An image that the script wrote has to be valid, and not one that a boot or a buy wrote.
pub fn written_images()
    ensures valid { is_written_well (written_by Writer.Script true) ≡ true }
    ensures script { is_written_well (written_by Writer.Script false) ≡ false }
    ensures boot { is_written_well (written_by Writer.Boot false) ≡ true }
    ensures buy { is_written_well (written_by Writer.Buy false) ≡ true }
{}

/// Data are whole where no cut and no cut of the script's own tears them, where those of the
/// former image alone are not written, and where one image starts before and at the end, with the
/// same data.
pub fn data_that_images_find()
    ensures left { has_data false (data_of Both No 0) ≡ true }
    ensures torn_at_a_cut { has_data false (data_of Both Yes 1) ≡ false }
    ensures left_torn { has_data false (data_of Both Torn 0) ≡ false }
    ensures former_written { has_data false (data_of Former Yes 0) ≡ false }
    ensures former_left { has_data false (data_of Former No 0) ≡ true }
    ensures end_written { has_data false (data_of End Yes 0) ≡ true }
    ensures both_written { has_data false (data_of Both Yes 0) ≡ true }
    ensures same_of_both { has_data true (data_of Both Yes 0) ≡ true }
    ensures same_of_end { has_data true (data_of End No 0) ≡ false }
    ensures same_of_former { has_data true (data_of Former No 0) ≡ false }
{}

/// Each class but `former` and `finished` has to be listed, of a cut and of the end, and boots that
/// raise rows for half-written images too.
pub fn cuts_that_are_allowed()
    ensures none { are_cuts_allowed [] (cut_as (counting 0 0 0 0) Class.Finished) ≡ true }
    ensures former { are_cuts_allowed [] (cut_as (counting 0 0 0 0) Class.Former) ≡ true }
    ensures no_whole { are_cuts_allowed [] (cut_as (counting 1 0 0 0) Class.Finished) ≡ false }
    ensures whole { are_cuts_allowed (Allowance.Whole ∷ [])
        (cut_as (counting 1 0 0 0) Class.Whole) ≡ true }
    ensures whole_end { are_cuts_allowed [] (cut_as (counting 0 0 0 0) Class.Whole) ≡ false }
    ensures no_tail { are_cuts_allowed (Allowance.Whole ∷ [])
        (cut_as (counting 0 1 0 0) Class.Finished) ≡ false }
    ensures tail { are_cuts_allowed (Allowance.Tail ∷ [])
        (cut_as (counting 0 1 0 0) Class.Tail) ≡ true }
    ensures tail_end { are_cuts_allowed [] (cut_as (counting 0 0 0 0) Class.Tail) ≡ false }
    ensures no_mixed { are_cuts_allowed (Allowance.Tail ∷ [])
        (cut_as (counting 0 0 1 0) Class.Finished) ≡ false }
    ensures mixed { are_cuts_allowed (Allowance.Mixed ∷ [])
        (cut_as (counting 0 0 1 0) Class.Mixed) ≡ true }
    ensures mixed_end { are_cuts_allowed [] (cut_as (counting 0 0 0 0) Class.Mixed) ≡ false }
    ensures no_bootsel { are_cuts_allowed (Allowance.Mixed ∷ [])
        (cut_as (counting 0 0 0 1) Class.Finished) ≡ false }
    ensures bootsel { are_cuts_allowed (Allowance.Bootsel ∷ [])
        (cut_as (counting 0 0 0 1) Class.Bootsel) ≡ true }
    ensures bootsel_end { are_cuts_allowed [] (cut_as (counting 0 0 0 0) Class.Bootsel)
        ≡ false }
    ensures no_raises { are_cuts_allowed (Allowance.Mixed ∷ []) (raising 0 0 true 1) ≡ false }
    ensures raises { are_cuts_allowed (Allowance.Raising ∷ []) (raising 0 0 true 1) ≡ true }
{}

/// Which versions may come. With `same`, an update that changes nothing may come where an image
/// starts.
pub fn versions_that_may_come()
    ensures up { has_version VersionAsk.Up (turning Up) ≡ true }
    ensures up_new { has_version VersionAsk.Up (turning New) ≡ true }
    ensures up_same { has_version VersionAsk.Up (turning Same) ≡ false }
    ensures up_down { has_version VersionAsk.Up (turning Down) ≡ false }
    ensures up_unchanged { has_version VersionAsk.Up (turning Unchanged) ≡ false }
    ensures same_up { has_version VersionAsk.Same (turning Up) ≡ true }
    ensures same { has_version VersionAsk.Same (turning Same) ≡ true }
    ensures same_new { has_version VersionAsk.Same (turning New) ≡ true }
    ensures same_down { has_version VersionAsk.Same (turning Down) ≡ false }
    ensures same_unchanged { has_version VersionAsk.Same (turning Unchanged) ≡ true }
    ensures same_dead { has_version VersionAsk.Same
        (finding Unchanged None true (counting 0 0 0 0) Class.Bootsel 0) ≡ false }
    ensures any_down { has_version VersionAsk.Any (turning Down) ≡ true }
    ensures still { still_starts (turning Unchanged) ≡ true }
    ensures another { still_starts (turning Up) ≡ false }
{}

/// An image that starts has all its bytes at each cut, and a digest; where nothing starts it has
/// all of them and no digest.
pub fn images_that_start()
    ensures covered { is_covered (Some (started false 0)) ≡ true }
    ensures loose { is_covered (Some (started true 1)) ≡ false }
    ensures none_covered { is_covered None ≡ true }
    ensures hashed { is_hashed (Some (started true 1)) ≡ true }
    ensures bare { is_hashed (Some (started false 0)) ≡ false }
    ensures none_hashed { is_hashed None ≡ false }
{}

/// No row rises: not in the script, not in the next boot, and not by a torn raise.
pub fn rows_that_stay()
    ensures stay { keeps_rows (raising 0 0 true 0) ≡ true }
    ensures script { keeps_rows (raising 1 0 true 0) ≡ false }
    ensures boot { keeps_rows (raising 0 1 true 0) ≡ false }
    ensures torn { keeps_rows (raising 0 0 false 0) ≡ false }
{}

/// A stronger law serves where a weaker one is asked, and so does a session with nothing to speak
/// of.
pub fn laws_of_sessions()
    ensures staged { is_law_of SessionAsk.Staged SessionLaw.Staged ≡ true }
    ensures staged_silent { is_law_of SessionAsk.Staged SessionLaw.Silent ≡ true }
    ensures staged_gated { is_law_of SessionAsk.Staged SessionLaw.Gated ≡ false }
    ensures gated_staged { is_law_of SessionAsk.Gated SessionLaw.Staged ≡ true }
    ensures gated { is_law_of SessionAsk.Gated SessionLaw.Gated ≡ true }
    ensures gated_confined { is_law_of SessionAsk.Gated SessionLaw.Confined ≡ false }
    ensures confined_gated { is_law_of SessionAsk.Confined SessionLaw.Gated ≡ true }
    ensures confined { is_law_of SessionAsk.Confined SessionLaw.Confined ≡ true }
    ensures confined_open { is_law_of SessionAsk.Confined SessionLaw.Open ≡ false }
    ensures any_open { is_law_of SessionAsk.Any SessionLaw.Open ≡ true }
    ensures any_confined { is_law_of SessionAsk.Any SessionLaw.Confined ≡ true }
    ensures kept { is_kept LawOfWrites.Kept ≡ true }
    ensures silent { is_kept LawOfWrites.Silent ≡ true }
    ensures open { is_kept LawOfWrites.Open ≡ false }
{}

/// What the text does not say is asked by default, and the verdict is the first that holds.
pub fn verdicts_by_default()
    ensures passed { verdict_on default_require (turning Up) ≡ Passed }
    ensures whole_passes { verdict_on default_require (cut_as (counting 1 0 0 0) Class.Finished)
        ≡ Passed }
    ensures down_passes { verdict_on default_require (turning Down) ≡ Passed }
    ensures mixed { verdict_on default_require
        (finding Unchanged None false (counting 0 0 1 1) Class.Bootsel 1) ≡ Mixed }
    ensures mixed_end { verdict_on default_require
        (finding Up (Some (started true 0)) true (counting 0 0 0 0) Class.Mixed 0) ≡ Mixed }
    ensures unbootable { verdict_on default_require
        (finding Unchanged None false (counting 0 0 0 1) Class.Former 1) ≡ Unbootable }
    ensures refused { verdict_on default_require
        (finding Unchanged None false (counting 0 0 0 0) Class.Former 1) ≡ Refused }
    ensures no_effect { verdict_on default_require
        (finding Unchanged None true (counting 0 0 0 0) Class.Former 1) ≡ NoEffect }
    ensures lost { verdict_on default_require
        (finding Up None true (counting 0 0 0 0) Class.Finished 1) ≡ Unmet }
    ensures tail { verdict_on default_require (cut_as (counting 0 1 0 0) Class.Finished)
        ≡ Unmet }
    ensures all_unmet { unmet default_require
        (finding Unchanged (Some (started true 1)) false (counting 0 0 1 1) Class.Bootsel 1)
        ≡ Member.Effect ∷ Member.Records ∷ Member.Keep ∷ Member.Cuts ∷ Member.Covered ∷ [] }
    ensures none_unmet { unmet default_require (turning Up) ≡ [] }
{}
