//! What a member looks at loses nothing that it asks for.

ghost use Rattle.std.specs.Prelude.{◌≡◌, ◌↔◌, []};
ghost use Rattle.cli_check.specs.Findings.{FindingsView};
ghost use Rattle.cli_check.specs.Reporting.{report_of};

/// The number of lost images is 0 just where none is lost, also where it stays at its greatest
/// value.
pub fn lost_images_are_seen()
    ensures { (f : FindingsView) → ((report_of f).lost ≡ 0) ↔ (f.images.lost ≡ []) }
{}
