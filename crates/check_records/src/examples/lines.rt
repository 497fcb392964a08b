//! Worked examples of the lines.

ghost use Rattle.std.specs.Prelude.{◌≡◌, None, Some, codes, false, true};
ghost use Rattle.boot_machine.specs.Examples.{told_refused};
ghost use Rattle.text_lines.specs.declared.outcome.EventOutcome.TheVariants as events;
ghost use Rattle.check_records.specs.declared.found.Again.TheVariants.{NoStep, NoTable, NoTarget, Yes};
ghost use Rattle.check_records.specs.Texts.{again_line, records_lines};

/// One line, or both: first that of the records that did nothing.
pub fn lines_of_records()
    ensures ok { records_lines (record { refused = None; unfinished = None; begins = true })
        ≡ codes "records ok\n" }
    ensures refused { records_lines (record {
      refused = Some (record { count = 2; first = 5; outcome = events.Ignored });
      unfinished = None;
      begins = false;
    }) ≡ codes "records refused=2 first=5 ignored\n" }
    ensures command { records_lines (record {
      refused = Some (record { count = 1; first = 2; outcome = told_refused 0x55 1 });
      unfinished = None;
      begins = false;
    }) ≡ codes "records refused=1 first=2 cmd 0x55 token=0x00000001 status=1\n" }
    ensures unfinished { records_lines (record {
      refused = None;
      unfinished = Some 3;
      begins = true;
    }) ≡ codes "records unfinished=3\n" }
    ensures both { records_lines (record {
      refused = Some (record { count = 4; first = 0; outcome = events.Off });
      unfinished = Some 12;
      begins = true;
    }) ≡ codes "records refused=4 first=0 off\nrecords unfinished=12\n" }
{}

/// The line of each answer.
pub fn lines_of_again()
    ensures yes { again_line Yes ≡ codes "again yes\n" }
    ensures step { again_line (NoStep 10) ≡ codes "again no step=10\n" }
    ensures table { again_line NoTable ≡ codes "again no table\n" }
    ensures target { again_line NoTarget ≡ codes "again no target\n" }
{}
