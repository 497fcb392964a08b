//! Worked lines of counts, laws, caveats and members, one of each word.

ghost use Rattle.std.specs.Prelude.{◌≡◌, codes, false, true};
ghost use Rattle.slot_choice.specs.Examples.{window_at};
ghost use Rattle.slot_caveats.specs.declared.caveat.Caveat.TheVariants as caveats;
ghost use Rattle.check_counts.specs.Examples.{seen_so};
ghost use Rattle.check_laws.specs.declared.found.Reason.TheVariants as reasons;
ghost use Rattle.check_laws.specs.declared.found.SessionFound.TheVariants as sessions;
ghost use Rattle.check_lines.specs.Counting.{boot_line, buy_line, caveat_seen, cuts_line, held_line, rows_line, session_line, skipped_line, unmet_line};
ghost use Rattle.check_lines.specs.Examples.{counts_so};
ghost use Rattle.check_require.specs.declared.members.Member.TheVariants as members;
ghost use Rattle.check_require.specs.declared.report.LawOfWrites.TheVariants as writes;

/// Raised rows: by the script, by the next boot, and by half-written images.
pub fn lines_of_rows()
    ensures none { rows_line 0 0 0 ≡ codes "rows raised=0 next=0 by-mixed=0\n" }
    ensures each { rows_line 1 2 3 ≡ codes "rows raised=1 next=2 by-mixed=3\n" }
    ensures digits { rows_line 9 10 4294967295
        ≡ codes "rows raised=9 next=10 by-mixed=4294967295\n" }
{}

/// The law of the session, with its window; or none, or why none.
pub fn lines_of_sessions()
    ensures none { session_line sessions.Silent ≡ codes "law session=none\n" }
    ensures staged { session_line (sessions.Staged (window_at 0x4000 0x2000))
        ≡ codes "law session=staged window=0x00004000+0x00002000\n" }
    ensures gated { session_line (sessions.Gated (window_at 0x2000 0x1e000))
        ≡ codes "law session=gated window=0x00002000+0x0001e000\n" }
    ensures confined { session_line (sessions.Confined (window_at 0x20000 0x1e000))
        ≡ codes "law session=confined window=0x00020000+0x0001e000\n" }
    ensures script { session_line (sessions.Open reasons.Script)
        ≡ codes "law session=open because=script\n" }
    ensures windows { session_line (sessions.Open reasons.Windows)
        ≡ codes "law session=open because=windows\n" }
    ensures running { session_line (sessions.Open reasons.Running)
        ≡ codes "law session=open because=running\n" }
    ensures table { session_line (sessions.Open reasons.Table)
        ≡ codes "law session=open because=table\n" }
    ensures order { session_line (sessions.Open reasons.Order)
        ≡ codes "law session=open because=order\n" }
{}

/// The laws of boots and of buys.
pub fn lines_of_writes()
    ensures no_boot { boot_line writes.Silent ≡ codes "law boot=none\n" }
    ensures boot_kept { boot_line writes.Kept ≡ codes "law boot=kept\n" }
    ensures boot_open { boot_line writes.Open ≡ codes "law boot=open\n" }
    ensures no_buy { buy_line writes.Silent ≡ codes "law buy=none\n" }
    ensures buy_kept { buy_line writes.Kept ≡ codes "law buy=kept\n" }
    ensures buy_open { buy_line writes.Open ≡ codes "law buy=open\n" }
{}

/// The cuts by their classes, and those that fall.
pub fn lines_of_cuts()
    ensures none { cuts_line (counts_so 0 0 0 0 0 0 0)
        ≡ codes "cuts former=0 finished=0 whole=0 tail=0 mixed=0 bootsel=0 falls=0\n" }
    ensures each { cuts_line (counts_so 1 2 3 4 5 6 7)
        ≡ codes "cuts former=1 finished=2 whole=3 tail=4 mixed=5 bootsel=6 falls=7\n" }
    ensures digits { cuts_line (counts_so 4096 99 100 10 0 9 4105)
        ≡ codes "cuts former=4096 finished=99 whole=100 tail=10 mixed=0 bootsel=9 falls=4105\n" }
{}

/// A caveat, with where it holds.
pub fn lines_of_caveats()
    ensures former { caveat_seen (seen_so caveats.SecureBoot true false 0)
        ≡ codes "caveat secure-boot former=yes end=no cuts=0\n" }
    ensures at_end { caveat_seen (seen_so (caveats.ImageInSlot 1) false true 12)
        ≡ codes "caveat image-in-slot 1 former=no end=yes cuts=12\n" }
    ensures cuts { caveat_seen
        (seen_so (caveats.FirstBlock (window_at 0x4000 0x2000)) false false 3)
        ≡ codes "caveat first-block window=0x00004000+0x00002000 former=no end=no cuts=3\n" }
    ensures both { caveat_seen (seen_so (caveats.RollbackGap 0x1a) true true 524288)
        ≡ codes "caveat rollback-gap row=0x01a former=yes end=yes cuts=524288\n" }
{}

/// The caveats of the script itself, with the event that has them.
pub fn lines_of_events()
    ensures held { held_line 0 ≡ codes "caveat held-sector event=0\n" }
    ensures held_later { held_line 65535 ≡ codes "caveat held-sector event=65535\n" }
    ensures skipped { skipped_line 3 ≡ codes "caveat skipped-block event=3\n" }
    ensures skipped_later { skipped_line 10 ≡ codes "caveat skipped-block event=10\n" }
{}

/// Each member that may not be met.
pub fn lines_of_members()
    ensures effect { unmet_line members.Effect ≡ codes "unmet effect\n" }
    ensures records { unmet_line members.Records ≡ codes "unmet records\n" }
    ensures written { unmet_line members.Written ≡ codes "unmet written\n" }
    ensures keep { unmet_line members.Keep ≡ codes "unmet keep\n" }
    ensures data_ { unmet_line members.Data ≡ codes "unmet data\n" }
    ensures cuts { unmet_line members.Cuts ≡ codes "unmet cuts\n" }
    ensures version { unmet_line members.Version ≡ codes "unmet version\n" }
    ensures fallback { unmet_line members.Fallback ≡ codes "unmet fallback\n" }
    ensures again { unmet_line members.Again ≡ codes "unmet again\n" }
    ensures covered { unmet_line members.Covered ≡ codes "unmet covered\n" }
    ensures hash { unmet_line members.Hash ≡ codes "unmet hash\n" }
    ensures no_rows { unmet_line members.NoRows ≡ codes "unmet no_rows\n" }
    ensures session { unmet_line members.Session ≡ codes "unmet session\n" }
    ensures boot { unmet_line members.Boot ≡ codes "unmet boot\n" }
    ensures buy { unmet_line members.Buy ≡ codes "unmet buy\n" }
    ensures caveats_ { unmet_line members.Caveats ≡ codes "unmet caveats\n" }
{}
