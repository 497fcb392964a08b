//! Laws of the work, each the contract of a function that does nothing.

pub mod cuts;
pub mod names;
pub mod reports;

ghost use Rattle.std.specs.Prelude.{◌≡◌, ◌↔◌, [], ℕ, List};
ghost use Rattle.pico_board.specs.declared.boot.Cpu.{Cpu};
ghost use Rattle.pico_board.specs.Content.{Content, IsContent};
ghost use Rattle.boot_script.specs.Events.{EventView};
ghost use Rattle.check_require.specs.Meeting.{unmet};
ghost use Rattle.check_require.specs.Requires.{RequireView};
ghost use Rattle.check_require.specs.Texts.{require_read};
ghost use Rattle.cli_course.specs.declared.status.Status.TheVariants.{Done};
ghost use Rattle.cli_course.specs.Outcomes.{AnswerView};
ghost use Rattle.cli_inputs.specs.declared.forms.Form.TheVariants.{Require};
ghost use Rattle.cli_inputs.specs.Forms.{HasForm};
ghost use Rattle.cli_inputs.specs.Rules.{IsByRules};
ghost use Rattle.cli_check.specs.CheckRules.{IsAskedOf, IsCheckOf, IsCheckRefused};
ghost use Rattle.cli_check.specs.CheckTexts.{findings_text};
ghost use Rattle.cli_check.specs.CheckWorks.{asked_work, check_work};
ghost use Rattle.cli_check.specs.Finding.{findings_of};
ghost use Rattle.cli_check.specs.FindingRules.{AreFindings};
ghost use Rattle.cli_check.specs.Findings.{FindingsView};
ghost use Rattle.cli_check.specs.Reporting.{report_of};

/// On a content the outcome of `check` is the one that is right by its rules, also by a text of
/// what is asked that has its form. It refuses a script exactly where its trace is too long.
pub fn works_are_right()
    ensures plain { (c : Content) (cpu : Cpu) (script s p : List ℕ) (ask : RequireView)
        → IsByRules (IsContent c) (check_work c cpu script s p ask)
        (IsCheckRefused script c cpu s) (IsCheckOf c cpu s p ask) }
    ensures asked { (c : Content) (cpu : Cpu) (script s p require : List ℕ)
        → HasForm Require require
        → IsByRules (IsContent c) (asked_work c cpu script s p (require_read require))
        (IsCheckRefused script c cpu s) (IsAskedOf c cpu s p require) }
{}

/// What the functions find of a script on a content is what its rules name, and nothing else is.
pub fn what_is_found_is_right()
    ensures found { (c : Content) (cpu : Cpu) (events : List EventView) (pattern : List ℕ)
        → IsContent c → AreFindings c cpu events pattern (findings_of c cpu events pattern) }
    ensures once { (c : Content) (cpu : Cpu) (events : List EventView) (pattern : List ℕ)
        (f : FindingsView)
        → IsContent c → AreFindings c cpu events pattern f
        → f ≡ findings_of c cpu events pattern }
{}

/// Only one outcome is right for given inputs, so only one text and one status are.
pub fn one_outcome_is_right()
    ensures plain { (c : Content) (cpu : Cpu) (s p : List ℕ) (ask : RequireView)
        (one two : AnswerView)
        → IsCheckOf c cpu s p ask one → IsCheckOf c cpu s p ask two → one ≡ two }
    ensures asked { (c : Content) (cpu : Cpu) (s p require : List ℕ) (one two : AnswerView)
        → IsAskedOf c cpu s p require one → IsAskedOf c cpu s p require two → one ≡ two }
{}

/// The status is 0 exactly where no member is unmet, and so exactly where the text has no line
/// `unmet`: where it is that of what is found alone.
pub fn the_status_is_zero_exactly_where_no_line_is_unmet()
    ensures members { (c : Content) (cpu : Cpu) (s p : List ℕ) (ask : RequireView)
        (o : AnswerView) (is : IsCheckOf c cpu s p ask o)
        → (o.status ≡ Done) ↔ (unmet ask (report_of is.findings) ≡ []) }
    ensures lines { (c : Content) (cpu : Cpu) (s p : List ℕ) (ask : RequireView)
        (o : AnswerView) (is : IsCheckOf c cpu s p ask o)
        → (o.status ≡ Done) ↔ (o.text ≡ findings_text is.findings) }
{}
