//! Laws of the works, proved: each is the `ensures` of a function that does nothing.

ghost use Rattle.std.specs.Prelude.{⊤, ℕ, List};
ghost use Rattle.cli_inputs.specs.declared.forms.Form.TheVariants.{Script, Text, Uf2};
ghost use Rattle.cli_inputs.specs.Forms.{HasForm};
ghost use Rattle.cli_inputs.specs.Rules.{IsByRules};
ghost use Rattle.cli_scripts.specs.Copies.{copy_work};
ghost use Rattle.cli_scripts.specs.TextRules.{IsCopyOf, IsListOf, IsTextRefused, IsWrittenOf};
ghost use Rattle.cli_scripts.specs.TextWorks.{list_work, write_work};

/// On files that have their forms the works are right by their rules, and only `script` refuses.
pub fn works_are_right()
    ensures list { (s : List ℕ) → HasForm Script s
        → IsByRules ⊤ (list_work s) (λ name fault. ⊥) (IsListOf s) }
    ensures write { (text out image t : List ℕ) → HasForm Text t
        → IsByRules ⊤ (write_work text out image t) (IsTextRefused text image t)
        (IsWrittenOf image t out) }
    ensures copy { (out u : List ℕ) → HasForm Uf2 u
        → IsByRules ⊤ (copy_work out u) (λ name fault. ⊥) (IsCopyOf u out) }
{}
