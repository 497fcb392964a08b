//! Laws of forms, proved: each is the `ensures` of a function that does nothing.

ghost use Rattle.std.specs.Prelude.{◌+◌, ◌<◌, ◌≤◌, ◌++◌, [], ◌∷◌, length, ℕ, ◌≡◌, ◌↔◌, List, Some, None};
ghost use Rattle.pico_board.specs.Content.{Content, IsContent};
ghost use Rattle.cli_inputs.specs.declared.forms.Form.{Form};
ghost use Rattle.cli_inputs.specs.declared.forms.Form.TheVariants.{Flash, Otp};
ghost use Rattle.cli_course.specs.Ends.{cut};
ghost use Rattle.cli_course.specs.Outcomes.{AreBytes};
ghost use Rattle.cli_inputs.specs.Inputs.{FormInputView, readings};
ghost use Rattle.cli_inputs.specs.Forms.{limit_of, HasForm, IsFormFault, form_fault, content_of_files};

/// A file has its form, or it has the one fault that the rules name first.
pub fn forms_are_judged()
    ensures fault { (form : Form) (bytes fault : List ℕ)
        → (form_fault form bytes ≡ Some fault) ↔ IsFormFault form bytes fault }
    ensures none { (form : Form) (bytes : List ℕ) → (form_fault form bytes ≡ None)
        ↔ HasForm form bytes }
{}

/// A flash file of bytes and an OTP file that have their forms give a content, and every content is
/// that of two such files.
pub fn every_content_is_given()
    ensures content { (f g : List ℕ) → HasForm Flash f → HasForm Otp g → AreBytes f
        → IsContent (content_of_files f g) }
    ensures every { (c : Content) → IsContent c
        → (f : List ℕ) × (g : List ℕ) × HasForm Flash f × HasForm Otp g
        × (content_of_files f g ≡ c) }
{}

/// Of a file that is longer than its form allows, one byte more than that is read. Another file is
/// read whole.
pub fn what_is_read_of_inputs()
    ensures longer { (input : FormInputView) (bytes : List ℕ) → limit_of input.form < length bytes
        → (first : List ℕ) × (rest : List ℕ) × (length first ≡ limit_of input.form + 1)
        × (bytes ≡ first ++ rest)
        × (cut (readings (input ∷ [])) (bytes ∷ []) ≡ first ∷ []) }
    ensures whole { (input : FormInputView) (bytes : List ℕ) → length bytes ≤ limit_of input.form
        → cut (readings (input ∷ [])) (bytes ∷ []) ≡ bytes ∷ [] }
{}
