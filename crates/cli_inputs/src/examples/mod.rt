//! Worked examples of the definitions, proved by computing: each is the `ensures` of a function
//! that does nothing.

ghost use Rattle.std.specs.Prelude.{◌≡◌, ◌*◌, [], ◌∷◌, codes, replicate, slice_get, Some, None};
ghost use Rattle.part_table.specs.declared.table.TableFault.TheVariants.{Overlap, BadItem, Permissions, Range, Link, Hash};
ghost use Rattle.cli_inputs.specs.declared.forms.Form.TheVariants.{Flash, Otp, Script, Pattern, Binary, Spec, Json, Image, SourceImage, Elf, Uf2, Text, OtpText, Require};
ghost use Rattle.boot_script.specs.declared.event.ScriptError.TheVariants.{TooMany};
ghost use Rattle.cli_inputs.specs.Forms.{limit_of, form_fault, script_text, filled_flash, filled_length, rows_of, otp_of};
ghost use Rattle.table_json.specs.declared.fault.JsonFault.TheVariants.{NotJson, Unknown, Missing, Value, TooLong, Table as Faulty};
ghost use Rattle.table_json.specs.declared.fault.Place.TheVariants.{Top, Unpartitioned as Outside, Partition as Numbered};
ghost use Rattle.table_json.specs.declared.fault.Field.TheVariants.{Processor, Partitions, Families, IgnoreArm};
ghost use Rattle.cli_inputs.specs.JsonTexts.{json_text};

/// Limits, and the faults of files on both sides of their bounds.
pub fn forms_of_files()
    ensures flash_limit { limit_of Flash ≡ 16777216 }
    ensures otp_limit { limit_of Otp ≡ 16384 }
    ensures script_limit { limit_of Script ≡ 67108864 }
    ensures empty { form_fault Flash [] ≡ Some (codes "empty") }
    ensures one { form_fault Flash (0 ∷ []) ≡ None }
    ensures no_rows { form_fault Otp [] ≡ None }
    ensures three { form_fault Otp (0 ∷ 0 ∷ 0 ∷ []) ≡ Some (codes "otp-length") }
    ensures rows { rows_of (1 ∷ 2 ∷ 3 ∷ 0 ∷ 255 ∷ 255 ∷ 255 ∷ 0 ∷ []) ≡ 0x030201 ∷ 0xffffff ∷ [] }
    ensures narrow { form_fault Otp (0 ∷ 0 ∷ 0 ∷ 0 ∷ 255 ∷ 255 ∷ 255 ∷ 0 ∷ []) ≡ None }
    ensures wide { form_fault Otp (0 ∷ 0 ∷ 0 ∷ 0 ∷ 0 ∷ 0 ∷ 0 ∷ 1 ∷ 0 ∷ 0 ∷ 0 ∷ 2 ∷ [])
        ≡ Some (codes "otp-row 0x001") }
    ensures part_of_wide { form_fault Otp (0 ∷ 0 ∷ 0 ∷ 1 ∷ 0 ∷ []) ≡ Some (codes "otp-length") }
{}

/// The form of a script: it ends at its first end, and what follows is not read. The first fault
/// is the answer.
pub fn forms_of_scripts()
    ensures ended { form_fault Script (4 ∷ 0 ∷ []) ≡ None }
    ensures behind { form_fault Script (0 ∷ 9 ∷ []) ≡ None }
    ensures empty { form_fault Script [] ≡ Some (codes "script short at=0") }
    ensures short { form_fault Script (4 ∷ []) ≡ Some (codes "script short at=1") }
    ensures kind { form_fault Script (4 ∷ 6 ∷ 7 ∷ []) ≡ Some (codes "script kind at=2") }
    ensures pattern { form_fault Script (3 ∷ 0 ∷ 0 ∷ 0 ∷ 0 ∷ 1 ∷ 0 ∷ 0 ∷ [])
        ≡ Some (codes "script pattern at=0") }
    ensures too_many { script_text TooMany ≡ codes "script too-many" }
{}

/// A UF2 file has whole blocks, and at least one. The text of a script has a bound alone.
pub fn forms_of_bridges()
    ensures uf2_limit { limit_of Uf2 ≡ 65537 * 512 }
    ensures text_limit { limit_of Text ≡ 209715200 }
    ensures source_limit { limit_of SourceImage ≡ 16777216 }
    ensures source_of_no_byte { form_fault SourceImage [] ≡ Some (codes "empty") }
    ensures source_of_one { form_fault SourceImage (0 ∷ []) ≡ None }
    ensures image_of_no_byte { form_fault Image [] ≡ None }
    ensures no_block { form_fault Uf2 [] ≡ Some (codes "uf2-length") }
    ensures part { form_fault Uf2 (replicate 511 0) ≡ Some (codes "uf2-length") }
    ensures block { form_fault Uf2 (replicate 512 0) ≡ None }
    ensures more { form_fault Uf2 (replicate 513 0) ≡ Some (codes "uf2-length") }
    ensures no_text { form_fault Text [] ≡ None }
{}

/// A pattern has at least one byte.
pub fn forms_of_patterns()
    ensures limit { limit_of Pattern ≡ 4096 }
    ensures empty { form_fault Pattern [] ≡ Some (codes "pattern-length") }
    ensures one { form_fault Pattern (0 ∷ []) ≡ None }
{}

/// The length of the flash that a file gives: whole sectors, and at least two.
pub fn filled_lengths()
    ensures one { filled_length 1 ≡ 8192 }
    ensures sector { filled_length 4096 ≡ 8192 }
    ensures two { filled_length 8192 ≡ 8192 }
    ensures more { filled_length 8193 ≡ 12288 }
    ensures most { filled_length 16777215 ≡ 16777216 }
{}

/// The greatest lengths of the inputs of the tools.
pub fn limits_of_tools()
    ensures binary { limit_of Binary ≡ 16777216 }
    ensures spec { limit_of Spec ≡ 65536 }
    ensures json { limit_of Json ≡ 65536 }
    ensures elf { limit_of Elf ≡ 67108864 }
{}

/// The texts of the faults of a JSON text.
pub fn json_texts()
    ensures not_json { json_text NotJson ≡ codes "not-json" }
    ensures unknown_top { json_text (Unknown Top) ≡ codes "unknown top" }
    ensures unknown_outside { json_text (Unknown Outside) ≡ codes "unknown unpartitioned" }
    ensures unknown_part { json_text (Unknown (Numbered 14)) ≡ codes "unknown partition 14" }
    ensures missing { json_text (Missing Top Processor) ≡ codes "missing top processor" }
    ensures value { json_text (Value Top Partitions) ≡ codes "value top partitions" }
    ensures value_outside { json_text (Value Outside Families)
        ≡ codes "value unpartitioned families" }
    ensures value_part { json_text (Value (Numbered 1) IgnoreArm)
        ≡ codes "value partition 1 ignore_arm" }
    ensures too_long { json_text (TooLong 644) ≡ codes "too-long 644" }
    ensures bad_item { json_text (Faulty BadItem) ≡ codes "table bad-item" }
    ensures permissions { json_text (Faulty (Permissions 3)) ≡ codes "table permissions 3" }
    ensures range { json_text (Faulty (Range 0)) ≡ codes "table range 0" }
    ensures overlap { json_text (Faulty (Overlap 0 1)) ≡ codes "table overlap 0 1" }
    ensures link { json_text (Faulty (Link 2)) ≡ codes "table link 2" }
    ensures hash { json_text (Faulty Hash) ≡ codes "table hash" }
{}

/// The first fault of a JSON text.
pub fn forms_of_texts()
    ensures binary { form_fault Binary [] ≡ None }
    ensures empty { form_fault Spec [] ≡ Some (codes "not-json") }
    ensures not_utf8 { form_fault Json (34 ∷ 255 ∷ 34 ∷ []) ≡ Some (codes "not-json") }
    ensures spec { form_fault Spec (codes "{\"processor\":\"arm\",\"version\":[1,9]}") ≡ None }
    ensures processor { form_fault Spec (codes "{}") ≡ Some (codes "missing top processor") }
    ensures list { form_fault Json (codes "[]") ≡ Some (codes "value top partitions") }
    ensures list_of_spec { form_fault Spec (codes "[]") ≡ Some (codes "value top processor") }
    ensures unknown { form_fault Json (codes "{\"x\":1}") ≡ Some (codes "unknown top") }
    ensures otp { form_fault OtpText (codes "{}") ≡ None }
    ensures list_of_otp { form_fault OtpText (codes "[]")
        ≡ Some (codes "value top rollback_required") }
    ensures otp_unknown { form_fault OtpText (codes "{\"x\":1}") ≡ Some (codes "unknown top") }
    ensures asks { form_fault Require (codes "{\"hash\":true}") ≡ None }
    ensures asks_of_list { form_fault Require (codes "[]") ≡ Some (codes "value top effect") }
    ensures asks_unknown { form_fault Require (codes "{\"x\":1}") ≡ Some (codes "unknown top") }
    ensures asks_nothing { form_fault Require [] ≡ Some (codes "not-json") }
{}

/// An image has a bound, and no byte is no fault of its form.
pub fn forms_of_images()
    ensures limit { limit_of Image ≡ 16777216 }
    ensures empty { form_fault Image [] ≡ None }
    ensures one { form_fault Image (0 ∷ []) ≡ None }
    ensures empty_elf { form_fault Elf [] ≡ None }
{}

/// A flash file is filled with 0xff.
pub fn filled_flashes()
    ensures own { slice_get (filled_flash (7 ∷ [])) 0 ≡ Some 7 }
    ensures behind { slice_get (filled_flash (7 ∷ [])) 1 ≡ Some 255 }
    ensures last { slice_get (filled_flash (7 ∷ [])) 8191 ≡ Some 255 }
    ensures past { slice_get (filled_flash (7 ∷ [])) 8192 ≡ None }
{}

/// An OTP file gives 4096 rows. Rows that it lacks are 0.
pub fn rows_of_otps()
    ensures own { slice_get (otp_of (1 ∷ 2 ∷ 3 ∷ 0 ∷ [])) 0 ≡ Some 0x030201 }
    ensures behind { slice_get (otp_of (1 ∷ 2 ∷ 3 ∷ 0 ∷ [])) 1 ≡ Some 0 }
    ensures last { slice_get (otp_of (1 ∷ 2 ∷ 3 ∷ 0 ∷ [])) 4095 ≡ Some 0 }
    ensures past { slice_get (otp_of (1 ∷ 2 ∷ 3 ∷ 0 ∷ [])) 4096 ≡ None }
{}
