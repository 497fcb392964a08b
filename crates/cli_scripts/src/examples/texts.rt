//! Worked examples of the definitions, proved by computing: each is the `ensures` of a function
//! that does nothing.

ghost use Rattle.std.specs.Prelude.{◌≡◌, [], ◌∷◌, ◌++◌, codes, replicate};
ghost use Rattle.cli_course.specs.declared.status.Status.TheVariants.{Done};
ghost use Rattle.pico_board.specs.declared.boot.BootKind.TheVariants.{Bootsel};
ghost use Rattle.boot_script.specs.Events.{PowerOn, Reset, Uf2};
ghost use Rattle.cli_course.specs.Outcomes.{refused, worked};
ghost use Rattle.script_text.specs.declared.script.TextError.TheVariants.{Line};
ghost use Rattle.script_text.specs.declared.script.TextFault.TheVariants.{BehindEnd, Image, TooLong, TooMany, Words};
ghost use Rattle.script_words.specs.declared.fault.LineFault.TheVariants as faults;
ghost use Rattle.cli_scripts.specs.Copies.{blocks_in, copy_events, copy_line, copy_work};
ghost use Rattle.cli_scripts.specs.TextWorks.{list_work, script_line, text_fault, write_work};

/// A script of power alone as text.
pub fn lists_of_scripts()
    ensures power { worked (list_work (4 ∷ 6 ∷ 0 ∷ 9 ∷ []))
        ≡ record { status = Done; text = codes "power # 0\nbuy # 1\nend\n"; files = [] } }
    ensures empty { worked (list_work (0 ∷ []))
        ≡ record { status = Done; text = codes "end\n"; files = [] } }
{}

/// The script of a text, and why a text has none.
pub fn scripts_of_texts()
    ensures two { worked (write_work (codes "t") (codes "a") [] (codes "power\nbuy\n"))
        ≡ record {
          status = Done;
          text = codes "script records=3\n";
          files = record { name = codes "a"; bytes = 4 ∷ 6 ∷ 0 ∷ [] } ∷ [];
        } }
    ensures none { worked (write_work (codes "t") (codes "a") [] [])
        ≡ record {
          status = Done;
          text = codes "script records=1\n";
          files = record { name = codes "a"; bytes = 0 ∷ [] } ∷ [];
        } }
    ensures wrong { worked (write_work (codes "t") (codes "a") [] (codes "power\nbuys\n"))
        ≡ refused (codes "t") (codes "text 2 word") }
    ensures behind { text_fault (Line 12 BehindEnd) ≡ codes "text 12 behind-end" }
    ensures word { text_fault (Line 1 (Words faults.Word)) ≡ codes "text 1 word" }
    ensures words { text_fault (Line 1 (Words faults.Words)) ≡ codes "text 1 words" }
    ensures value { text_fault (Line 1 (Words (faults.Value 7))) ≡ codes "text 1 value 7" }
    ensures image { text_fault (Line 3 Image) ≡ codes "text 3 image" }
    ensures many { text_fault (Line 524288 TooMany) ≡ codes "text 524288 too-many" }
    ensures long { text_fault (Line 1025 TooLong) ≡ codes "text 1025 too-long" }
    ensures told { script_line 2 ≡ codes "script records=2\n" }
{}

/// The blocks of a file, the events that copy them, and the script of a file of one block.
pub fn copies_of_files()
    ensures blocks { blocks_in 2 (replicate 512 1 ++ replicate 512 2)
        ≡ replicate 512 1 ∷ replicate 512 2 ∷ [] }
    ensures events { copy_events ((1 ∷ []) ∷ (2 ∷ []) ∷ [])
        ≡ PowerOn ∷ Reset Bootsel ∷ Uf2 (1 ∷ []) ∷ Uf2 (2 ∷ []) ∷ [] }
    ensures line { copy_line 65537 ≡ codes "copy blocks=65537\n" }
    ensures copied { worked (copy_work (codes "a") (replicate 512 1))
        ≡ record {
          status = Done;
          text = codes "copy blocks=1\n";
          files = record {
            name = codes "a";
            bytes = 4 ∷ 5 ∷ 2 ∷ 0 ∷ 0 ∷ 0 ∷ 0 ∷ 2 ∷ replicate 512 1 ++ 0 ∷ [];
          } ∷ [];
        } }
{}
