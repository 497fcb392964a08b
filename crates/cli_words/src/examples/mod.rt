//! Worked examples of the definitions, proved by computing: each is the `ensures` of a function
//! that does nothing.

ghost use Rattle.std.specs.Prelude.{◌≡◌, [], ◌++◌, codes, Some, None, true};
ghost use Rattle.pico_board.specs.declared.boot.Cpu.TheVariants.{Arm, Riscv};
ghost use Rattle.pico_board.specs.declared.boot.BootKind.TheVariants.{Normal, Bootsel as AskBootsel, Update};
ghost use Rattle.cli_words.specs.Rows.{row_of, command_line, command_of, boot_line, Boot};
ghost use Rattle.cli_words.specs.declared.rows.Verb.TheVariants as verbs;
ghost use Rattle.std.specs.List.{list_all};
ghost use Rattle.cli_words.specs.declared.rows.TheConstants.{VERBS};
ghost use Rattle.cli_words.specs.declared.usage.TheConstants.{STATUSES};
ghost use Rattle.part_table.specs.Families.{family_of};
ghost use Rattle.cli_words.specs.Examples.{board, command_by, has_one_file};
ghost use Rattle.cli_words.specs.Usages.{help_text, release_line, row_line, synopsis};
ghost use Rattle.cli_words.specs.Values.{boot_kind_of, no_values};

/// The arguments of each command.
pub fn words_of_commands()
    ensures boot { command_by (codes "boot f o arm normal")
        ≡ Some (Boot (codes "f") (codes "o") Arm Normal) }
    ensures bootsel { command_by (codes "boot  o riscv bootsel")
        ≡ Some (Boot (codes "") (codes "o") Riscv AskBootsel) }
    ensures info { command_by (codes "info f o arm") ≡ Some (command_line verbs.Info board) }
    ensures data { command_by (codes "data f o arm normal")
        ≡ Some (boot_line verbs.OwnedData (codes "f") (codes "o") Arm Normal) }
    ensures explain { command_by (codes "explain f o riscv bootsel")
        ≡ Some (command_line verbs.Explain (record board { cpu = Riscv; kind = AskBootsel })) }
    ensures caveats { command_by (codes "caveats f o riscv normal")
        ≡ Some (boot_line verbs.Caveats (codes "f") (codes "o") Riscv Normal) }
    ensures map { command_by (codes "map f o riscv a")
        ≡ Some (command_line verbs.Map (record board { cpu = Riscv; out = codes "a" })) }
    ensures map_to_normal { command_by (codes "map f o arm normal")
        ≡ Some (command_line verbs.Map (record board { out = codes "normal" })) }
    ensures replay { command_by (codes "replay f o riscv s a b")
        ≡ Some (command_line verbs.Replay
        (record board {
          cpu = Riscv;
          file = codes "s";
          out_flash = codes "a";
          out_otp = codes "b";
        })) }
    ensures chart { command_by (codes "chart f o arm s p a")
        ≡ Some (command_line verbs.Chart
        (record board { file = codes "s"; pattern = codes "p"; out = codes "a" })) }
    ensures cuts { command_by (codes "cuts f o arm s p")
        ≡ Some (command_line verbs.Cuts (record board { file = codes "s"; pattern = codes "p" })) }
    ensures check { command_by (codes "check f o arm s p")
        ≡ Some (command_line verbs.Check (record board { file = codes "s"; pattern = codes "p" })) }
    ensures help { command_by (codes "--help") ≡ Some (command_line verbs.Usage no_values) }
    ensures short_help { command_by (codes "-h") ≡ Some (command_line verbs.ShortUsage no_values) }
    ensures help_word { command_by (codes "help") ≡ Some (command_line verbs.WordUsage no_values) }
    ensures help_of { command_by (codes "help boot")
        ≡ Some (command_line verbs.Help (record no_values { command = codes "boot" })) }
    ensures help_of_help { command_by (codes "help help")
        ≡ Some (command_line verbs.Help (record no_values { command = codes "help" })) }
    ensures help_of_short { command_by (codes "help -h")
        ≡ Some (command_line verbs.Help (record no_values { command = codes "-h" })) }
    ensures release { command_by (codes "--version") ≡ Some (command_line verbs.Release no_values) }
{}

/// The kind of an update boot has eight hexadecimal digits of either case.
pub fn update_words()
    ensures lower { boot_kind_of (codes "update=0x1002abcd") ≡ Some (Update 0x1002abcd) }
    ensures upper { boot_kind_of (codes "update=0xFFFFFFFF") ≡ Some (Update 0xffffffff) }
    ensures mixed { boot_kind_of (codes "update=0x09afAF00") ≡ Some (Update 0x09afaf00) }
    ensures short { boot_kind_of (codes "update=0x1002000") ≡ None }
    ensures long { boot_kind_of (codes "update=0x100200000") ≡ None }
    ensures prefix { boot_kind_of (codes "update=0X10020000") ≡ None }
    ensures below_0 { boot_kind_of (codes "update=0x1002000/") ≡ None }
    ensures above_9 { boot_kind_of (codes "update=0x1002000:") ≡ None }
    ensures below_upper { boot_kind_of (codes "update=0x1002000@") ≡ None }
    ensures above_upper { boot_kind_of (codes "update=0x1002000G") ≡ None }
    ensures below_lower { boot_kind_of (codes "update=0x1002000`") ≡ None }
    ensures above_lower { boot_kind_of (codes "update=0x1002000g") ≡ None }
{}

/// Arguments that are no command.
pub fn other_words()
    ensures none { command_of [] ≡ None }
    ensures three { command_by (codes "boot f o") ≡ None }
    ensures six { command_by (codes "boot f o arm normal ") ≡ None }
    ensures cpu { command_by (codes "boot f o Arm normal") ≡ None }
    ensures kind { command_by (codes "boot f o arm Normal") ≡ None }
    ensures name { command_by (codes "info f o arm normal") ≡ None }
    ensures four { command_by (codes "boot f o arm") ≡ None }
    ensures info_cpu { command_by (codes "info f o x86") ≡ None }
    ensures one { command_by (codes "-help") ≡ None }
    ensures help_help { command_by (codes "help boots") ≡ None }
    ensures help_two { command_by (codes "help boot info") ≡ None }
    ensures dash_two { command_by (codes "-h boot") ≡ None }
    ensures two { command_by (codes "--version x") ≡ None }
    ensures seven { command_by (codes "boot f o arm s a b") ≡ None }
    ensures replay_cpu { command_by (codes "replay f o x86 s a b") ≡ None }
    ensures map_cpu { command_by (codes "map f o x86 a") ≡ None }
    ensures map_of_three { command_by (codes "map f o arm") ≡ None }
    ensures map_of_five { command_by (codes "map f o arm normal a") ≡ None }
    ensures eight { command_by (codes "replay f o arm s a b c") ≡ None }
{}

/// The arguments of a sealing and of a table.
pub fn words_of_sealings()
    ensures seal { command_by (codes "seal b s a")
        ≡ Some (command_line verbs.Seal
        (record no_values { file = codes "b"; spec = codes "s"; out = codes "a" })) }
    ensures table { command_by (codes "table t a")
        ≡ Some (command_line verbs.Table (record no_values { file = codes "t"; out = codes "a" })) }
    ensures otp { command_by (codes "otp t a")
        ≡ Some (command_line verbs.OtpFile
        (record no_values { file = codes "t"; out = codes "a" })) }
    ensures elf { command_by (codes "elf e s a")
        ≡ Some (command_line verbs.Elf
        (record no_values { file = codes "e"; spec = codes "s"; out = codes "a" })) }
    ensures elf_of_three { command_by (codes "elf e s") ≡ None }
    ensures seal_of_three { command_by (codes "seal b s") ≡ None }
    ensures table_of_four { command_by (codes "table t a arm") ≡ None }
    ensures seal_for_arm { command_by (codes "seal b s arm")
        ≡ Some (command_line verbs.Seal
        (record no_values { file = codes "b"; spec = codes "s"; out = codes "arm" })) }
{}

/// The arguments of each of the commands.
pub fn words_of_tools()
    ensures uf2 { command_by (codes "uf2 i data a")
        ≡ Some (command_line verbs.Uf2
        (record no_values { file = codes "i"; family = 0xe48bff58; out = codes "a" })) }
    ensures uf2_cpu { command_by (codes "uf2 i data arm")
        ≡ Some (command_line verbs.Uf2
        (record no_values { file = codes "i"; family = 0xe48bff58; out = codes "arm" })) }
    ensures plan { command_by (codes "plan f o riscv i a")
        ≡ Some (command_line verbs.Plan
        (record board { cpu = Riscv; file = codes "i"; out = codes "a" })) }
    ensures load { command_by (codes "load f o arm i a")
        ≡ Some (command_line verbs.Load (record board { file = codes "i"; out = codes "a" })) }
    ensures stage { command_by (codes "stage f o arm i a")
        ≡ Some (command_line verbs.Stage (record board { file = codes "i"; out = codes "a" })) }
    ensures sweep { command_by (codes "sweep f o arm s p")
        ≡ Some (command_line verbs.Sweep (record board { file = codes "s"; pattern = codes "p" })) }
    ensures firm { command_by (codes "firm i riscv")
        ≡ Some (command_line verbs.Firm (record no_values { file = codes "i"; cpu = Riscv })) }
    ensures copy { command_by (codes "copy u a")
        ≡ Some (command_line verbs.Copy (record no_values { file = codes "u"; out = codes "a" })) }
    ensures list { command_by (codes "list 7")
        ≡ Some (command_line verbs.ListScript (record no_values { file = codes "7" })) }
    ensures script { command_by (codes "script t a")
        ≡ Some (command_line verbs.WriteScript
        (record no_values { file = codes "t"; out = codes "a" })) }
    ensures script_image { command_by (codes "script t i a")
        ≡ Some (command_line verbs.WriteImageScript
        (record no_values { file = codes "t"; image = codes "i"; out = codes "a" })) }
    ensures made { command_by (codes "gen 007")
        ≡ Some (command_line verbs.Gen (record no_values { number = 7 })) }
{}

/// Arguments that are none of the commands.
pub fn other_words_of_tools()
    ensures family { command_by (codes "uf2 i arm a") ≡ None }
    ensures three { command_by (codes "uf2 i data") ≡ None }
    ensures cpu { command_by (codes "plan f o x86 i a") ≡ None }
    ensures load_cpu { command_by (codes "load f o x86 i a") ≡ None }
    ensures firm_cpu { command_by (codes "firm i x86") ≡ None }
    ensures firm_alone { command_by (codes "firm i") ≡ None }
    ensures sweep_cpu { command_by (codes "sweep f o x86 s p") ≡ None }
    ensures sweep_of_five { command_by (codes "sweep f o arm s") ≡ None }
    ensures five { command_by (codes "plan f o arm i") ≡ None }
    ensures name { command_by (codes "boot f o arm i a") ≡ None }
    ensures copy_alone { command_by (codes "copy u") ≡ None }
    ensures list_of_two { command_by (codes "list s a") ≡ None }
    ensures script_alone { command_by (codes "script t") ≡ None }
    ensures script_of_four { command_by (codes "script t i a b") ≡ None }
    ensures number { command_by (codes "gen x") ≡ None }
    ensures two { command_by (codes "uf2 7") ≡ None }
{}

/// The families by their arguments.
pub fn families()
    ensures rp2040 { family_of (codes "rp2040") ≡ Some 0xe48bff56 }
    ensures absolute { family_of (codes "absolute") ≡ Some 0xe48bff57 }
    ensures data { family_of (codes "data") ≡ Some 0xe48bff58 }
    ensures arm_s { family_of (codes "rp2350-arm-s") ≡ Some 0xe48bff59 }
    ensures riscv { family_of (codes "rp2350-riscv") ≡ Some 0xe48bff5a }
    ensures arm_ns { family_of (codes "rp2350-arm-ns") ≡ Some 0xe48bff5b }
    ensures prefix { family_of (codes "rp2350-arm") ≡ None }
    ensures upper { family_of (codes "DATA") ≡ None }
{}

/// The line of the version.
pub fn lines_of_releases()
    ensures { release_line ≡ codes "dugnatsew 0.1.0\n" }
{}

/// The arguments of each row that names the file a command works on, as the usage calls them.
pub fn synopses_of_rows()
    ensures replay { synopsis (row_of verbs.Replay)
        ≡ codes "replay FLASH OTP CPU SCRIPT OUTFLASH OUTOTP" }
    ensures sweep { synopsis (row_of verbs.Sweep) ≡ codes "sweep FLASH OTP CPU SCRIPT PATTERN" }
    ensures chart { synopsis (row_of verbs.Chart) ≡ codes "chart FLASH OTP CPU SCRIPT PATTERN OUT" }
    ensures cuts { synopsis (row_of verbs.Cuts) ≡ codes "cuts FLASH OTP CPU SCRIPT PATTERN" }
    ensures check { synopsis (row_of verbs.Check) ≡ codes "check FLASH OTP CPU SCRIPT PATTERN" }
    ensures seal { synopsis (row_of verbs.Seal) ≡ codes "seal BIN SPEC OUT" }
    ensures elf { synopsis (row_of verbs.Elf) ≡ codes "elf ELF SPEC OUT" }
    ensures firm { synopsis (row_of verbs.Firm) ≡ codes "firm IMAGE CPU" }
    ensures table { synopsis (row_of verbs.Table) ≡ codes "table JSON OUT" }
    ensures otp { synopsis (row_of verbs.OtpFile) ≡ codes "otp JSON OUT" }
    ensures uf2 { synopsis (row_of verbs.Uf2) ≡ codes "uf2 IMAGE FAMILY OUT" }
    ensures plan { synopsis (row_of verbs.Plan) ≡ codes "plan FLASH OTP CPU IMAGE OUT" }
    ensures load { synopsis (row_of verbs.Load) ≡ codes "load FLASH OTP CPU IMAGE OUT" }
    ensures stage { synopsis (row_of verbs.Stage) ≡ codes "stage FLASH OTP CPU IMAGE OUT" }
    ensures copy { synopsis (row_of verbs.Copy) ≡ codes "copy UF2 OUT" }
    ensures list { synopsis (row_of verbs.ListScript) ≡ codes "list SCRIPT" }
    ensures script { synopsis (row_of verbs.WriteScript) ≡ codes "script TEXT OUT" }
    ensures script_image { synopsis (row_of verbs.WriteImageScript)
        ≡ codes "script TEXT IMAGE OUT" }
{}

/// No row names two files that a command works on.
pub fn rows_have_one_file()
    ensures { list_all has_one_file VERBS ≡ true }
{}

/// The line of a row has its name and arguments in a column of 23 characters, where they are no
/// longer. Then it has what the command does.
pub fn lines_of_rows()
    ensures full { row_line (row_of verbs.Boot)
        ≡ codes "boot FLASH OTP CPU KIND  which image a boot starts, or why it falls to BOOTSEL\n" }
    ensures short { row_line (row_of verbs.Release)
        ≡ codes "--version                the version of the program\n" }
    ensures long { row_line (row_of verbs.Plan) ≡ codes
        "plan FLASH OTP CPU IMAGE OUT  a script that writes an image to where a download of it goes\n" }
{}

/// The help of a command is its line, the lines on its arguments, and those on the statuses. Of a
/// name of two rows it is the help of both.
pub fn helps_of_commands()
    ensures one { help_text (codes "gen") ≡ codes
        "gen N                    the digest of a flash that is made of a number, and what boots on it\n"
        ++ (codes "N       a number below 4294967296, of 1 to 10 decimal digits\n"
        ++ STATUSES.now) }
    ensures two { help_text (codes "help") ≡ codes
        "help                     the same\nhelp COMMAND             how one command is used\n"
        ++ (codes "COMMAND  the first word of a line above\n" ++ STATUSES.now) }
{}
