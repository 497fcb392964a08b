//! Laws of the definitions, proved: each is the `ensures` of a function that does nothing.

ghost use Rattle.std.specs.Prelude.{◌≡◌, ◌≢◌, ◌↔◌, ◌*◌, ◌^◌, ◌++◌, ◌<◌, ◌≤◌, ℕ, List, length, codes, Result, Ok, Err, Some};
ghost use Rattle.std.specs.Result.{result_err};
ghost use Rattle.serde_json.specs.Data.{Data};
ghost use Rattle.part_table.specs.declared.partition.Partition.{Partition};
ghost use Rattle.part_table.specs.declared.table.TableFault.{TableFault};
ghost use Rattle.table_json.specs.declared.fault.JsonFault.{JsonFault};
ghost use Rattle.text_words.specs.Reading.{hex_value};
ghost use Rattle.table_json.specs.Forms.{number_of_text};
ghost use Rattle.table_json.specs.Partitions.{partition_of_value};
ghost use Rattle.table_json.specs.Says.{SaysText};
ghost use Rattle.table_json.specs.Rules.{first_broken, table_rules, spec_rules, otp_rules};
ghost use Rattle.table_json.specs.Otps.{OtpView, exponent_of, if_listed, otp_from};
ghost use Rattle.table_json.specs.OtpRules.{IsSound};
ghost use Rattle.table_json.specs.Seals.{spec_from};
ghost use Rattle.table_json.specs.Texts.{IsJsonText};
ghost use Rattle.table_json.specs.Tables.{table_fields, table_of_value};
ghost use Rattle.image_pack.specs.declared.spec.SealSpec.{SealSpec};
ghost use Rattle.image_pack.specs.ReadBack.{IsHalves};
ghost use Rattle.table_json.specs.Whole.{IsReadWith, json_answer};
ghost use Rattle.part_table.specs.declared.table.Table.{Table};
ghost use Rattle.part_table.specs.Written.{IsWritableTable, written_table, written_size};

/// A text has one value at most.
pub fn texts_have_one_value()
    ensures { (bytes : List ℕ) (d e : Data) → IsJsonText bytes d → IsJsonText bytes e → d ≡ e }
{}

/// The fault of a value's objects is that of the first rule that the value breaks, in the order of
/// the rules. There is no fault exactly where no rule is broken.
pub fn faults_are_the_first()
    ensures table { (d : Data) → result_err (table_fields d) ≡ first_broken (table_rules d) }
    ensures spec { (d : Data) → result_err (spec_from d) ≡ first_broken (spec_rules d) }
    ensures otp { (d : Data) → result_err (otp_from d) ≡ first_broken (otp_rules d) }
{}

/// The answer NotJson is about the text alone, and Memory about the memory alone: no value has
/// such an answer.
pub fn values_are_json()
    ensures table { (d : Data) → table_of_value d ≢ Err JsonFault.NotJson }
    ensures table_memory { (d : Data) → table_of_value d ≢ Err JsonFault.Memory }
    ensures spec { (d : Data) → spec_from d ≢ Err JsonFault.NotJson }
    ensures spec_memory { (d : Data) → spec_from d ≢ Err JsonFault.Memory }
    ensures otp { (d : Data) → otp_from d ≢ Err JsonFault.NotJson }
    ensures otp_memory { (d : Data) → otp_from d ≢ Err JsonFault.Memory }
{}

/// Each partition that is read of a text says by its fields what the text says by its members. It
/// has the text's permissions in both its words.
pub fn partitions_say_their_texts()
    ensures { (i : ℕ) (d : Data) (p : Partition) → partition_of_value i d ≡ Ok p → SaysText i d p }
{}

/// Three faults never come for the table of a text: a bad item, two sets of permissions in one
/// partition, and a wrong hash.
pub fn table_faults_are_few()
    ensures items { (d : Data) → table_of_value d ≢ Err (JsonFault.Table TableFault.BadItem) }
    ensures permissions { (d : Data) (i : ℕ)
        → table_of_value d ≢ Err (JsonFault.Table (TableFault.Permissions i)) }
    ensures hash { (d : Data) → table_of_value d ≢ Err (JsonFault.Table TableFault.Hash) }
{}

/// Where a value's fields say a table, its answer is TooLong exactly where the table's block has
/// more than 640 bytes. Else, where the table's words, ids, families and names are in their
/// ranges, its answer is exactly that of reading the block that is written for the table. The
/// flash has 4096 sectors, and the first two are not free.
pub fn whole_tables_are_judged_as_they_are_read()
    ensures too_long { (d : Data) (t : Table) (size : ℕ) → table_fields d ≡ Ok t
        → (table_of_value d ≡ Err (JsonFault.TooLong size))
        ↔ ((640 < written_size t) × (size ≡ written_size t)) }
    ensures read { (d : Data) (t : Table) (answer : Result Table TableFault) → table_fields d ≡ Ok t
        → IsWritableTable t → (table_of_value d ≡ json_answer answer) ↔ IsReadWith
        (written_table t) answer }
    ensures fields { (d : Data) (fault : TableFault)
        → table_of_value d ≡ Err (JsonFault.Table fault)
        → (t : Table) × (table_fields d ≡ Ok t) × (written_size t ≤ 640) }
{}

/// The two numbers of a spec's version are half words, as the law on what is read back of a sealed
/// image asks.
pub fn specs_have_half_words()
    ensures { (d : Data) (spec : SealSpec) → spec_from d ≡ Ok spec → IsHalves spec.version }
{}

/// The slot size of an OTP is 4096 times a power of two, at most 8,388,608. A row that may be
/// listed is any of the 4096 but 0x048 and 0x055.
pub fn sizes_and_rows_of_otps()
    ensures size { (size k : ℕ) → (exponent_of size ≡ Some k) ↔ ((k ≤ 11) × (size ≡ 4096 * 2 ^ k)) }
    ensures row { (row r : ℕ) → (if_listed row ≡ Some r)
        ↔ ((row < 4096) × (row ≢ 0x048) × (row ≢ 0x055) × (row ≡ r)) }
{}

/// A text names a number exactly where it is 0x and 1 to 6 hexadecimal digits of either case: the
/// number of these digits.
pub fn texts_name_numbers()
    ensures { (text : List ℕ) (n : ℕ) → (number_of_text text ≡ Some n)
        ↔ ((digits : List ℕ) × (text ≡ codes "0x" ++ digits) × (1 ≤ length digits)
        × (length digits ≤ 6) × (hex_value 0 digits ≡ Some n)) }
{}

/// The OTP of a text is sound: its slot size is one of these, and it lists at most 4096 pairs.
/// Each pair has a row that may be listed and a value of 24 bits.
pub fn otps_of_texts_are_sound()
    ensures { (d : Data) (spec : OtpView) → otp_from d ≡ Ok spec → IsSound spec }
{}
