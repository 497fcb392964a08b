//! Worked examples of the definitions, proved by computing: each is the `ensures` of a function
//! that does nothing.

ghost use Rattle.std.specs.Prelude.{◌≡◌, [], codes, Some, None};
ghost use Rattle.text_words.specs.Writing.{hex_byte, hex_row, hex_word, line};
ghost use Rattle.text_words.specs.Reading.{hex_value, number_in, number_of};

/// A number has 0x and eight lower-case hexadecimal digits, a byte two, and a row at least three.
pub fn hexadecimal_words()
    ensures zero { hex_word 0 ≡ codes "0x00000000" }
    ensures short { hex_word 0x114 ≡ codes "0x00000114" }
    ensures lower_case { hex_word 0xabcdef09 ≡ codes "0xabcdef09" }
    ensures most { hex_word 0xffffffff ≡ codes "0xffffffff" }
    ensures byte { hex_byte 0x0a ≡ codes "0x0a" }
    ensures most_of_a_byte { hex_byte 0xff ≡ codes "0xff" }
    ensures row { hex_row 0x0bf ≡ codes "0x0bf" }
    ensures long_row { hex_row 0x12ab ≡ codes "0x12ab" }
{}

/// A line has a line feed at its end.
pub fn lines()
    ensures { line (codes "end") ≡ codes "end\n" }
{}

/// A number has 1 to 10 decimal digits, of which the first may be 0, and is below 2^32.
pub fn numbers()
    ensures zero { number_of (codes "0") ≡ Some 0 }
    ensures digits { number_of (codes "1234567890") ≡ Some 1234567890 }
    ensures zeros { number_of (codes "0000000007") ≡ Some 7 }
    ensures most { number_of (codes "4294967295") ≡ Some 4294967295 }
    ensures past { number_of (codes "4294967296") ≡ None }
    ensures none { number_of [] ≡ None }
    ensures eleven { number_of (codes "00000000007") ≡ None }
    ensures below_0 { number_of (codes "7/") ≡ None }
    ensures above_9 { number_of (codes "7:") ≡ None }
    ensures sign { number_of (codes "+7") ≡ None }
    ensures blank { number_of (codes " 7") ≡ None }
{}

/// Of a number in its one spelling no leading digit is 0.
pub fn short_numbers()
    ensures zero { number_in (codes "0") ≡ Some 0 }
    ensures zeros { number_in (codes "07") ≡ None }
    ensures most { number_in (codes "4294967295") ≡ Some 4294967295 }
    ensures past { number_in (codes "4294967296") ≡ None }
    ensures none { number_in [] ≡ None }
{}

/// Hexadecimal digits are of either case.
pub fn hexadecimal_numbers()
    ensures lower_case { hex_value 0 (codes "09af") ≡ Some 0x09af }
    ensures upper_case { hex_value 0 (codes "09AF") ≡ Some 0x09af }
    ensures below_0 { hex_value 0 (codes "/") ≡ None }
    ensures above_9 { hex_value 0 (codes ":") ≡ None }
    ensures below_a { hex_value 0 (codes "@") ≡ None }
    ensures above_f { hex_value 0 (codes "G") ≡ None }
    ensures below_lower_a { hex_value 0 (codes "`") ≡ None }
    ensures above_lower_f { hex_value 0 (codes "g") ≡ None }
{}
