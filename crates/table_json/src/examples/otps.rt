//! Worked examples of the texts of OTPs, each with the answer that the rules give.

ghost use Rattle.std.specs.Prelude.{◌≡◌, [], ◌∷◌, false, true, codes, length, replicate, None, Some, Ok, Err};
ghost use Rattle.serde_json.specs.Data.{Data};
ghost use Rattle.table_json.specs.Examples.{otp_said, top_value};
ghost use Rattle.table_json.specs.Forms.{number_of_text};
ghost use Rattle.table_json.specs.Otps.{listed_pairs, otp_with, pairs_after};

use crate::{Field, JsonFault, Place};

/// Whole OTPs, with defaults, and both ends of the rows, the values and the slot sizes.
pub fn otps_are_read()
    ensures none { otp_said
        (codes "{}")
        ≡ Some (Ok (otp_with false false 0 [] false)) }
    ensures all { otp_said
        (codes "{\"secure_boot\":true,\"rollback_required\":true,\"flash_off\":true,\"slot_size\":8388608,\"rows\":[[0,16777215],[4095,0]]}")
        ≡ Some (Ok (otp_with true true 11
        (record { row = 0; value = 0xffffff } ∷ record { row = 0xfff; value = 0 } ∷ []) true)) }
    ensures repeated { otp_said
        (codes "{\"rows\":[[256,1],[256,2]]}")
        ≡ Some (Ok (otp_with false false 0
        (record { row = 0x100; value = 1 } ∷ record { row = 0x100; value = 2 } ∷ []) false)) }
    ensures beside_settings { otp_said
        (codes "{\"rows\":[[71,1],[73,2],[84,3],[86,4]]}")
        ≡ Some (Ok (otp_with false false 0
        (record { row = 0x047; value = 1 } ∷ record { row = 0x049; value = 2 }
        ∷ record { row = 0x054; value = 3 } ∷ record { row = 0x056; value = 4 } ∷ []) false)) }
    ensures beside_secure { otp_said
        (codes "{\"secure_boot\":true,\"rows\":[[\"0x040\",8]]}")
        ≡ Some (Ok (otp_with false false 0 (record { row = 0x040; value = 8 } ∷ []) true)) }
    ensures no_secure { otp_said
        (codes "{\"secure_boot\":false}")
        ≡ Some (Ok (otp_with false false 0 [] false)) }
    ensures least_slot { otp_said
        (codes "{\"slot_size\":4096}")
        ≡ Some (Ok (otp_with false false 0 [] false)) }
    ensures second_slot { otp_said
        (codes "{\"slot_size\":8192}")
        ≡ Some (Ok (otp_with false false 1 [] false)) }
    ensures last_member { otp_said
        (codes "{\"flash_off\":false,\"flash_off\":true}")
        ≡ Some (Ok (otp_with false true 0 [] false)) }
{}

/// A row and a value are each a number or a text of 0x and 1 to 6 hexadecimal digits of either
/// case.
pub fn texts_are_read()
    ensures cases { otp_said
        (codes "{\"rows\":[[\"0x0c0\",\"0xABCdef\"]]}")
        ≡ Some (Ok (otp_with false false 0 (record { row = 0x0c0; value = 0xabcdef } ∷ []) false)) }
    ensures row { otp_said
        (codes "{\"rows\":[[\"0xFf\",1]]}")
        ≡ Some (Ok (otp_with false false 0 (record { row = 0x0ff; value = 1 } ∷ []) false)) }
    ensures value { otp_said
        (codes "{\"rows\":[[1,\"0x1\"]]}")
        ≡ Some (Ok (otp_with false false 0 (record { row = 1; value = 1 } ∷ []) false)) }
    ensures bounds { otp_said
        (codes "{\"rows\":[[\"0x000FFF\",\"0xffffff\"],[\"0x0\",\"0x000000\"]]}")
        ≡ Some (Ok (otp_with false false 0
        (record { row = 0xfff; value = 0xffffff } ∷ record { row = 0; value = 0 } ∷ []) false)) }
    ensures digits { number_of_text (codes "0x09afAF") ≡ Some 0x09afaf }
    ensures behind_nine { number_of_text (codes "0x:") ≡ None }
    ensures before_zero { number_of_text (codes "0x/") ≡ None }
    ensures behind_f { number_of_text (codes "0xg") ≡ None }
    ensures behind_upper { number_of_text (codes "0xG") ≡ None }
    ensures before_a { number_of_text (codes "0x`") ≡ None }
    ensures before_upper { number_of_text (codes "0x@") ≡ None }
    ensures later_digit { number_of_text (codes "0x1g") ≡ None }
    ensures six { number_of_text (codes "0xffffff") ≡ Some 0xffffff }
    ensures seven { number_of_text (codes "0x0000000") ≡ None }
    ensures no_digit { number_of_text (codes "0x") ≡ None }
    ensures empty { number_of_text [] ≡ None }
    ensures upper_x { number_of_text (codes "0X1") ≡ None }
    ensures bare { number_of_text (codes "1") ≡ None }
    ensures blank { number_of_text (codes " 0x1") ≡ None }
    ensures blank_behind { number_of_text (codes "0x1 ") ≡ None }
{}

/// Values of another form, on the other side of each bound.
pub fn otps_have_bounds()
    ensures number { otp_said (codes "{\"rollback_required\":1}")
        ≡ top_value Field.RollbackRequired }
    ensures text { otp_said (codes "{\"flash_off\":\"no\"}")
        ≡ top_value Field.FlashOff }
    ensures null { otp_said (codes "{\"flash_off\":null}")
        ≡ top_value Field.FlashOff }
    ensures small_slot { otp_said (codes "{\"slot_size\":2048}")
        ≡ top_value Field.SlotSize }
    ensures odd_slot { otp_said (codes "{\"slot_size\":12288}")
        ≡ top_value Field.SlotSize }
    ensures past_slot { otp_said (codes "{\"slot_size\":16777216}")
        ≡ top_value Field.SlotSize }
    ensures no_slot { otp_said (codes "{\"slot_size\":0}")
        ≡ top_value Field.SlotSize }
    ensures part_slot { otp_said (codes "{\"slot_size\":4096.0}")
        ≡ top_value Field.SlotSize }
    ensures no_list { otp_said (codes "{\"rows\":{}}")
        ≡ top_value Field.Rows }
    ensures no_pair { otp_said (codes "{\"rows\":[256,1]}")
        ≡ top_value Field.Rows }
    ensures one { otp_said (codes "{\"rows\":[[256]]}")
        ≡ top_value Field.Rows }
    ensures three { otp_said (codes "{\"rows\":[[256,1,1]]}")
        ≡ top_value Field.Rows }
    ensures row_of_flags { otp_said (codes "{\"rows\":[[72,0]]}")
        ≡ top_value Field.Rows }
    ensures row_of_size { otp_said (codes "{\"rows\":[[85,0]]}")
        ≡ top_value Field.Rows }
    ensures text_of_flags { otp_said (codes "{\"rows\":[[\"0x048\",0]]}")
        ≡ top_value Field.Rows }
    ensures text_of_size { otp_said (codes "{\"rows\":[[\"0x55\",0]]}")
        ≡ top_value Field.Rows }
    ensures high_row { otp_said (codes "{\"rows\":[[4096,0]]}")
        ≡ top_value Field.Rows }
    ensures high_text { otp_said (codes "{\"rows\":[[\"0x1000\",0]]}")
        ≡ top_value Field.Rows }
    ensures long_row { otp_said (codes "{\"rows\":[[\"0x00000c0\",0]]}")
        ≡ top_value Field.Rows }
    ensures long_value { otp_said (codes "{\"rows\":[[192,\"0x0000001\"]]}")
        ≡ top_value Field.Rows }
    ensures no_digits { otp_said (codes "{\"rows\":[[192,\"0x\"]]}")
        ≡ top_value Field.Rows }
    ensures truth_row { otp_said (codes "{\"rows\":[[true,0]]}")
        ≡ top_value Field.Rows }
    ensures secure_number { otp_said (codes "{\"secure_boot\":1}")
        ≡ top_value Field.SecureBoot }
    ensures secure_text { otp_said (codes "{\"secure_boot\":\"yes\"}")
        ≡ top_value Field.SecureBoot }
    ensures text_slot { otp_said (codes "{\"slot_size\":\"0x1000\"}")
        ≡ top_value Field.SlotSize }
    ensures wide { otp_said (codes "{\"rows\":[[192,16777216]]}")
        ≡ top_value Field.Rows }
    ensures later { otp_said (codes "{\"rows\":[[192,0],[192,-1]]}")
        ≡ top_value Field.Rows }
{}

/// Two faults of an OTP each: the first of them is the answer.
pub fn otps_are_judged_in_order()
    ensures list { otp_said (codes "[]")
        ≡ top_value Field.RollbackRequired }
    ensures unknown_required { otp_said (codes "{\"x\":0,\"rollback_required\":0}")
        ≡ Some (Err (JsonFault.Unknown Place.Top)) }
    ensures required_off { otp_said (codes "{\"flash_off\":0,\"rollback_required\":0}")
        ≡ top_value Field.RollbackRequired }
    ensures off_size { otp_said (codes "{\"slot_size\":0,\"flash_off\":0}")
        ≡ top_value Field.FlashOff }
    ensures size_rows { otp_said (codes "{\"rows\":0,\"slot_size\":0}")
        ≡ top_value Field.SlotSize }
    ensures rows_secure { otp_said (codes "{\"secure_boot\":0,\"rows\":[[72,0]]}")
        ≡ top_value Field.Rows }
    ensures unknown_secure { otp_said (codes "{\"secure_boot\":0,\"secure\":0}")
        ≡ Some (Err (JsonFault.Unknown Place.Top)) }
{}

/// At most 4096 pairs are listed.
pub fn pairs_are_counted()
    ensures most { (d : Data)
        → listed_pairs (replicate 4096 d) ≡ pairs_after [] (replicate 4096 d) }
    ensures past { (d : Data) → listed_pairs (replicate 4097 d) ≡ None }
{}
