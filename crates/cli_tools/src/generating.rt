//! The flash of a number, and what boots on it.

ghost use Rattle.std.specs.Prelude.{◌≡◌, IfOk, IsTrue, length, string_bytes};
ghost use Rattle.std.specs.List.{flat_map};
ghost use Rattle.pico_board.specs.MemBoard.{state_of, new_state};
ghost use Rattle.pico_board.specs.declared.boot.Cpu.TheVariants.{Arm};
ghost use Rattle.pico_board.specs.declared.boot.BootKind.TheVariants.{Normal};
ghost use Rattle.boot_rules.specs.Choosing.{decision_in};
ghost use Rattle.text_words.specs.Writing.{hex_digits};
ghost use Rattle.image_pack.specs.Faults.{zero_otp};
ghost use Rattle.cli_course.specs.Outcomes.{worked};
ghost use Rattle.cli_tools.specs.ToolWorks.{gen_line, gen_work};
ghost use Rattle.cli_course.specs.Views.{answer_from};

use boot_rules::{Decision, decide};
use cli_course::{Answer, told};
use cli_inputs::{lone_board, new_pool};
use image_pack::generate;
use pico_board::{BootKind, Cpu, MemBoard};
use sha2::{Digest, Sha256};
use std::alloc::{AllocError, Global};
use text_lines::decision_line;

/// The bytes of a digest, each as two hexadecimal digits.
fn digest_word(alloc: Global, digest: &[u8; 32]) -> Result<String, AllocError>
    ensures { IfOk result (λ t. string_bytes t ≡ flat_map (hex_digits 2) digest.now) }
{
    let mut text = String::new(alloc);
    for byte in digest {
        let pair = format!(in alloc; "{byte:02x}")?;
        text.push_str(&pair)?;
    }
    Ok(text)
}

/// The line of the flash of a number.
fn gen_line(alloc: Global, n: u32, flash: &[u8]) -> Result<String, AllocError>
    ensures { IfOk result (λ t. string_bytes t ≡ gen_line n flash.now) }
{
    let digest = digest_word(alloc, &Sha256::digest(flash))?;
    format!(in alloc; "gen n={n} sha256={digest}\n")
}

/// The board in memory of a flash that is made of a number, with an OTP of zeros.
fn made_board(alloc: Global, flash: Vec<u8>) -> Result<MemBoard, AllocError>
    requires { length flash.items ≡ 0x100000 }
    ensures { IfOk result (λ board. state_of board ≡ new_state flash.items zero_otp) }
{
    lone_board(alloc, flash)
}

/// The decision of a normal boot for Arm.
fn made_decision(alloc: Global, board: &MemBoard) -> Result<Decision, AllocError>
    requires { IsTrue (state_of board.now).powered }
    ensures { IfOk result (λ d. d ≡ decision_in (state_of board.now).content Arm Normal) }
{
    let mut pool = new_pool(alloc)?;
    Ok(decide(board, &mut pool, Cpu::Arm, BootKind::Normal))
}

/// The work of `gen`: the flash of the number, and the decision of a normal boot for Arm. It fails
/// only where memory is out.
pub fn made_flash<'a>(alloc: Global, n: u32) -> Result<Answer<'a>, AllocError>
    ensures { IfOk result (λ answer. answer_from answer ≡ worked (gen_work n)) }
{
    let mut flash = Vec::new(alloc);
    generate(alloc, n, &mut flash)?;
    let mut text = gen_line(alloc, n, &flash)?;
    let board = made_board(alloc, flash)?;
    let decision = made_decision(alloc, &board)?;
    let line = decision_line(alloc, &decision)?;
    text.push_str(&line)?;
    Ok(told(alloc, text))
}
