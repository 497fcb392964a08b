//! The lines of what an update does to the images.

ghost use Rattle.std.specs.Prelude.{◌≡◌, IfOk, string_bytes};
ghost use Rattle.check_lines.specs.Texts.{effect_line, facts_text, fallback_line, image_text, loss_text, lost_line, starts_line, written_line};

use crate::words::{effect_word, hash_word, writer_word};
use check_images::{ImageFacts, JudgedWindow, Loss, LostWindow, WrittenWindow};
use check_require::ImageEffect;
use image_check::Why;
use std::alloc::{AllocError, Global};
use text_lines::{place_text, rollback_text, version_text, why_text};
use text_words::yes_or_no;

/// What is told of a valid image.
#[tactic(auto, unfolding(crate::specs::Texts::facts_text))]
fn facts_text(alloc: Global, facts: &ImageFacts) -> Result<String, AllocError>
    ensures { IfOk result (λ t. string_bytes t ≡ facts_text facts.now) }
{
    let version = version_text(alloc, facts.version)?;
    let rollback = rollback_text(alloc, facts.rollback)?;
    let trial = yes_or_no(facts.trial);
    let hash = hash_word(facts.hash);
    let firm = yes_or_no(facts.firm);
    format!(in alloc; "ok {version} rollback={rollback} trial={trial} hash={hash} firm={firm}")
}

/// An image, or the first rule that it fails.
#[tactic(auto, unfolding(crate::specs::Texts::image_text))]
fn image_text(alloc: Global, image: &Result<ImageFacts, Why>) -> Result<String, AllocError>
    ensures { IfOk result (λ t. string_bytes t ≡ image_text image.now) }
{
    match image {
        Ok(facts) => facts_text(alloc, facts),
        Err(why) => {
            let why = why_text(alloc, *why)?;
            format!(in alloc; "fault={why}")
        }
    }
}

/// The line of the effect: on the image, and whether the table and the flash are others. It fails
/// only where memory is out.
#[tactic(auto, unfolding(crate::specs::Texts::effect_line))]
pub fn effect_line(
    alloc: Global,
    effect: ImageEffect,
    table: bool,
    flash: bool,
) -> Result<String, AllocError>
    ensures { IfOk result (λ t. string_bytes t ≡ effect_line effect table flash) }
{
    let effect = effect_word(effect);
    let table = yes_or_no(table);
    let flash = yes_or_no(flash);
    format!(in alloc; "effect image={effect} table={table} flash={flash}\n")
}

/// The line of a window that was written. It fails only where memory is out.
#[tactic(auto, unfolding(crate::specs::Texts::written_line))]
pub fn written_line(alloc: Global, written: &WrittenWindow) -> Result<String, AllocError>
    ensures { IfOk result (λ t. string_bytes t ≡ written_line written.now) }
{
    let place = place_text(alloc, written.window)?;
    let by = writer_word(written.by);
    let image = image_text(alloc, &written.image)?;
    format!(in alloc; "written {place} by={by} {image}\n")
}

/// The line of the image that starts, with so many cuts at which it starts before loose bytes are
/// there; or of no start. It fails only where memory is out.
#[tactic(auto, unfolding(crate::specs::Texts::starts_line))]
pub fn starts_line(
    alloc: Global,
    image: &Option<ImageFacts>,
    loose: u32,
) -> Result<String, AllocError>
    ensures { IfOk result (λ t. string_bytes t ≡ starts_line image.now loose) }
{
    match image {
        Some(facts) => {
            let image = facts_text(alloc, facts)?;
            format!(in alloc; "starts {image} loose={loose}\n")
        }
        None => format!(in alloc; "starts none\n"),
    }
}

/// The line of the other member of the unit that starts, or of none. It fails only where memory is
/// out.
#[tactic(auto, unfolding(crate::specs::Texts::fallback_line))]
pub fn fallback_line(alloc: Global, other: &Option<JudgedWindow>) -> Result<String, AllocError>
    ensures { IfOk result (λ t. string_bytes t ≡ fallback_line other.now) }
{
    match other {
        Some(other) => {
            let place = place_text(alloc, other.window)?;
            let image = image_text(alloc, &other.image)?;
            format!(in alloc; "fallback {place} {image}\n")
        }
        None => format!(in alloc; "fallback none\n"),
    }
}

/// How the image of a window is lost.
#[tactic(auto, unfolding(crate::specs::Texts::loss_text))]
fn loss_text(alloc: Global, loss: Loss) -> Result<String, AllocError>
    ensures { IfOk result (λ t. string_bytes t ≡ loss_text loss) }
{
    match loss {
        Loss::NoUnit => format!(in alloc; "no-unit"),
        Loss::Fault(why) => {
            let why = why_text(alloc, why)?;
            format!(in alloc; "fault={why}")
        }
    }
}

/// The line of a window whose image is lost. It fails only where memory is out.
#[tactic(auto, unfolding(crate::specs::Texts::lost_line))]
pub fn lost_line(alloc: Global, lost: &LostWindow) -> Result<String, AllocError>
    ensures { IfOk result (λ t. string_bytes t ≡ lost_line lost.now) }
{
    let place = place_text(alloc, lost.window)?;
    let loss = loss_text(alloc, lost.loss)?;
    format!(in alloc; "lost {place} {loss}\n")
}
