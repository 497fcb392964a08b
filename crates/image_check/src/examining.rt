//! An image before its digest is made.

ghost use Rattle.std.specs.Prelude.{◌≡◌, ℕ, List, ◌+◌, ◌≤◌, ◌^◌, ◌||◌, if◌then◌else◌, false, true, Ok, Some, None, IsTrue, IfOk, IfSome, length, slice_get};
ghost use Rattle.std.specs.List.{list_any};
ghost use Rattle.block_codec.specs.Blocks.{BlockView, IsWholeBlock};
ghost use Rattle.block_codec.specs.Reading.{block_at};
ghost use Rattle.block_loop.specs.Loop.{loop_of};
ghost use Rattle.block_loop.specs.Offsets.{AreLoop};
ghost use Rattle.image_def.specs.Guarantees.{IsDefinition};
ghost use Rattle.image_def.specs.Suits.{does_suit, has_image_type, last_suiting};
ghost use Rattle.load_map.specs.Stored.{AreStoredIn};
ghost use Rattle.otp_roll.specs.Rows.{AreRollbackRows};
ghost use Rattle.image_check.specs.Examined.{admitted_in, examined_in, loaded_in, map_answered};
ghost use Rattle.image_check.specs.Rules.{definition_answer, entry_answer, items_answer, map_answer, rollback_fault, trial_fault};
ghost use Rattle.image_check.specs.Image.{defined_in};

use crate::addressing::Addressing;
use crate::entry::entry_of;
use crate::why::Why;
use block_codec::{Block, Def, EntryPoint};
use block_loop::{BlockLoop, LoopFault, block_at, walk};
use image_def::{image_flags, read_def, suits};
use load_map::{Loads, read_map_at};
use otp_roll::{count, required};
use pico_board::{Board, Cpu, View};

/// An image that every rule before the digest rule lets pass.
#[derive(Debug, Drop)]
pub struct Candidate {
    /// The definition's block.
    pub block: Block,
    /// What the definition says.
    pub def: Def,
    /// What the image's load map loads; nothing without one.
    pub loads: Loads,
    /// Where the image starts.
    pub entry: EntryPoint,
}

/// The definition of a window's image, and what it says.
#[derive(Debug, Drop)]
pub struct Defined {
    /// The definition's block.
    pub block: Block,
    /// What the items of the definition's block say.
    pub def: Def,
}

/// What was seen of a loop's blocks, in loop order.
#[derive(Drop)]
struct ScannedBlocks {
    /// Some block has an IMAGE_TYPE item.
    typed: bool,
    /// The last block that suits the processor.
    suiting: Option<Block>,
}

/// The block that stands at this offset.
pub(crate) fn block_there<V: View>(view: &V, at: u32) -> Block
    requires { (b : BlockView) × (block_at (V.bytes view.now) at ≡ Some b) }
    ensures { block_at (V.bytes view.now) at ≡ Some result }
{
    match block_at(view, at) {
        Some(block) => block,
        None => unreachable!(),
    }
}

/// What was seen after a further block.
fn scan_block(seen: ScannedBlocks, block: Block, cpu: Cpu) -> ScannedBlocks
    ensures typed { result.typed ≡ (seen.typed || has_image_type block) }
    ensures suiting { result.suiting ≡ (if does_suit cpu block then Some block else seen.suiting) }
{
    let typed = seen.typed || image_flags(&block).is_some();
    if suits(&block, cpu) {
        ScannedBlocks {
            typed,
            suiting: Some(block),
        }
    } else {
        ScannedBlocks {
            typed,
            suiting: seen.suiting,
        }
    }
}

/// What is seen of the loop's blocks.
fn scan_blocks<V: View>(view: &V, found: &BlockLoop, cpu: Cpu) -> ScannedBlocks
    requires loop_ { AreLoop (V.bytes view.now) found.now }
    ensures typed { (loop : List BlockView) → loop_of (V.bytes view.now) ≡ Ok loop
        → result.typed ≡ list_any has_image_type loop }
    ensures suiting { (loop : List BlockView) → loop_of (V.bytes view.now) ≡ Ok loop
        → result.suiting ≡ last_suiting cpu loop }
{
    let mut seen = ScannedBlocks {
        typed: false,
        suiting: None,
    };
    for i in 0..found.count() {
        seen = scan_block(seen, block_there(view, found.at(i)), cpu);
    }
    seen
}

/// The definition among the loop's blocks, or why there is none.
fn definition_in<V: View>(view: &V, found: &BlockLoop, cpu: Cpu) -> Result<Block, Why>
    requires loop_ { AreLoop (V.bytes view.now) found.now }
    ensures exact { (loop : List BlockView) → loop_of (V.bytes view.now) ≡ Ok loop
        → result ≡ definition_answer cpu loop }
    ensures typed { IfOk result (λ b. has_image_type b ≡ true) }
{
    let seen = scan_blocks(view, found, cpu);
    if !seen.typed {
        return Err(Why::NoDefinition);
    }
    seen.suiting.ok_or(Why::NotForProcessor)
}

/// The definition of the window's image and what it says, or the answer of the first rule that
/// fails. The rules are those on the loop, the definition, the processor and the items.
pub fn defined_in<V: View>(view: &V, cpu: Cpu) -> Result<Defined, Why>
    ensures exact { result ≡ defined_in cpu (V.bytes view.now) }
    ensures sound { IfOk result (λ image. IsDefinition image.block image.def) }
    ensures whole { IfOk result (λ image. IsWholeBlock image.block) }
{
    let found = match walk(view) {
        Ok(found) => found,
        Err(LoopFault::NoBlock) => return Err(Why::NoBlock),
        Err(fault) => return Err(Why::Loop(fault)),
    };
    let block = match definition_in(view, &found, cpu) {
        Ok(block) => block,
        Err(why) => return Err(why),
    };
    match read_def(&block) {
        Ok(def) => Ok(Defined { block, def }),
        Err(fault) => Err(Why::Items(fault)),
    }
}

/// The answer of the trial rule.
fn trial_fault(allowed: bool, def: &Def) -> Option<Why>
    ensures { result ≡ trial_fault allowed def.now }
{
    if def.flags / 32768 % 2 == 1 && !allowed {
        Some(Why::Trial)
    } else {
        None
    }
}

/// The answer of the rollback rule.
fn rollback_fault<B: Board>(board: &B, def: &Def) -> Option<Why>
    requires power { IsTrue (B.state board.now).powered }
    requires rows { AreRollbackRows def.now.rows.items }
    ensures { result ≡ rollback_fault (B.state board.now).content.otp def.now }
{
    if required(board) && def.rows.is_empty() {
        return Some(Why::RollbackRequired);
    }
    let version = def.rollback?;
    let raised = count(board, &def.rows);
    if u32::from(version) < raised {
        Some(Why::Below(version, raised))
    } else {
        None
    }
}

/// The trial rule and the rollback rule, in this order.
fn admit<B: Board>(board: &B, trial_ok: bool, def: &Def) -> Result<(), Why>
    requires power { IsTrue (B.state board.now).powered }
    requires rows { AreRollbackRows def.now.rows.items }
    ensures { result ≡ admitted_in trial_ok (B.state board.now).content.otp def.now }
{
    if let Some(why) = trial_fault(trial_ok, def) {
        return Err(why);
    }
    match rollback_fault(board, def) {
        Some(why) => Err(why),
        None => Ok(()),
    }
}

/// What the image's load map loads in a window of `len` bytes; nothing without one.
pub fn loads_of(addressing: Addressing, len: u32, block: &Block, def: &Def) -> Result<Loads, Why>
    requires sound { IsDefinition block.now def.now }
    ensures exact { map_answered result ≡ map_answer addressing len block.now def.now }
    ensures stored { IfOk result (λ loads. AreStoredIn len loads.items) }
{
    let item = match def.map_item {
        Some(item) => item,
        None => return Ok(Loads::new()),
    };
    match read_map_at(block, item, len, addressing.base, addressing.in_place) {
        Ok(loads) => Ok(loads),
        Err(fault) => Err(Why::Map(fault)),
    }
}

/// The map rule and the entry rule, in this order.
fn load<V: View>(
    view: &V,
    addressing: Addressing,
    cpu: Cpu,
    image: Defined,
) -> Result<Candidate, Why>
    requires sound { IsDefinition image.block image.def }
    requires room { addressing.base + length (V.bytes view.now) ≤ 2 ^ 32 }
    ensures exact { result ≡ loaded_in addressing cpu (V.bytes view.now) image }
    ensures same { IfOk result (λ c. (c.block ≡ image.block) × (c.def ≡ image.def)) }
    ensures stored { IfOk result (λ c. AreStoredIn (length (V.bytes view.now)) c.loads.items) }
{
    let loads = match loads_of(addressing, view.len(), &image.block, &image.def) {
        Ok(loads) => loads,
        Err(why) => return Err(why),
    };
    match entry_of(view, addressing.base, cpu, &image.block, &image.def, &loads) {
        Ok(entry) => Ok(Candidate {
            block: image.block,
            def: image.def,
            loads,
            entry,
        }),
        Err(fault) => Err(Why::Entry(fault)),
    }
}

/// The image of the view before its digest is made, or the answer of the first rule that fails.
/// Every rule before the digest rule is judged. The view's first byte is seen at the address of
/// `addressing`, and a trial image is allowed where `trial_ok` is true.
#[tactic(auto, unfolding(crate::specs::Examined::examined_in))]
pub fn examine<B: Board, V: View>(
    board: &B,
    view: &V,
    addressing: Addressing,
    cpu: Cpu,
    trial_ok: bool,
) -> Result<Candidate, Why>
    requires power { IsTrue (B.state board.now).powered }
    requires room { addressing.base + length (V.bytes view.now) ≤ 2 ^ 32 }
    ensures exact { result ≡ examined_in addressing cpu trial_ok (B.state board.now).content.otp
        (V.bytes view.now) }
    ensures sound { IfOk result (λ c. IsDefinition c.block c.def) }
    ensures stored { IfOk result (λ c. AreStoredIn (length (V.bytes view.now)) c.loads.items) }
{
    let image = match defined_in(view, cpu) {
        Ok(image) => image,
        Err(why) => return Err(why),
    };
    match admit(board, trial_ok, &image.def) {
        Ok(()) => load(view, addressing, cpu, image),
        Err(why) => Err(why),
    }
}
