//! The loose bytes of the image that a script leaves, and whether it starts before they are there.

ghost use Rattle.std.specs.Prelude.{◌≡◌, ◌==◌, ◌&&◌, ◌||◌, ◌∷◌, ◌++◌, [], Bool, OnOk, if◌then◌else◌, ◌+◌, ◌*◌, ◌-◌, ◌/◌, ◌^◌, ◌<◌, ◌≤◌, ℕ, IfOk, IsTrue, List, Ok, Some, false, length, map, not, replicate, slice_get, slice_index, vec_len};
ghost use Rattle.std.specs.List.{list_any};
ghost use Rattle.pico_board.specs.declared.boot.BootKind.TheVariants.{Normal};
ghost use Rattle.pico_board.specs.declared.Step.{Step as Done};
ghost use Rattle.pico_board.specs.Content.{window_bytes};
ghost use Rattle.pico_board.specs.MemBoard.{state_of};
ghost use Rattle.block_codec.specs.Blocks.{BlockView};
ghost use Rattle.block_loop.specs.Loop.{loop_of};
ghost use Rattle.block_loop.specs.Offsets.{AreLoop};
ghost use Rattle.image_check.specs.Image.{defined_in};
ghost use Rattle.boot_rules.specs.Chosen.{Chosen};
ghost use Rattle.boot_tape.specs.Moving.{done_steps, move_from, moves_from};
ghost use Rattle.check_data.specs.Early.{has_other_loose, starts_early_by};
ghost use Rattle.check_data.specs.Ends.{AreInside, AreReady};
ghost use Rattle.check_data.specs.Loose.{IsCovering, block_span, is_covered, is_in_load, is_in_span, is_loose, is_page, is_program_of, is_within, is_written_byte, loose_in, loose_of, offsets_where, programmed_page};

use crate::found::Ends;
use arrayvec::ArrayVec;
use block_loop::{BlockLoop, block_of, walk};
use boot_rules::Decision;
use boot_sweep::is_same_decision;
use boot_tape::Move;
use image_check::{Addressing, defined_in, loads_of};
use load_map::{Load, Loads};
use pico_board::{Board, Cpu, FlashView, MemBoard, PAGE, Step, View, Window};
use std::alloc::{AllocError, Global};

/// What an image covers of its window.
#[derive(Drop)]
struct Covering {
    /// Where the blocks of its loop stand.
    blocks: ArrayVec<Window, 32>,
    /// What its load map loads.
    loads: Loads,
}

/// The page that a step programs, where it completes.
fn programmed_page(moved: &Move<'_>) -> Option<u32>
    ensures { result ≡ programmed_page (move_from moved.now) }
{
    match moved {
        Move::Done(Step::Program(page, _)) => Some(*page),
        Move::Done(Step::Erase(_) | Step::Raise(_, _)) | Move::Torn(_, _, _) => None,
    }
}

/// Marks a page.
fn mark(pages: &mut [bool], page: u32)
    ensures { (p : ℕ) (b : Bool) → slice_get pages.old p ≡ Some b
        → slice_get pages.new p ≡ Some (b || page == p) }
{
    let page = page as usize;
    if page < pages.len() {
        pages[page] = true;
    }
}

/// Marks the page that a step programs, where it completes.
fn mark_move(pages: &mut [bool], moved: &Move<'_>)
    ensures { (p : ℕ) (b : Bool) → slice_get pages.old p ≡ Some b
        → slice_get pages.new p
        ≡ Some (b || is_page p (programmed_page (move_from moved.now))) }
{
    match programmed_page(moved) {
        Some(page) => mark(pages, page),
        None => {}
    }
}

/// Marks the pages that the script programs.
fn mark_moves(pages: &mut [bool], moves: &[Move<'_>])
    ensures { (p : ℕ) (b : Bool) → slice_get pages.old p ≡ Some b
        → slice_get pages.new p
        ≡ Some (b || list_any (is_program_of p) (done_steps (moves_from moves.now))) }
{
    for moved in moves {
        mark_move(pages, moved);
    }
}

/// So many pages, of which none is marked.
fn unmarked_pages(alloc: Global, count: u32) -> Result<Vec<bool>, AllocError>
    ensures { IfOk result (λ pages. pages.items ≡ replicate count false) }
{
    let mut pages = Vec::new(alloc);
    for _ in 0..count {
        pages.push(false)?;
    }
    Ok(pages)
}

/// Which of so many pages the script programs.
fn programmed_pages(alloc: Global, count: u32, moves: &[Move<'_>]) -> Result<Vec<bool>, AllocError>
    ensures long { IfOk result (λ pages. vec_len pages ≡ count) }
    ensures each { IfOk result (λ pages. (p : ℕ) → p < count → slice_get pages.items p
        ≡ Some (list_any (is_program_of p) (done_steps (moves_from moves.now)))) }
{
    let mut pages = unmarked_pages(alloc, count)?;
    mark_moves(&mut pages, moves);
    Ok(pages)
}

/// Whether it is one of the bytes from this place on.
fn is_within(at: u32, size: u32, place: u32) -> bool
    ensures { result ≡ is_within at size place }
{
    at <= place && u64::from(place) < u64::from(at) + u64::from(size)
}

/// Whether a load stores the byte at this offset of the window.
fn is_in_load(load: &Load, place: u32) -> bool
    ensures { result ≡ is_in_load place load.now }
{
    match load.storage {
        Some(at) => is_within(at, load.size, place),
        None => false,
    }
}

/// Whether a block has the byte at this offset of the window.
fn has_block(blocks: &[Window], place: u32) -> bool
    ensures { result ≡ list_any (is_in_span place) blocks.now }
{
    blocks
        .iter()
        .any(|block| is_within(block.start, block.len, place))
}

/// Whether a load stores it.
fn has_load(loads: &[Load], place: u32) -> bool
    ensures { result ≡ list_any (is_in_load place) loads.now }
{
    loads.iter().any(|load| is_in_load(load, place))
}

impl Covering {
    /// Whether the image covers the byte at this offset of its window.
    fn has(&self, place: u32) -> bool
        ensures { result ≡ (list_any (is_in_span place) self.now.blocks.items
            || list_any (is_in_load place) self.now.loads.items) }
    {
        has_block(self.blocks.as_slice(), place) || has_load(self.loads.as_slice(), place)
    }

    /// The same, by the loop that is told.
    fn covers(&self, place: u32) -> bool
        ensures { (loop : List BlockView) → IsCovering self.now loop
            → result ≡ is_covered loop self.now.loads.items place }
    {
        self.has(place)
    }
}

/// Where the blocks of a loop stand.
fn spans_of<V: View>(view: &V, found: &BlockLoop) -> ArrayVec<Window, 32>
    requires loop_ { AreLoop (V.bytes view.now) found.now }
    ensures { (loop : List BlockView) → loop_of (V.bytes view.now) ≡ Ok loop
        → result.items ≡ map block_span loop }
{
    let mut spans = ArrayVec::new();
    for i in 0..found.count() {
        let block = block_of(view, found, i);
        spans.push(Window {
            start: block.at(),
            len: block.size(),
        });
    }
    spans
}

/// The byte of a board's flash at this offset.
fn byte_at(board: &MemBoard, at: u32) -> u8
    requires power { IsTrue (state_of board.now).powered }
    requires inside { at < length (state_of board.now).content.flash }
    ensures { result ≡ slice_index (state_of board.now).content.flash at }
{
    let mut byte = [0u8; 1];
    board.read(at, &mut byte);
    byte[0]
}

/// Whether a byte is neither 0 nor 0xff.
fn is_written_byte(byte: u8) -> bool
    ensures { result ≡ is_written_byte byte }
{
    !(byte == 0) && !(byte == 0xff)
}

/// Whether the byte at an offset of the flash is written, and not covered by an image whose window
/// begins at `start`.
fn is_uncovered(board: &MemBoard, start: u32, covering: &Covering, at: u32) -> bool
    requires power { IsTrue (state_of board.now).powered }
    requires inside { at < length (state_of board.now).content.flash }
    requires from { start ≤ at }
    ensures { (loop : List BlockView) → IsCovering covering.now loop
        → result ≡ (is_written_byte (slice_index (state_of board.now).content.flash at)
        && not (is_covered loop covering.now.loads.items (at - start))) }
{
    is_written_byte(byte_at(board, at)) && !covering.covers(at - start)
}

/// Whether the byte is loose, where its page is programmed or not.
fn is_loose(board: &MemBoard, programmed: bool, start: u32, covering: &Covering, at: u32) -> bool
    requires power { IsTrue (state_of board.now).powered }
    requires inside { at < length (state_of board.now).content.flash }
    requires from { start ≤ at }
    ensures { (steps : List Done) (loop : List BlockView) → IsCovering covering.now loop
        → programmed ≡ list_any (is_program_of (at / 256)) steps
        → result ≡ is_loose (state_of board.now).content.flash steps start loop
        covering.now.loads.items at }
{
    programmed && is_uncovered(board, start, covering, at)
}

/// Whether the page of an offset is marked.
fn is_marked(pages: &[bool], at: u32) -> bool
    requires { at / 256 < length pages.now }
    ensures { slice_get pages.now (at / 256) ≡ Some result }
{
    pages[(at / PAGE) as usize]
}

/// Adds an offset where it passes.
fn add_if(found: &mut Vec<u32>, at: u32, passes: bool) -> Result<(), AllocError>
    ensures { OnOk result (found.new.items
        ≡ (if passes then found.old.items ++ at ∷ [] else found.old.items)) }
{
    if passes {
        found.push(at)?;
    }
    Ok(())
}

/// The loose bytes of a window, by what its image covers.
fn loose_by(
    alloc: Global,
    board: &MemBoard,
    window: Window,
    covering: &Covering,
    moves: &[Move<'_>],
) -> Result<Vec<u32>, AllocError>
    requires power { IsTrue (state_of board.now).powered }
    requires inside { window.start + window.len ≤ length (state_of board.now).content.flash }
    ensures { IfOk result (λ found. (loop : List BlockView) → IsCovering covering.now loop
        → found.items ≡ offsets_where (is_loose (state_of board.now).content.flash
        (done_steps (moves_from moves.now)) window.start loop covering.now.loads.items)
        window.start window.len) }
{
    let pages = programmed_pages(alloc, board.flash_len() / PAGE, moves)?;
    let mut found = Vec::new(alloc);
    for at in window.start..window.start + window.len {
        let programmed = is_marked(&pages, at);
        let passes = is_loose(board, programmed, window.start, covering, at);
        add_if(&mut found, at, passes)?;
    }
    Ok(found)
}

/// The loose bytes of a window of a board. Without a load map there are none.
fn loose_of(
    alloc: Global,
    board: &MemBoard,
    cpu: Cpu,
    window: Window,
    moves: &[Move<'_>],
) -> Result<Vec<u32>, AllocError>
    requires power { IsTrue (state_of board.now).powered }
    requires inside { window.start + window.len ≤ length (state_of board.now).content.flash }
    ensures { IfOk result (λ found. found.items ≡ loose_of (state_of board.now).content.flash
        (done_steps (moves_from moves.now)) window
        (window_bytes (state_of board.now).content window)
        (defined_in cpu (window_bytes (state_of board.now).content window))) }
{
    let view = FlashView { board, window };
    let Ok(image) = defined_in(&view, cpu) else {
        return Ok(Vec::new(alloc));
    };
    let Some(_) = image.def.map_item else {
        return Ok(Vec::new(alloc));
    };
    let Ok(found) = walk(&view) else {
        return Ok(Vec::new(alloc));
    };
    let Ok(loads) = loads_of(Addressing::FLASH, view.len(), &image.block, &image.def) else {
        return Ok(Vec::new(alloc));
    };
    let covering = Covering {
        blocks: spans_of(&view, &found),
        loads,
    };
    let found = loose_by(alloc, board, window, &covering, moves)?;
    Ok(found)
}

/// The offsets of the loose bytes of the image that a normal boot starts on the board that a script
/// leaves, which decides so, in ascending order. It fails only where memory is out.
pub fn loose_bytes(
    alloc: Global,
    end: &MemBoard,
    cpu: Cpu,
    finished: &Decision,
    moves: &[Move<'_>],
) -> Result<Vec<u32>, AllocError>
    requires power { IsTrue (state_of end.now).powered }
    requires chosen { Chosen (state_of end.now).content cpu Normal finished.now }
    ensures exact { IfOk result (λ found. found.items ≡ loose_in (state_of end.now).content cpu
        (moves_from moves.now) finished.now) }
    ensures inside { IfOk result
        (λ found. AreInside (length (state_of end.now).content.flash) found.items) }
{
    match finished {
        Decision::Start(choice) => {
            let found = loose_of(alloc, end, cpu, choice.image.window, moves)?;
            Ok(found)
        }
        Decision::Bootsel(_) => Ok(Vec::new(alloc)),
    }
}

/// Whether the byte at an offset differs between two boards.
fn is_other_byte(one: &MemBoard, two: &MemBoard, at: u32) -> bool
    requires one { IsTrue (state_of one.now).powered }
    requires two { IsTrue (state_of two.now).powered }
    requires in_one { at < length (state_of one.now).content.flash }
    requires in_two { at < length (state_of two.now).content.flash }
    ensures { result ≡ not (slice_index (state_of two.now).content.flash at
        == slice_index (state_of one.now).content.flash at) }
{
    !(byte_at(two, at) == byte_at(one, at))
}

/// Whether one of these bytes differs between two boards. The first are looked at first.
fn has_other_loose(one: &MemBoard, two: &MemBoard, loose: &[u32]) -> bool
    requires one { IsTrue (state_of one.now).powered }
    requires two { IsTrue (state_of two.now).powered }
    requires in_one { AreInside (length (state_of one.now).content.flash) loose.now }
    requires in_two { AreInside (length (state_of two.now).content.flash) loose.now }
    ensures { result ≡ has_other_loose (state_of one.now).content (state_of two.now).content
        loose.now }
{
    for at in loose {
        if is_other_byte(one, two, *at) {
            return true;
        }
    }
    false
}

/// The same; the last are looked at first, since most hosts write them last.
fn has_other_last(one: &MemBoard, two: &MemBoard, loose: &[u32]) -> bool
    requires one { IsTrue (state_of one.now).powered }
    requires two { IsTrue (state_of two.now).powered }
    requires in_one { AreInside (length (state_of one.now).content.flash) loose.now }
    requires in_two { AreInside (length (state_of two.now).content.flash) loose.now }
    ensures { result ≡ has_other_loose (state_of one.now).content (state_of two.now).content
        loose.now }
{
    let mut left = loose.len();
    while left > 0 {
        left -= 1;
        if is_other_byte(one, two, loose[left]) {
            return true;
        }
    }
    false
}

/// Whether a normal boot on a board, which decides so, starts the image that a script leaves before
/// its loose bytes are there. It takes no memory.
pub fn starts_early(ends: &Ends<'_>, loose: &[u32], board: &MemBoard, decision: &Decision) -> bool
    requires power { IsTrue (state_of board.now).powered }
    requires ready { AreReady ends.now (length (state_of board.now).content.flash) }
    requires inside { AreInside (length (state_of board.now).content.flash) loose.now }
    ensures { result ≡ starts_early_by ends.now.former.now ends.now.finished.now
        (state_of ends.now.start.now).content (state_of ends.now.finish.now).content loose.now
        (state_of board.now).content decision.now }
{
    is_same_decision(decision, ends.finished)
        && (has_other_last(ends.finish, board, loose)
            && (!is_same_decision(decision, ends.former)
                || has_other_loose(ends.start, board, loose)))
}
