//! Downloads: UF2 blocks one after another, each placed as it comes.

ghost use Rattle.std.specs.Prelude.{◌≡◌, ℕ, ◌+◌, ◌/◌, ◌≤◌, ◌<◌, IfOk, IsTrue, List, [], ◌∷◌, ◌++◌, None, Some, is_some, length};
ghost use Rattle.std.specs.Option.{ForSome, option_map};
ghost use Rattle.part_table.specs.Sound.{IsSoundTable};
ghost use Rattle.part_table.specs.declared.Target.{Target};
ghost use Rattle.sector_pool.specs.Keeping.{HandsOver};
ghost use Rattle.sector_pool.specs.Pool.{HasFree};
ghost use Rattle.uf2_place.specs.declared.block.Uf2.{Uf2};
ghost use Rattle.uf2_place.specs.declared.answer.Ruling.TheVariants.{Begins, Continues};
ghost use Rattle.uf2_place.specs.Accepting.{AnswersAtOnce, Places, StandsFor, has_power, rules};
ghost use Rattle.uf2_place.specs.Blocks.{IsUf2};
ghost use Rattle.uf2_place.specs.Downloads.{Follows, IsOut, IsTargetIn, lease_in, lease_of};
ghost use Rattle.uf2_place.specs.Placement.{IsPageInside};
ghost use Rattle.uf2_place.specs.Progress.{MayComeNext};
ghost use Rattle.uf2_place.specs.Rulings.{wanted};

use crate::answer::{Accepted, PlaceFault, Ruling};
use crate::beginning::{begin, release};
use crate::block::Uf2;
use crate::current::Current;
use crate::judging::{continues, is_skipped, ruling};
use crate::marks::Marks;
use crate::placing::place_block;
use part_table::{Table, Target};
use pico_board::{Board, PowerLost};
use sector_pool::SectorPool;
use std::alloc::{AllocError, Global};
use std::marker::Model;

/// The place of UF2 downloads. One may be current: it has begun and is not done.
#[derive(Drop)]
pub struct Download {
    current: Option<Current>,
    marks: Marks,
}

impl Model for Download {
    ghost use Rattle.std.specs.Prelude.{◌≤◌};
    ghost use Rattle.std.specs.Option.{ForSome};
    ghost use Rattle.uf2_place.specs.Accepting.{DownloadView};

    ghost Value = { DownloadView };

    ghost view = { λ d. record { current = d.current; marks = d.marks } };

    // A block is still to come.
    ghost invariant = { λ d. ForSome d.current (λ c. 1 ≤ c.left) };
}

impl Download {
    /// No current download. It fails only where memory is out.
    pub fn make(alloc: Global) -> Result<Download, AllocError>
        ensures { IfOk result (λ d. d.current ≡ None) }
    {
        Ok(Download {
            current: None,
            marks: Marks::make(alloc)?,
        })
    }

    /// Whether a download has begun and is not done.
    pub fn busy(&self) -> bool
        ensures { result ≡ is_some self.now.current }
    {
        self.current.is_some()
    }

    /// The family of the block, where the block is not skipped in a flash of this length and
    /// begins a new download.
    pub fn wants(&self, flash_len: u32, block: &Uf2) -> Option<u32>
        ensures { result ≡ wanted flash_len self.now.current block.now }
    {
        if is_skipped(flash_len, block) || continues(&self.current, block) {
            return None;
        }
        Some(block.family)
    }

    /// Drops the current download, and gives its lease back.
    pub fn close(&mut self, pool: &mut SectorPool)
        requires { IsOut pool.old (lease_of self.old.current) }
        ensures none { self.new.current ≡ None }
        ensures pool { HandsOver (lease_of self.old.current) None pool.old pool.new }
    {
        release(pool, self.current.take());
    }

    /// Places a block, without the boot that may follow.
    ///
    /// `target` is where a new download of the block's family goes; it is looked at only where
    /// [`Download::wants`] gives a family. A block that is skipped, repeated or refused changes
    /// nothing. The rules are judged in the order of [`Accepted`] and [`PlaceFault`]. A block that
    /// begins a download drops the former one. Lost power drops the current download, and the
    /// steps up to the lost one are done. The lease of a gated download is out while it is
    /// current.
    pub fn accept<B: Board>(
        &mut self,
        board: &mut B,
        pool: &mut SectorPool,
        table: Option<&Table>,
        target: Option<Target>,
        block: &Uf2,
    ) -> Result<Accepted, PlaceFault>
        requires power { IsTrue (B.state board.old).powered }
        requires block { IsUf2 block.now }
        requires table { ForSome table (λ t. IsSoundTable t.now
            (length (B.state board.old).content.flash / 4096)) }
        requires target { ForSome target (IsTargetIn (length (B.state board.old).content.flash)) }
        requires current { ForSome self.old.current
            (λ c. IsTargetIn (length (B.state board.old).content.flash) c.target) }
        requires out { IsOut pool.old (lease_of self.old.current) }
        requires free { lease_of self.old.current ≡ None → HasFree pool.old }
        ensures answered { AnswersAtOnce (rules (B.state board.old)
            (option_map (λ t. t.now) table.entry) target self.old block.now) result
            ((self.new ≡ self.old) × (pool.new ≡ pool.old) × (board.new ≡ board.old)) }
        ensures begins { (t : Target) → rules (B.state board.old)
            (option_map (λ t. t.now) table.entry) target self.old block.now ≡ Begins t
            → Places B.state B.history t [] block.now board.old result board.new self.new pool.new }
        ensures continues { (t : Target) (blocks : List Uf2) → rules (B.state board.old)
            (option_map (λ t. t.now) table.entry) target self.old block.now ≡ Continues t
            → StandsFor self.old pool.old t blocks
            → Places B.state B.history t blocks block.now board.old result board.new self.new
            pool.new }
        ensures pool { HandsOver (lease_of self.old.current) (lease_of self.new.current)
            pool.old pool.new }
        ensures free { lease_of self.new.current ≡ None → HasFree pool.new }
        ensures power { (B.state board.new).powered ≡ has_power result }
        ensures target { ForSome self.new.current
            (λ c. IsTargetIn (length (B.state board.new).content.flash) c.target) }
    {
        match self.rule(board, table, target, block) {
            Ruling::Answered(answer) => answer,
            Ruling::Begins(target) => {
                let current = begin(pool, &mut self.marks, self.current.take(), target, block);
                self.place(board, pool, current, block)
            }
            Ruling::Continues(_) => match self.current.take() {
                Some(current) => self.place(board, pool, current, block),
                None => unreachable!(),
            },
        }
    }

    /// The ruling on a block.
    fn rule<B: Board>(
        &self,
        board: &B,
        table: Option<&Table>,
        target: Option<Target>,
        block: &Uf2,
    ) -> Ruling
        requires block { IsUf2 block.now }
        requires table { ForSome table (λ t. IsSoundTable t.now
            (length (B.state board.now).content.flash / 4096)) }
        requires target { ForSome target (IsTargetIn (length (B.state board.now).content.flash)) }
        requires current { ForSome self.now.current
            (λ c. IsTargetIn (length (B.state board.now).content.flash) c.target) }
        ensures { result ≡ rules (B.state board.now)
            (option_map (λ t. t.now) table.entry) target self.now block.now }
    {
        let flash_len = board.flash_len();
        ruling(flash_len, table, target, &self.marks, &self.current, block)
    }

    /// Places a block of a download that is taken out, and keeps it where more blocks are to come.
    fn place<B: Board>(
        &mut self,
        board: &mut B,
        pool: &mut SectorPool,
        mut current: Current,
        block: &Uf2,
    ) -> Result<Accepted, PlaceFault>
        requires power { IsTrue (B.state board.old).powered }
        requires none { self.old.current ≡ None }
        requires block { IsUf2 block.now }
        requires inside { IsPageInside current.target.window block.now }
        requires target { IsTargetIn (length (B.state board.old).content.flash) current.target }
        requires some { 1 ≤ current.left }
        requires out { IsOut pool.old (lease_in current.held) }
        ensures places { (blocks : List Uf2) → Follows pool.old self.old.marks current blocks
            → MayComeNext current blocks block.now
            → Places B.state B.history current.target blocks block.now board.old result board.new
            self.new pool.new }
        ensures pool { HandsOver (lease_in current.held) (lease_of self.new.current)
            pool.old pool.new }
        ensures free { (lease_in current.held ≡ None → HasFree pool.old)
            → lease_of self.new.current ≡ None → HasFree pool.new }
        ensures power { (B.state board.new).powered ≡ has_power result }
        ensures target { ForSome self.new.current
            (λ c. IsTargetIn (length (B.state board.new).content.flash) c.target) }
    {
        let target = current.target;
        match place_block(board, pool, &mut self.marks, &mut current, block) {
            Ok(()) if current.left > 0 => {
                self.current = Some(current);
                Ok(Accepted::Taken)
            }
            Ok(()) => {
                release(pool, Some(current));
                Ok(Accepted::Done(target))
            }
            Err(PowerLost) => {
                release(pool, Some(current));
                Err(PlaceFault::PowerLost)
            }
        }
    }
}
