//! A board with what is remembered of its table and of the digests of its windows.

ghost use Rattle.std.specs.Prelude.{◌≡◌, ◌+◌, ◌*◌, ◌/◌, ◌≤◌, IfSome, IsTrue, is_ok, length, option_map, true};
ghost use Rattle.pico_board.specs.Board.{DoesAll};
ghost use Rattle.sector_pool.specs.Keeping.{KeepsOut};
ghost use Rattle.sector_pool.specs.Pool.{HasFree};
ghost use Rattle.part_table.specs.Windows.{IsPlacedWindow};
ghost use Rattle.slot_choice.specs.Units.{IsSoundFor};
ghost use Rattle.image_check.specs.Digests.{Knows};
ghost use Rattle.image_check.specs.Valid.{Valid};
ghost use Rattle.boot_rules.specs.Choosing.{decision_in};
ghost use Rattle.boot_rules.specs.Chosen.{Chosen};
ghost use Rattle.boot_rules.specs.Targets.{target_of};
ghost use Rattle.trial_buy.specs.Buying.{buy_steps};
ghost use Rattle.trial_buy.specs.Starting.{erase_in, other_erase, start_erase, start_steps};
ghost use Rattle.trial_buy.specs.Windows.{IsPlacedChoice};

use crate::lookup::{Lookup, leaves_slots, look_up, looked_up};
use boot_rules::{Choice, Decision, Digests, Target, decide_with, target_by};
use part_table::Table;
use pico_board::{Bench, Board, BootKind, Cpu, PAGE, PowerLost, SECTOR};
use sector_pool::SectorPool;
use std::marker::Model;
use std::mem;
use trial_buy::{better_sector, buy_at, settle_at, start_sector};

/// A board with what is remembered of its table and of the digests of its windows. Contracts see
/// the board alone. A step, done or torn, forgets the windows that share a byte with its range, and
/// the table where it may change a table slot. So what is remembered is true of the content.
#[derive(Drop)]
pub struct Watched<B: Board> {
    board: B,
    digests: Digests,
    lookup: Lookup,
}

impl<B: Board> Model for Watched<B> {
    ghost use Rattle.boot_machine.specs.Remembering.{Remembers};

    ghost Value = { B };

    ghost view = { λ watched. watched.board };

    ghost invariant = { λ watched. Remembers (B.state watched.board).content watched.digests
        watched.lookup };
}

impl<B: Board> Watched<B> {
    /// The board, of which nothing is remembered.
    pub fn new(board: B) -> Watched<B>
        ensures { result ≡ board }
    {
        Watched {
            board,
            digests: Digests::none(),
            lookup: Lookup::Due,
        }
    }

    /// The board.
    pub fn board(&self) -> &B
        ensures { result.now ≡ self.now }
    {
        &self.board
    }

    /// The board, without what is remembered.
    pub fn into_board(self) -> B
        ensures { result ≡ self }
    {
        self.board
    }

    /// What is remembered of the digests of the windows. The board remembers none of them then.
    pub fn take_digests(&mut self) -> Digests
        ensures knows { Knows result (B.state self.old).content }
        ensures same { self.new ≡ self.old }
    {
        mem::replace(&mut self.digests, Digests::none())
    }

    /// Has the board remember these digests of its windows, and no others.
    pub fn give_digests(&mut self, digests: Digests)
        requires knows { Knows digests (B.state self.old).content }
        ensures same { self.new ≡ self.old }
    {
        self.digests = digests;
    }

    /// Decides a boot. The table is looked up, and a digest is made, only where it is not
    /// remembered.
    pub fn decide(&mut self, pool: &mut SectorPool, cpu: Cpu, kind: BootKind) -> Decision
        requires power { IsTrue (B.state self.old).powered }
        requires lease { HasFree pool.old }
        ensures chosen { Chosen (B.state self.old).content cpu kind result }
        ensures function { result ≡ decision_in (B.state self.old).content cpu kind }
        ensures same { self.new ≡ self.old }
        ensures kept { KeepsOut pool.old pool.new }
    {
        look_up(&self.board, &mut self.lookup);
        let table = looked_up(&self.lookup);
        decide_with(&self.board, pool, &mut self.digests, table, cpu, kind)
    }

    /// Where a download of a UF2 family goes, where the board has this table. A digest is made only
    /// where it is not remembered.
    pub fn target(
        &mut self,
        pool: &mut SectorPool,
        table: Option<&Table>,
        cpu: Cpu,
        family: u32,
    ) -> Option<Target>
        requires power { IsTrue (B.state self.old).powered }
        requires lease { HasFree pool.old }
        requires sound { IsSoundFor (option_map (λ t. t.now) table)
            (length (B.state self.old).content.flash) }
        ensures exact { result ≡ target_of (B.state self.old).content
            (option_map (λ t. t.now) table.entry) cpu family }
        ensures placed { IfSome result
            (λ t. IsPlacedWindow t.window (length (B.state self.old).content.flash / 4096) 0) }
        ensures same { self.new ≡ self.old }
        ensures kept { KeepsOut pool.old pool.new }
    {
        target_by(&self.board, pool, &mut self.digests, table, cpu, family)
    }

    /// The sector that a start of this choice erases. A digest is made only where it is not
    /// remembered.
    fn start_sector(&mut self, pool: &mut SectorPool, cpu: Cpu, choice: &Choice) -> Option<u32>
        requires power { IsTrue (B.state self.old).powered }
        requires lease { HasFree pool.old }
        requires placed { IsPlacedChoice (B.state self.old).content choice.now }
        ensures exact { erase_in result ≡ start_erase (B.state self.old).content cpu choice.now }
        ensures inside { IfSome result
            (λ s. 4096 * s + 4096 ≤ length (B.state self.old).content.flash) }
        ensures same { self.new ≡ self.old }
        ensures kept { KeepsOut pool.old pool.new }
    {
        start_sector(&self.board, pool, &mut self.digests, cpu, choice)
    }

    /// Does what a start writes. After lost power a part of the steps is done. A digest is made
    /// only where it is not remembered.
    pub fn settle(
        &mut self,
        pool: &mut SectorPool,
        cpu: Cpu,
        choice: &Choice,
    ) -> Result<(), PowerLost>
        requires power { IsTrue (B.state self.old).powered }
        requires lease { HasFree pool.old }
        requires placed { IsPlacedChoice (B.state self.old).content choice.now }
        requires valid { Valid (B.state self.old).content choice.now.image.window cpu true
            choice.now.image }
        ensures steps { DoesAll B.state B.history self.old
            (start_steps (B.state self.old).content cpu choice.now) (is_ok result) self.new }
        ensures kept { KeepsOut pool.old pool.new }
    {
        let sector = self.start_sector(pool, cpu, choice);
        settle_at(self, choice, sector)
    }

    /// The sector that a buy of this choice erases. A digest is made only where it is not
    /// remembered.
    fn better_sector(&mut self, pool: &mut SectorPool, cpu: Cpu, choice: &Choice) -> Option<u32>
        requires power { IsTrue (B.state self.old).powered }
        requires lease { HasFree pool.old }
        requires placed { IsPlacedChoice (B.state self.old).content choice.now }
        ensures exact { erase_in result ≡ other_erase (B.state self.old).content cpu choice.now }
        ensures inside { IfSome result
            (λ s. 4096 * s + 4096 ≤ length (B.state self.old).content.flash) }
        ensures same { self.new ≡ self.old }
        ensures kept { KeepsOut pool.old pool.new }
    {
        better_sector(&self.board, pool, &mut self.digests, cpu, choice)
    }

    /// Does what a buy of a running trial image writes. After lost power a part of the steps is
    /// done. A digest is made only where it is not remembered.
    pub fn buy(&mut self, pool: &mut SectorPool, cpu: Cpu, choice: &Choice) -> Result<(), PowerLost>
        requires power { IsTrue (B.state self.old).powered }
        requires lease { HasFree pool.old }
        requires placed { IsPlacedChoice (B.state self.old).content choice.now }
        requires valid { Valid (B.state self.old).content choice.now.image.window cpu true
            choice.now.image }
        requires trial { choice.now.image.trial ≡ true }
        ensures steps { DoesAll B.state B.history self.old
            (buy_steps (B.state self.old).content cpu choice.now) (is_ok result) self.new }
        ensures kept { KeepsOut pool.old pool.new }
    {
        let sector = self.better_sector(pool, cpu, choice);
        buy_at(self, pool, choice, sector)
    }
}

impl<B: Board> Board for Watched<B> {
    ghost state = { B.state };

    ghost history = { B.history };

    fn flash_len(&self) -> u32 {
        self.board.flash_len()
    }

    fn powered(&self) -> bool {
        self.board.powered()
    }

    fn read(&self, at: u32, into: &mut [u8]) {
        self.board.read(at, into);
    }

    fn otp_read(&self, row: u16) -> u32 {
        self.board.otp_read(row)
    }

    fn erase(&mut self, sector: u32) -> Result<(), PowerLost> {
        let leaves = leaves_slots(&self.board, SECTOR * sector);
        let done = self.board.erase(sector);
        self.digests.forget(SECTOR * sector, SECTOR);
        self.lookup.keep_if(leaves);
        done
    }

    fn program(&mut self, page: u32, bytes: &[u8; 256]) -> Result<(), PowerLost> {
        let leaves = leaves_slots(&self.board, PAGE * page);
        let done = self.board.program(page, bytes);
        self.digests.forget(PAGE * page, PAGE);
        self.lookup.keep_if(leaves);
        done
    }

    fn raise(&mut self, row: u16, bits: u32) -> Result<(), PowerLost> {
        // A row says how long a slot is.
        self.lookup.keep_if(false);
        self.board.raise(row, bits)
    }

    ghost is_content = { λ watched. B.is_content watched };
}

impl<B: Bench> Bench for Watched<B> {
    fn arm_cut(&mut self, after: u32, within: bool, pattern: &[u8]) {
        self.board.arm_cut(after, within, pattern);
    }

    fn power_on(&mut self) {
        self.board.power_on();
    }
}
