//! Which numbers a download has taken, and which sectors it has erased: a bit each.

ghost use Rattle.std.specs.Prelude.{◌≡◌, ℕ, ◌<◌, false, true, IfOk, if◌then◌else◌, nat_eq};
ghost use Rattle.uf2_place.specs.Marks.{HasNoMark, MarksView, is_marked};

use crate::bits::{clear_bits, has_bit, set_bit};
use std::alloc::{AllocError, Global};
use std::marker::Model;

/// The words with a bit for each number of a download.
const NUMBER_WORDS: usize = 1024;
/// The words with a bit for each sector of the greatest flash.
const SECTOR_WORDS: usize = 64;

/// A bit for each of the 65,536 numbers of a download, and for each of the 4096 sectors of the
/// greatest flash.
#[derive(Drop)]
pub struct Marks {
    numbers: Vec<u64>,
    sectors: Vec<u64>,
}

impl Model for Marks {
    ghost use Rattle.std.specs.Prelude.{◌≡◌, length};
    ghost use Rattle.uf2_place.specs.Marks.{MarksView};

    ghost Value = { MarksView };

    ghost view = { λ marks. record {
      numbers = marks.numbers.items;
      sectors = marks.sectors.items;
    } };

    ghost invariant = { λ marks. (length marks.numbers.items ≡ 1024)
        × (length marks.sectors.items ≡ 64) };
}

impl Marks {
    /// No bit set. It fails only where memory is out.
    pub fn make(alloc: Global) -> Result<Marks, AllocError>
        ensures { IfOk result HasNoMark }
    {
        let mut numbers = Vec::new(alloc);
        let mut sectors = Vec::new(alloc);
        numbers.resize(NUMBER_WORDS, 0)?;
        sectors.resize(SECTOR_WORDS, 0)?;
        let mut marks = Marks { numbers, sectors };
        marks.clear();
        Ok(marks)
    }

    /// Whether a number is taken.
    pub fn has_number(&self, number: u32) -> bool
        requires { number < 65536 }
        ensures { result ≡ is_marked self.now.numbers number }
    {
        has_bit(&self.numbers, number)
    }

    /// Takes a number.
    pub fn add_number(&mut self, number: u32)
        requires { number < 65536 }
        ensures number { (i : ℕ) → is_marked self.new.numbers i
            ≡ (if nat_eq number i then true else is_marked self.old.numbers i) }
        ensures sectors { self.new.sectors ≡ self.old.sectors }
    {
        set_bit(&mut self.numbers, number);
    }

    /// Whether a sector is erased.
    pub fn has_sector(&self, sector: u32) -> bool
        requires { sector < 4096 }
        ensures { result ≡ is_marked self.now.sectors sector }
    {
        has_bit(&self.sectors, sector)
    }

    /// Marks a sector as erased.
    pub fn add_sector(&mut self, sector: u32)
        requires { sector < 4096 }
        ensures sector { (i : ℕ) → is_marked self.new.sectors i
            ≡ (if nat_eq sector i then true else is_marked self.old.sectors i) }
        ensures numbers { self.new.numbers ≡ self.old.numbers }
    {
        set_bit(&mut self.sectors, sector);
    }

    /// Clears all bits.
    pub fn clear(&mut self)
        ensures { HasNoMark self.new }
    {
        clear_bits(&mut self.numbers);
        clear_bits(&mut self.sectors);
    }
}
