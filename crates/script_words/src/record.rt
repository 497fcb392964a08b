//! A record that was read of a line.

ghost use Rattle.std.specs.Prelude.{◌≡◌};
ghost use Rattle.boot_script.specs.Events.{event_from};
ghost use Rattle.script_words.specs.Made.{record_from};

use boot_script::Event;
use pico_board::BootKind;

/// A record with bytes of its own.
#[derive(Drop)]
pub enum Record {
    /// The script ends.
    End,
    /// A command and its payload.
    Command([u8; 32], Vec<u8>),
    /// A UF2 block.
    Uf2([u8; 512]),
    /// A cut: its steps, whether it falls within the next one, and its pattern.
    Cut(u32, bool, Vec<u8>),
    /// Power comes back.
    PowerOn,
    /// A reset.
    Reset(BootKind),
    /// A buy.
    Buy,
}

impl Record {
    /// The event of a script.
    pub fn event(&self) -> Event<'_>
        ensures { event_from result ≡ record_from self.now }
    {
        match self {
            Record::End => Event::End,
            Record::Command(command, payload) => Event::Command(command, payload.as_slice()),
            Record::Uf2(block) => Event::Uf2(block),
            Record::Cut(left, within, pattern) => Event::Cut(*left, *within, pattern.as_slice()),
            Record::PowerOn => Event::PowerOn,
            Record::Reset(kind) => Event::Reset(*kind),
            Record::Buy => Event::Buy,
        }
    }
}
