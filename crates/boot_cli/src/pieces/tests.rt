//! What no clause says: an error, and a call that moves no byte, end the loops, and an interrupted
//! call is made again.

use super::{read_up_to, write_whole};
use pico_board::StoreFail;
use std::io::{self, ErrorKind, Read, Write};

/// A file that gives and takes one byte a call, so often. Then it answers an error, or gives and
/// takes none.
#[derive(Drop)]
struct Worn {
    left: u8,
    fails: bool,
    /// Whether each other call is interrupted, the next one first.
    interrupts: bool,
    is_next: bool,
}

impl Worn {
    /// The file of which no call is interrupted.
    fn new(left: u8, fails: bool) -> Worn {
        Worn {
            left,
            fails,
            interrupts: false,
            is_next: false,
        }
    }

    /// The file of which each other call is interrupted, the first one too.
    fn interrupted(left: u8) -> Worn {
        Worn {
            left,
            fails: false,
            interrupts: true,
            is_next: false,
        }
    }

    /// The bytes of the next call; there is room for so many.
    fn turn(&mut self, room: usize) -> io::Result<usize> {
        self.is_next = self.interrupts && !self.is_next;
        if self.is_next {
            return Err(io::Error::from(ErrorKind::Interrupted));
        }
        if self.left == 0 && self.fails {
            return Err(io::Error::from(ErrorKind::Other));
        }
        let count = room.min(1).min(usize::from(self.left));
        self.left = self.left.saturating_sub(1);
        Ok(count)
    }
}

impl Read for Worn {
    fn read(&mut self, buffer: &mut [u8]) -> io::Result<usize> {
        Ok(self.turn(buffer.len())?.min(buffer.len()))
    }
}

impl Write for Worn {
    fn write(&mut self, buffer: &[u8]) -> io::Result<usize> {
        Ok(self.turn(buffer.len())?.min(buffer.len()))
    }

    fn flush(&mut self) -> io::Result<()> {
        Ok(())
    }
}

#[test]
fn a_file_that_stops_ends_a_read_and_faults_a_write(rt: HostRuntime) {
    let alloc = rt.alloc();
    let mut read = Vec::new(alloc);
    assert_eq!(rt; read_up_to(&mut Worn::new(3, false), 9, &mut read), Ok(()));
    assert_eq!(rt; read.len(), 3);
    let mut failed = Vec::new(alloc);
    let answer = read_up_to(&mut Worn::new(3, true), 9, &mut failed);
    assert_eq!(rt; answer, Err(StoreFail::Fault));
    for fails in [false, true] {
        assert_eq!(rt; write_whole(&mut Worn::new(3, fails), &[1, 2, 3, 4]), false);
        assert_eq!(rt; write_whole(&mut Worn::new(4, fails), &[1, 2, 3, 4]), true);
    }
}

#[test]
fn an_interrupted_call_is_made_again(rt: HostRuntime) {
    let mut read = Vec::new(rt.alloc());
    assert_eq!(rt; read_up_to(&mut Worn::interrupted(3), 9, &mut read), Ok(()));
    assert_eq!(rt; read.len(), 3);
    let mut taking = Worn::interrupted(4);
    assert_eq!(rt; write_whole(&mut taking, &[1, 2, 3, 4]), true);
    assert_eq!(rt; write_whole(&mut taking, &[5]), false);
}
