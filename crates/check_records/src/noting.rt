//! The downloads of a script, as its events are told one after another.

ghost use Rattle.std.specs.Prelude.{◌≡◌, ◌++◌, OnOk, [], None, false};
ghost use Rattle.check_records.specs.Noting.{HasNotedShare, current_after, ended_by, ends_kind, ended_at, kept_by, opened, still_open};
ghost use Rattle.check_records.specs.Unfinished.{first_number, is_beginning};

use crate::downloads::{Beginning, Kind, Share, Stage, counts, is_like};
use std::alloc::{AllocError, Global};

/// A download that is begun, of whose kind none is done since.
#[derive(Clone, Copy, PartialEq, Eq, Debug)]
pub(crate) struct Open {
    /// The number of the event that begins it.
    pub number: u32,
    /// Its kind.
    pub kind: Kind,
}

/// What is known of the downloads of a script.
#[derive(Drop)]
pub(crate) struct Downloads {
    /// The first block of the current one.
    pub current: Option<Beginning>,
    /// Whether one was begun.
    pub begun: bool,
    /// Those that are begun, of whose kind none is done since, in their order.
    pub waiting: Vec<Open>,
}

/// The first block of the download that is current behind a block that came so far.
fn kept_by(stage: Stage, current: Option<Beginning>) -> Option<Beginning>
    ensures { result ≡ kept_by stage current }
{
    match stage {
        Stage::Taken => current,
        Stage::Done | Stage::Lost => None,
    }
}

/// The first block of the download that is done with a block that came so far.
fn ended_at(stage: Stage, current: Option<Beginning>) -> Option<Beginning>
    ensures { result ≡ ended_at stage current }
{
    match stage {
        Stage::Done => current,
        Stage::Taken | Stage::Lost => None,
    }
}

/// The first block of the download that is current behind an event.
fn current_after(current: Option<Beginning>, share: Share) -> Option<Beginning>
    ensures { result ≡ current_after current share }
{
    match share {
        Share::Begins(first, stage) => kept_by(stage, Some(first)),
        Share::Continues(stage) => kept_by(stage, current),
        Share::Keeps => current,
        Share::Drops => None,
    }
}

/// The first block of the download that is done with an event.
fn ended_by(current: Option<Beginning>, share: Share) -> Option<Beginning>
    ensures { result ≡ ended_by current share }
{
    match share {
        Share::Begins(first, stage) => ended_at(stage, Some(first)),
        Share::Continues(stage) => ended_at(stage, current),
        Share::Keeps | Share::Drops => None,
    }
}

/// Whether an event begins a download.
fn is_beginning(share: Share) -> bool
    ensures { result ≡ is_beginning share }
{
    match share {
        Share::Begins(first, _) => counts(first),
        Share::Continues(_) | Share::Keeps | Share::Drops => false,
    }
}

/// Whether a download with this first block is of this kind.
fn ends_kind(ended: Option<Beginning>, kind: Kind) -> bool
    ensures { result ≡ ends_kind ended kind }
{
    match ended {
        Some(first) => counts(first) && is_like(first.kind, kind),
        None => false,
    }
}

/// Adds the download that an event begins.
fn open_new(waiting: &mut Vec<Open>, share: Share, number: u32) -> Result<(), AllocError>
    ensures { OnOk result (waiting.new.items ≡ waiting.old.items ++ opened number share) }
{
    if let Share::Begins(first, _) = share {
        if counts(first) {
            waiting.push(Open {
                number,
                kind: first.kind,
            })?;
        }
    }
    Ok(())
}

/// Takes out the downloads of the kind of the one that is done.
fn close(waiting: &mut Vec<Open>, ended: Option<Beginning>)
    ensures { waiting.new.items ≡ still_open ended waiting.old.items }
{
    waiting.retain(|download| !ends_kind(ended, download.kind));
}

impl Downloads {
    /// Nothing is known yet.
    pub(crate) fn begin(alloc: Global) -> Downloads
        ensures current { result.current ≡ None }
        ensures begun { result.begun ≡ false }
        ensures waiting { result.waiting.items ≡ [] }
    {
        Downloads {
            current: None,
            begun: false,
            waiting: Vec::new(alloc),
        }
    }

    /// Notes what the event of this number has to do with downloads.
    pub(crate) fn note(&mut self, share: Share, number: u32) -> Result<(), AllocError>
        ensures { OnOk result (HasNotedShare self.old share number self.new) }
    {
        open_new(&mut self.waiting, share, number)?;
        close(&mut self.waiting, ended_by(self.current, share));
        self.current = current_after(self.current, share);
        self.begun = self.begun || is_beginning(share);
        Ok(())
    }

    /// The number of the first event whose download stays open.
    pub(crate) fn first(&self) -> Option<u32>
        ensures { result ≡ first_number self.now.waiting.items }
    {
        match self.waiting.first() {
            Some(download) => Some(download.number),
            None => None,
        }
    }
}
