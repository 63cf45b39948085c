//! The frames of a feed, one after another.

ghost use Rattle.std.specs.Prelude.{◌≡◌, ◌<◌, ◌≤◌, ◌+◌, ◌^◌, ◌++◌, ◌∷◌, [], IfOk, OnOk, length};
ghost use Rattle.std.specs.Int.{w32, to_be_bytes};
ghost use Rattle.adg_model.specs.Feed.{frame};
ghost use Rattle.feed_gen.specs.Written.{opened_feed, with_writings, with_text, with_end, with_stop};

use crate::writing::Writing;
use adg_base::list::{Bytes, List};
use adg_base::memory::Memory;
use adg_base::number::Scn;
use adg_base::vector::RedoRecord;
use byteorder::{BigEndian, ByteOrder};
use change_vectors::write::write_record;
use std::alloc::Global;
use std::marker::Model;

/// The first byte of each frame.
mod tag {
    pub const REDO: u8 = b'R';

    pub const COMMAND: u8 = b'Q';
}

/// A feed as far as it is written.
#[derive(Debug, Drop)]
pub struct FeedWriter {
    bytes: Vec<u8>,
    records: u32,
}

impl Model for FeedWriter {
    ghost use Rattle.feed_gen.specs.Written.{Written};

    ghost Value = { Written };

    ghost view = { λ w. record { bytes = w.bytes.items; records = w.records } };
}

impl FeedWriter {
    /// A feed of three threads and four sessions without a delivery.
    #[tactic(auto, unfolding(adg_model::specs::Feed::frame))]
    pub fn new(alloc: Global) -> Result<FeedWriter, Memory>
        ensures { IfOk result (λ w. w ≡ opened_feed) }
    {
        let bytes = Vec::from_slice(alloc, b"IMADG01\nH\0\0\0\x02\x03\x04")?;
        Ok(FeedWriter { bytes, records: 0 })
    }

    /// Adds a frame whose payload is one byte and some more.
    #[tactic(auto, unfolding(adg_model::specs::Feed::frame))]
    fn put_frame(&mut self, tag: u8, first: u8, rest: &[u8]) -> Result<(), Memory>
        requires { length rest.now < 2 ^ 16 }
        ensures { OnOk result (self.new ≡ record self.old { bytes = self.old.bytes ++ frame tag (first ∷ rest.now) }) }
    {
        let mut len = [0; 4];
        BigEndian::write_u32(&mut len, rest.len() as u32 + 1);
        self.bytes.push(tag)?;
        self.bytes.extend_from_slice(&len)?;
        self.bytes.push(first)?;
        self.bytes.extend_from_slice(rest)?;
        Ok(())
    }

    /// Adds a record with the next SCN, in a frame of its own.
    #[tactic(auto, using(crate::proofs::Written::record_short))]
    pub fn write(&mut self, alloc: Global, writing: Writing) -> Result<(), Memory>
        requires { self.old.records < 2 ^ 31 }
        ensures { OnOk result (self.new ≡ with_writings self.old (writing ∷ [])) }
    {
        let scn = Scn::new(u64::from(self.records) + 1).unwrap();
        let redo = RedoRecord {
            scn,
            vectors: writing.vectors,
        };
        let Ok(bytes) = write_record(alloc, &redo) else {
            return Err(Memory);
        };
        self.put_frame(tag::REDO, writing.thread, bytes.as_slice())?;
        self.records += 1;
        Ok(())
    }

    /// Adds a command of a session.
    pub fn ask(&mut self, session: u8, text: &str) -> Result<(), Memory>
        requires { length text.now < 2 ^ 16 }
        ensures { OnOk result (self.new ≡ with_text session text.now self.old) }
    {
        self.put_frame(tag::COMMAND, session, text.as_bytes())
    }

    /// Ends a delivery.
    #[tactic(auto, unfolding(adg_model::specs::Feed::frame))]
    pub fn end_delivery(&mut self) -> Result<(), Memory>
        ensures { OnOk result (self.new ≡ with_end self.old) }
    {
        self.bytes.extend_from_slice(b"E\0\0\0\0")?;
        Ok(())
    }

    /// Ends the feed.
    #[tactic(auto, unfolding(adg_model::specs::Feed::frame))]
    pub fn finish(self) -> Result<Bytes, Memory>
        ensures { IfOk result (λ bytes. bytes ≡ with_stop self) }
    {
        let mut bytes = self.bytes;
        bytes.extend_from_slice(b"X\0\0\0\0")?;
        Ok(List::from_vec(bytes))
    }
}
