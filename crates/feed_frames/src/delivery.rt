use crate::counts::{Counts, Standing};
use crate::fault::FeedFault;
use crate::head::{Head, read_head};
use crate::intake::{take_byte, take_payload};
use crate::tag::Tag;
use adg_base::command::{CommandList, CommandText};
use adg_base::list::Bytes;
use adg_io::outside::Source;
use adg_model::delivery::{PieceList, RawDelivery, RedoPiece};
use adg_model::fault::FeedKind;
use std::alloc::Global;

/// A delivery of which some frames were read.
#[derive(Debug, Drop)]
pub struct Incoming {
    pub counts: Counts,
    pub pieces: PieceList,
    pub commands: CommandList,
    pub schedule: Vec<u8>,
}

/// What a frame of a delivery was.
#[derive(Clone, Copy, Debug, PartialEq, Eq)]
pub enum Frame {
    /// Redo, a command or schedule bytes.
    Item,
    /// The end of the delivery.
    End,
    /// The end of the feed.
    Stop,
}

/// What the frames that were read came to.
#[derive(Clone, Copy, Debug, PartialEq, Eq)]
pub enum EndOf {
    /// The end of a delivery.
    Delivery,
    /// The end of the feed.
    Feed,
}

impl Incoming {
    ghost use Rattle.std.specs.Prelude.{◌≡◌, ℕ, List, [], ◌++◌, ◌+◌, ◌*◌, ◌^◌, ◌<◌, ◌≤◌, Option, Ok, Result, MatchResult, OnOk, IsOk};
    ghost use Rattle.adg_model.specs.Feed.{Item, delivery_of, frame_fault, most_payload, most_deliveries};
    ghost use Rattle.feed_frames.specs.Intake.{HasCauseIn};
    ghost use Rattle.feed_frames.specs.Counts.{IsCountOf, HasRoom, standing_of};
    ghost use Rattle.feed_frames.specs.Answers.{IsCausedBy};
    ghost use Rattle.feed_frames.specs.Frames.{Holds, IsToRead, ReadsFrame, ReadsFrames, ReadsPayload};

    /// A delivery of which nothing was read.
    pub fn new(alloc: Global, standing: Standing) -> Incoming
        ensures standing { result.counts.standing ≡ standing }
        ensures none { Holds result [] }
    {
        Incoming {
            counts: Counts::new(standing),
            pieces: PieceList::new(alloc),
            commands: CommandList::new(alloc),
            schedule: Vec::new(alloc),
        }
    }

    /// The delivery of what was read.
    pub fn finish(self) -> RawDelivery
        ensures { (items : List Item) → Holds self items → result ≡ delivery_of items }
    {
        RawDelivery {
            pieces: self.pieces,
            commands: self.commands,
            schedule: Bytes::from_vec(self.schedule),
        }
    }

    /// Reads frames up to the one that ends the delivery, or the feed.
    pub fn read_frames<R: Source>(
        &mut self,
        alloc: Global,
        source: &mut R,
        taken: &mut u64,
    ) -> Result<EndOf, FeedFault>
        requires none { Holds self.old [] }
        requires room { taken.old < 2 ^ 62 }
        ensures standing { self.new.counts.standing ≡ self.old.counts.standing }
        ensures frames { ReadsFrames self.old self.new (R.left source.old) (R.left source.new) taken.old taken.new result }
        ensures ends { result ≡ Ok EndOf.Delivery → self.old.counts.standing.ends < most_deliveries }
        ensures counted { IsOk result → taken.new ≤ taken.old + 201326597 }
        ensures cause { IsCausedBy result (R.faults source.old) (R.faults source.new) }
    {
        loop {
            let start = *taken;
            match self.read_frame(alloc, source, taken) {
                Ok(Frame::Item) => {}
                Ok(Frame::End) => return Ok(EndOf::Delivery),
                Ok(Frame::Stop) => return Ok(EndOf::Feed),
                Err(kind) => return Err(FeedFault::new(kind, start, *taken)),
            }
        }
    }

    /// Reads the next frame.
    pub fn read_frame<R: Source>(
        &mut self,
        alloc: Global,
        source: &mut R,
        taken: &mut u64,
    ) -> Result<Frame, FeedKind>
        requires { taken.old < 2 ^ 63 }
        ensures standing { self.new.counts.standing ≡ self.old.counts.standing }
        ensures frame { (before : List Item) → Holds self.old before →
            ReadsFrame self.old self.new before (R.left source.old) (R.left source.new) taken.old taken.new result }
        ensures grows { result ≡ Ok Frame.Item → self.old.counts.payload < self.new.counts.payload }
        ensures counted { result ≡ Ok Frame.Item →
            taken.new + 6 * self.old.counts.payload ≤ taken.old + 6 * self.new.counts.payload }
        ensures cause { HasCauseIn result (R.faults source.old) (R.faults source.new) }
    {
        let head = read_head(&self.counts, source, taken)?;
        match head.tag {
            Tag::Redo => self.read_redo(alloc, source, taken, head)?,
            Tag::Command => self.read_command(alloc, source, taken, head)?,
            Tag::Schedule => self.read_schedule(source, taken, head)?,
            Tag::End => return Ok(Frame::End),
            Tag::Stop => return Ok(Frame::Stop),
        }
        Ok(Frame::Item)
    }

    /// Reads the payload of a redo frame.
    fn read_redo<R: Source>(
        &mut self,
        alloc: Global,
        source: &mut R,
        taken: &mut u64,
        head: Head,
    ) -> Result<(), FeedKind>
        requires { IsToRead Tag.Redo self.old head taken.old }
        ensures standing { self.new.counts.standing ≡ self.old.counts.standing }
        ensures item { ReadsPayload self.old self.new head (R.left source.old) (R.left source.new) taken.old taken.new result }
        ensures payload { OnOk result (self.new.counts.payload ≡ self.old.counts.payload + head.len) }
        ensures counted { OnOk result (taken.new ≡ taken.old + head.len) }
        ensures cause { HasCauseIn result (R.faults source.old) (R.faults source.new) }
    {
        // Judged before more is read: no byte is taken behind the one that shows the fault.
        let thread = take_byte(source, taken)?;
        self.counts.check_thread(thread)?;
        let mut bytes = Vec::new(alloc);
        take_payload(source, taken, &mut bytes, head.len as usize - 1)?;
        let bytes = Bytes::from_vec(bytes);
        self.pieces.push(RedoPiece { thread, bytes })?;
        self.counts.count_redo(head.len);
        Ok(())
    }

    /// Reads the payload of a command frame.
    fn read_command<R: Source>(
        &mut self,
        alloc: Global,
        source: &mut R,
        taken: &mut u64,
        head: Head,
    ) -> Result<(), FeedKind>
        requires { IsToRead Tag.Command self.old head taken.old }
        ensures standing { self.new.counts.standing ≡ self.old.counts.standing }
        ensures item { ReadsPayload self.old self.new head (R.left source.old) (R.left source.new) taken.old taken.new result }
        ensures payload { OnOk result (self.new.counts.payload ≡ self.old.counts.payload + head.len) }
        ensures counted { OnOk result (taken.new ≡ taken.old + head.len) }
        ensures cause { HasCauseIn result (R.faults source.old) (R.faults source.new) }
    {
        // Judged before more is read: no byte is taken behind the one that shows the fault.
        let session = take_byte(source, taken)?;
        self.counts.check_session(session)?;
        let mut text = Vec::new(alloc);
        take_payload(source, taken, &mut text, head.len as usize - 1)?;
        let text = Bytes::from_vec(text);
        self.commands.push(CommandText { session, text })?;
        self.counts.count_command(session, head.len);
        Ok(())
    }

    /// Reads the payload of a frame of schedule bytes.
    fn read_schedule<R: Source>(
        &mut self,
        source: &mut R,
        taken: &mut u64,
        head: Head,
    ) -> Result<(), FeedKind>
        requires { IsToRead Tag.Schedule self.old head taken.old }
        ensures standing { self.new.counts.standing ≡ self.old.counts.standing }
        ensures item { ReadsPayload self.old self.new head (R.left source.old) (R.left source.new) taken.old taken.new result }
        ensures payload { OnOk result (self.new.counts.payload ≡ self.old.counts.payload + head.len) }
        ensures counted { OnOk result (taken.new ≡ taken.old + head.len) }
        ensures cause { HasCauseIn result (R.faults source.old) (R.faults source.new) }
    {
        take_payload(source, taken, &mut self.schedule, head.len as usize)?;
        self.counts.count_schedule(head.len);
        Ok(())
    }
}
