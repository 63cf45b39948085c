ghost use Rattle.std.specs.Prelude.{ℕ, ◌≡◌, List, [], ◌∷◌, ◌++◌, ◌+◌, ◌-◌, ◌<◌, ◌≤◌, ◌==◌, length, slice_index, IfOk, IfErr, OnOk};
ghost use Rattle.adg_model.specs.Feed as feed;
ghost use Rattle.adg_model.specs.Feed.{most_payload, most_redo, most_deliveries};

use crate::tag::Tag;
use adg_model::fault::FeedKind;

/// The most payload bytes of one delivery.
const MOST_PAYLOAD: u64 = 33_554_432;

/// The most payload bytes of all redo frames of a feed.
const MOST_REDO: u64 = 4_294_967_295;

/// The most deliveries of a feed.
const MOST_DELIVERIES: u32 = 65_535;

/// The most commands of a session in one delivery.
const MOST_COMMANDS: u16 = 1_024;

/// The most threads, and the most sessions.
pub const MOST_ACTORS: u8 = 8;

/// What the frames before a delivery decide: the header's numbers, how many redo bytes there were,
/// and how many deliveries ended.
#[derive(Clone, Copy, Debug)]
pub struct Standing {
    pub threads: u8,
    pub sessions: u8,
    pub redo: u64,
    pub ends: u32,
    ghost within: { (sessions ≤ 8) × (redo ≤ most_redo) × (ends ≤ most_deliveries) },
}

/// What the frames of a delivery count up to: the lengths of all payloads and of those with redo,
/// and how many commands each session asked.
#[derive(Debug, Drop)]
pub struct Counts {
    pub standing: Standing,
    pub payload: u64,
    pub redo: u64,
    pub asked: [u16; 8],
    pub is_empty: bool,
    ghost within: { (payload ≤ most_payload) × (standing.redo + redo ≤ most_redo) },
}

/// Whether a number is one of so many from 1 on.
pub fn is_in(most: u8, number: u8) -> bool
    ensures { result ≡ feed.is_in most number }
{
    1 <= number && number <= most
}

impl Counts {
    ghost use Rattle.adg_model.specs.Feed.{Item, tag_fault, length_fault, payload_fault, redo_tag, command_tag, after_delivery};
    ghost use Rattle.adg_model.specs.Feed.Item.{Redo, Asks, Schedules};
    ghost use Rattle.feed_frames.specs.Counts.{standing_of, IsCountOf, HasRoom, IsShown, Judges, tag_byte};

    /// The counts as a delivery begins.
    pub fn new(standing: Standing) -> Counts
        ensures standing { result.standing ≡ standing }
        ensures none { IsCountOf result [] }
    {
        Counts {
            standing,
            payload: 0,
            redo: 0,
            asked: [0; 8],
            is_empty: true,
        }
    }

    /// Judges the tag of the next frame.
    pub fn check_tag(&self, byte: u8) -> Result<Tag, FeedKind>
        ensures tag { IfOk result (λ tag. tag_byte tag ≡ byte) }
        ensures fault { (before : List Item) → IsCountOf self.now before →
            Judges result (tag_fault before byte) }
        ensures shown { IfErr result IsShown }
    {
        match byte {
            b'R' => Ok(Tag::Redo),
            b'Q' => Ok(Tag::Command),
            b'S' => Ok(Tag::Schedule),
            b'E' => Ok(Tag::End),
            b'X' if self.is_empty => Ok(Tag::Stop),
            b'X' | b'H' => Err(FeedKind::BadOrder),
            _ => Err(FeedKind::BadTag),
        }
    }

    /// Judges the length of the next frame.
    pub fn check_length(&self, tag: Tag, len: u32) -> Result<(), FeedKind>
        ensures fault { (before : List Item) → IsCountOf self.now before →
            Judges result (length_fault (standing_of self.now.standing) before (tag_byte tag) len) }
        ensures room { OnOk result (HasRoom self.now tag len) }
        ensures shown { IfErr result IsShown }
    {
        if !tag.allows(len) {
            return Err(FeedKind::BadLength);
        }
        let len = len as u64;
        if tag.is_counted() && self.payload + len > MOST_PAYLOAD {
            return Err(FeedKind::TooLarge);
        }
        if tag == Tag::Redo && self.standing.redo + self.redo + len > MOST_REDO {
            return Err(FeedKind::TooLarge);
        }
        if tag == Tag::End && self.standing.ends >= MOST_DELIVERIES {
            return Err(FeedKind::TooManyDeliveries);
        }
        Ok(())
    }

    /// Judges the thread of a redo frame.
    pub fn check_thread(&self, thread: u8) -> Result<(), FeedKind>
        ensures fault { (before : List Item) (rest : List ℕ) →
            Judges result (payload_fault (standing_of self.now.standing) before redo_tag (thread ∷ rest)) }
        ensures shown { IfErr result IsShown }
    {
        if is_in(self.standing.threads, thread) {
            Ok(())
        } else {
            Err(FeedKind::BadThread)
        }
    }

    /// Judges the session of a command frame.
    pub fn check_session(&self, session: u8) -> Result<(), FeedKind>
        ensures fault { (before : List Item) (rest : List ℕ) → IsCountOf self.now before →
            Judges result (payload_fault (standing_of self.now.standing) before command_tag (session ∷ rest)) }
        ensures session { OnOk result ((1 ≤ session) × (session ≤ 8)) }
        ensures shown { IfErr result IsShown }
        ensures few { OnOk result (slice_index self.now.asked (session - 1) < 1024) }
    {
        if !is_in(self.standing.sessions, session) {
            return Err(FeedKind::BadSession);
        }
        if self.asked[session as usize - 1] >= MOST_COMMANDS {
            return Err(FeedKind::TooManyCommands);
        }
        Ok(())
    }

    /// Counts a redo frame.
    pub fn count_redo(&mut self, len: u32)
        requires payload { self.old.payload + len ≤ most_payload }
        requires redo { self.old.standing.redo + self.old.redo + len ≤ most_redo }
        ensures standing { self.new.standing ≡ self.old.standing }
        ensures payload { self.new.payload ≡ self.old.payload + len }
        ensures counts { (before : List Item) (thread : ℕ) (bytes : List ℕ) → IsCountOf self.old before →
            len ≡ 1 + length bytes → IsCountOf self.new (before ++ Redo thread bytes ∷ []) }
    {
        self.payload += len as u64;
        self.redo += len as u64;
        self.is_empty = false;
    }

    /// Counts a command frame.
    pub fn count_command(&mut self, session: u8, len: u32)
        requires session { (1 ≤ session) × (session ≤ 8) }
        requires few { slice_index self.old.asked (session - 1) < 1024 }
        requires payload { self.old.payload + len ≤ most_payload }
        ensures standing { self.new.standing ≡ self.old.standing }
        ensures payload { self.new.payload ≡ self.old.payload + len }
        ensures counts { (before : List Item) (text : List ℕ) → IsCountOf self.old before →
            len ≡ 1 + length text → IsCountOf self.new (before ++ Asks session text ∷ []) }
    {
        self.asked[session as usize - 1] += 1;
        self.payload += len as u64;
        self.is_empty = false;
    }

    /// Counts a frame of schedule bytes.
    pub fn count_schedule(&mut self, len: u32)
        requires { self.old.payload + len ≤ most_payload }
        ensures standing { self.new.standing ≡ self.old.standing }
        ensures payload { self.new.payload ≡ self.old.payload + len }
        ensures counts { (before : List Item) (bytes : List ℕ) → IsCountOf self.old before →
            len ≡ length bytes → IsCountOf self.new (before ++ Schedules bytes ∷ []) }
    {
        self.payload += len as u64;
        self.is_empty = false;
    }

    /// What is decided once the delivery has ended.
    pub fn ended(&self) -> Standing
        requires { self.now.standing.ends < most_deliveries }
        ensures { (items : List Item) → IsCountOf self.now items →
            standing_of result ≡ after_delivery (standing_of self.now.standing) items }
    {
        Standing {
            threads: self.standing.threads,
            sessions: self.standing.sessions,
            redo: self.standing.redo + self.redo,
            ends: self.standing.ends + 1,
        }
    }
}
