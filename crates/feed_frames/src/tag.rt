ghost use Rattle.std.specs.Prelude.{◌≡◌};

/// The most bytes of a command text.
const MOST_TEXT: u32 = 1_024;

/// The tag of a frame of a delivery.
#[derive(Clone, Copy, Debug, PartialEq, Eq)]
pub enum Tag {
    Redo,
    Command,
    Schedule,
    End,
    Stop,
}

impl Tag {
    ghost use Rattle.adg_model.specs.Feed as feed;
    ghost use Rattle.feed_frames.specs.Counts.{tag_byte};

    /// Whether a payload with this tag may have so many bytes.
    pub fn allows(self, len: u32) -> bool
        ensures { result ≡ feed.is_length (tag_byte self) len }
    {
        match self {
            Tag::Redo | Tag::Schedule => len >= 1,
            Tag::Command => 1 <= len && len <= MOST_TEXT + 1,
            Tag::End | Tag::Stop => len == 0,
        }
    }

    /// Whether its payload counts towards the limit of a delivery.
    pub fn is_counted(self) -> bool
        ensures { result ≡ feed.is_counted (tag_byte self) }
    {
        match self {
            Tag::Redo | Tag::Command | Tag::Schedule => true,
            Tag::End | Tag::Stop => false,
        }
    }
}
