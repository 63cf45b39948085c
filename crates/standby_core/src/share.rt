ghost use Rattle.std.specs.Prelude.{◌≡◌, ◌++◌, ◌∷◌, [], length, take, OnOk, OnErr};

use adg_base::log::LogEntry;
use adg_base::memory::Memory;
use std::alloc::Global;
use std::marker::Model;

/// The entries of the log that are a worker's own, in log order.
#[derive(Debug, Drop)]
pub struct Share {
    entries: Vec<LogEntry>,
}

impl Model for Share {
    ghost use Rattle.std.specs.Prelude.{List};
    ghost use Rattle.adg_base.specs.declared.log.LogEntry.{LogEntry as Entry};

    ghost Value = { List Entry };

    ghost view = { λ s. s.entries.items };
}

impl Share {
    /// No entries.
    pub fn new(alloc: Global) -> Share
        ensures { result ≡ [] }
    {
        Share {
            entries: Vec::new(alloc),
        }
    }

    /// The entries, lent.
    pub fn as_slice(&self) -> &[LogEntry]
        ensures { result.now ≡ self.now }
    {
        self.entries.as_slice()
    }

    /// How many entries there are.
    pub fn len(&self) -> usize
        ensures { result ≡ length self.now }
    {
        self.entries.len()
    }

    /// Adds an entry behind the others.
    pub fn push(&mut self, entry: LogEntry) -> Result<(), Memory>
        ensures ok { OnOk result (self.new ≡ self.old ++ entry ∷ []) }
        ensures err { OnErr result (self.new ≡ self.old) }
    {
        self.entries.push(entry)?;
        Ok(())
    }

    /// Keeps the first so many entries.
    pub fn truncate(&mut self, count: usize)
        ensures { self.new ≡ take count self.old }
    {
        self.entries.truncate(count);
    }
}
