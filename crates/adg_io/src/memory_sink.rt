ghost use Rattle.std.specs.Prelude.{◌≡◌, ◌↔◌, ◌++◌, ◌<◌, [], max, length, take, IsErr, IfOk, OnErr, Some};
ghost use Rattle.std.specs.Io.{WritesAtMost};
ghost use Rattle.std.specs.Io.KnownBytes.{WriteAppends};
ghost use Rattle.adg_io.specs.Faults.{HasCause, one_more};
ghost use Rattle.adg_io.specs.InMemory.{IsToRefuse, taken_of};

use crate::calls::Calls;
use crate::outside::{Failed, Sink};
use adg_base::memory::Memory;
use std::alloc::Global;
use std::marker::Model;

/// A sink into memory, which tells what it holds. It takes at most so many bytes in one call, and
/// fails exactly where it has no room, or where the call has one of the numbers it was given.
#[derive(Debug, Drop)]
pub struct MemSink {
    bytes: Vec<u8>,
    room: usize,
    most: usize,
    calls: Calls,
}

impl Model for MemSink {
    ghost use Rattle.std.specs.Prelude.{◌≤◌, ◌<◌, vec_len, vec_capacity};
    ghost use Rattle.adg_io.specs.InMemory.{SinkState};

    ghost Value = { SinkState };

    ghost view = { λ s. record {
      held = s.bytes.items;
      room = s.room;
      most = s.most;
      failing = s.calls.failing.items;
      calls = s.calls.made;
      faults = s.calls.faults;
    } };

    ghost invariant = { λ s. (s.room ≤ vec_capacity s.bytes) × (vec_len s.bytes ≤ s.room)
        × (0 < s.most) };
}

impl MemSink {
    /// An empty sink, with the memory for `room` bytes. A call takes at most `most` of them (0
    /// counts as 1), and those whose numbers, from 1, stand in `failing` fail.
    pub fn new(
        alloc: Global,
        room: usize,
        most: usize,
        failing: Vec<u64>,
    ) -> Result<MemSink, Memory>
        ensures { IfOk result (λ sink. sink ≡ record {
          held = [];
          room = room;
          most = max most 1;
          failing = failing.items;
          calls = 0;
          faults = 0;
        }) }
    {
        let bytes = Vec::with_capacity(alloc, room)?;
        Ok(MemSink {
            bytes,
            room,
            most: most.max(1),
            calls: Calls::new(failing),
        })
    }

    /// The bytes that it holds.
    pub fn held(&self) -> &[u8]
        ensures { result.now ≡ self.now.held }
    {
        self.bytes.as_slice()
    }
}

impl Sink for MemSink {
    ghost held = { λ s. Some s.held };

    ghost faults = { λ s. s.faults };

    fn write(&mut self, piece: &[u8]) -> Result<usize, Failed>
        ensures bound { WritesAtMost result piece.now }
        ensures some { IfOk result (λ n. 0 < length piece.now → 0 < n) }
        ensures bytes { WriteAppends (Some self.old.held) (Some self.new.held) result piece.now }
        ensures cause { HasCause self.old.faults self.new.faults result }

        // Which calls fail, and how much the others take.
        ensures fails { IsErr result ↔ IsToRefuse self.old (length piece.now) }
        ensures count { IfOk result (λ n. n ≡ taken_of self.old (length piece.now)) }
        ensures ok { IfOk result (λ n. self.new ≡ record self.old {
          held = self.old.held ++ take n piece.now;
          calls = one_more self.old.calls;
        }) }
        ensures err { OnErr result (self.new ≡ record self.old {
          calls = one_more self.old.calls;
          faults = one_more self.old.faults;
        }) }
    {
        if self.calls.next_fails() {
            return Err(self.calls.fault());
        }
        let room = self.room - self.bytes.len();
        if room == 0 && !piece.is_empty() {
            return Err(self.calls.fault());
        }
        let count = piece.len().min(self.most).min(room);
        self.bytes.extend_from_slice(&piece[..count]).unwrap();
        Ok(count)
    }
}
