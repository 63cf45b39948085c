ghost use Rattle.std.specs.Prelude.{◌≡◌, ◌↔◌, ◌++◌, max, length, take, drop, IsErr, IfOk, OnErr, Some};
ghost use Rattle.std.specs.Io.{ReadsAtMost};
ghost use Rattle.std.specs.Io.KnownBytes.{ReadConsumes};
ghost use Rattle.adg_io.specs.Faults.{HasCause, one_more};
ghost use Rattle.adg_io.specs.InMemory.{IsToFail, given_to};

use crate::calls::Calls;
use crate::outside::{Failed, Source};
use std::marker::Model;

/// A source over bytes in memory, which tells what is left. It gives at most so many bytes in one
/// call, and exactly the calls whose numbers it was given fail.
#[derive(Debug, Drop)]
pub struct MemSource {
    bytes: Vec<u8>,
    at: usize,
    most: usize,
    calls: Calls,
}

impl Model for MemSource {
    ghost use Rattle.std.specs.Prelude.{◌≤◌, ◌<◌, drop, vec_len};
    ghost use Rattle.adg_io.specs.InMemory.{SourceState};

    ghost Value = { SourceState };

    ghost view = { λ s. record {
      left = drop s.at s.bytes.items;
      most = s.most;
      failing = s.calls.failing.items;
      calls = s.calls.made;
      faults = s.calls.faults;
    } };

    ghost invariant = { λ s. (s.at ≤ vec_len s.bytes) × (0 < s.most) };
}

impl MemSource {
    /// A source of these bytes. A call gives at most `most` of them (0 counts as 1), and those
    /// whose numbers, from 1, stand in `failing` fail.
    pub fn new(bytes: Vec<u8>, most: usize, failing: Vec<u64>) -> MemSource
        ensures { result ≡ record {
          left = bytes.items;
          most = max most 1;
          failing = failing.items;
          calls = 0;
          faults = 0;
        } }
    {
        MemSource {
            bytes,
            at: 0,
            most: most.max(1),
            calls: Calls::new(failing),
        }
    }

    /// The bytes that are left.
    pub fn left(&self) -> &[u8]
        ensures { result.now ≡ self.now.left }
    {
        &self.bytes.as_slice()[self.at..]
    }
}

impl Source for MemSource {
    ghost left = { λ s. Some s.left };

    ghost faults = { λ s. s.faults };

    fn read(&mut self, into: &mut [u8]) -> Result<usize, Failed>
        ensures bound { ReadsAtMost result into.new }
        ensures bytes { ReadConsumes (Some self.old.left) (Some self.new.left) result into.new }
        ensures cause { HasCause self.old.faults self.new.faults result }

        // Which calls fail, and how much the others give.
        ensures fails { IsErr result ↔ IsToFail self.old.failing self.old.calls }
        ensures count { IfOk result (λ n. n ≡ given_to self.old (length into.old)) }
        ensures given { IfOk result (λ n. into.new ≡ take n self.old.left ++ drop n into.old) }
        ensures ok { IfOk result (λ n. self.new ≡ record self.old {
          left = drop n self.old.left;
          calls = one_more self.old.calls;
        }) }
        ensures err { OnErr result (self.new ≡ record self.old {
          calls = one_more self.old.calls;
          faults = one_more self.old.faults;
        }) }
        ensures untouched { OnErr result (into.new ≡ into.old) }
    {
        if self.calls.next_fails() {
            return Err(self.calls.fault());
        }
        let left = &self.bytes.as_slice()[self.at..];
        let count = left.len().min(self.most).min(into.len());
        into[..count].copy_from_slice(&left[..count]);
        self.at += count;
        Ok(count)
    }
}
