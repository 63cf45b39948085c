ghost use Rattle.std.specs.Prelude.{◌≡◌, [], nat_le, IfOk, OnOk, OnErr};
ghost use Rattle.scn_queue.specs.Queue.{upto, above, entered, IsInScnOrder, IsPartedAt};

use crate::has_scn::HasScn;
use adg_base::list::List;
use adg_base::memory::Memory;
use adg_base::number::Scn;
use std::alloc::Global;
use std::collections::VecDeque;
use std::marker::Model;

/// Entries sorted by SCN; an equal SCN comes behind those that were there.
#[derive(Debug, Drop)]
pub struct ScnQueue<T: HasScn> {
    alloc: Global,
    entries: VecDeque<T>,
}

impl<T: HasScn> Model for ScnQueue<T> {
    ghost use Rattle.std.specs.Prelude.{List as ListOf};
    ghost use Rattle.scn_queue.specs.Queue.{IsInScnOrder};

    ghost Value = { ListOf T };

    ghost view = { λ q. q.entries.items };

    ghost invariant = { λ q. IsInScnOrder T.scn_of q.entries.items };
}

impl<T: HasScn> ScnQueue<T> {
    /// The empty queue.
    pub fn new(alloc: Global) -> ScnQueue<T>
        ensures { result ≡ [] }
    {
        ScnQueue {
            alloc,
            entries: VecDeque::new(alloc),
        }
    }

    /// How many entries have SCNs up to one.
    fn count_upto(&self, through: Scn) -> usize
        ensures { IsPartedAt T.scn_of through self.now result }
    {
        self.entries.partition_point(
            |entry: &T| -> bool
                ensures { result ≡ nat_le (T.scn_of entry.now) through }
            { entry.scn() <= through },
        )
    }

    /// Where an entry of an SCN comes to stand: at the end, unless it is below the last.
    fn place_of(&self, scn: Scn) -> usize
        ensures { IsPartedAt T.scn_of scn self.now result }
    {
        let Some(last) = self.entries.back() else {
            return 0;
        };
        if last.scn() > scn {
            self.count_upto(scn)
        } else {
            self.entries.len()
        }
    }

    /// Puts an entry behind all that have SCNs up to its own.
    pub fn enter(&mut self, entry: T) -> Result<(), Memory>
        ensures ok { OnOk result (self.new ≡ entered T.scn_of entry self.old) }
        ensures err { OnErr result (self.new ≡ self.old) }
    {
        let place = self.place_of(entry.scn());
        self.entries.insert(place, entry)?;
        Ok(())
    }

    /// Copies the entries with SCNs up to one.
    pub fn upto(&self, through: Scn) -> Result<List<T>, Memory>
        ensures found { IfOk result (λ list. list ≡ upto T.scn_of through self.now) }
        ensures order { IfOk result (λ list. IsInScnOrder T.scn_of list) }
    {
        let count = self.count_upto(through);
        let (head, tail) = self.entries.as_slices();
        let of_head = count.min(head.len());
        let mut found = Vec::with_capacity(self.alloc, count)?;
        found.extend_from_slice(&head[..of_head])?;
        found.extend_from_slice(&tail[..count - of_head])?;
        Ok(List::from_vec(found))
    }

    /// Takes the entries with SCNs up to one out.
    pub fn cut(&mut self, through: Scn) -> Result<List<T>, Memory>
        ensures ok { IfOk result (λ list. list ≡ upto T.scn_of through self.old) }
        ensures order { IfOk result (λ list. IsInScnOrder T.scn_of list) }
        ensures left { OnOk result (self.new ≡ above T.scn_of through self.old) }
        ensures err { OnErr result (self.new ≡ self.old) }
    {
        let found = self.upto(through)?;
        self.drop_through(through);
        Ok(found)
    }

    /// Drops the entries with SCNs up to one.
    pub fn drop_through(&mut self, through: Scn)
        ensures { self.new ≡ above T.scn_of through self.old }
    {
        for _ in 0..self.count_upto(through) {
            self.entries.pop_front();
        }
    }
}
