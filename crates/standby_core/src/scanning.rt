ghost use Rattle.std.specs.Prelude.{◌≡◌, ◌≤◌, Ok, None, IfOk, IfSome, OnErr};
ghost use Rattle.core_rules.specs.declared.event.Event.TheVariants as event;
ghost use Rattle.core_rules.specs.State.{CoreState};
ghost use Rattle.dictionary.specs.Standing.{StandsFor};
ghost use Rattle.standby_core.specs.Scans.{reply_of, EndsWith};
ghost use Rattle.standby_core.specs.declared.session.Scan.{Scan as OwnScan};
ghost use Rattle.standby_core.specs.declared.session.Session.TheVariants as seat;
ghost use Rattle.standby_core.specs.Shows.{Shows, IsState, HasState, HasStepped};

use crate::session::{Scan, Session, free_place, place_of};
use crate::standby::Core;
use adg_base::answer::Reply;
use adg_base::command::Select;
use adg_base::memory::Memory;
use core_rules::event::CoreAnswer;
use dictionary::Dictionary;
use scan_eval::accumulator::Accumulator;
use scan_eval::admission::QueryRefused;
use std::alloc::Global;

impl Core {
    /// A session begins a query, or is refused.
    pub(crate) fn scan_begin(
        &mut self,
        session: u8,
        select: Select,
        dictionary: &Dictionary,
    ) -> Result<CoreAnswer, Memory>
        requires { HasState self.old }
        ensures ok { IfOk result (λ answer. (c : CoreState) → IsState self.old c → StandsFor dictionary.now c.log → HasStepped self.new c (event.ScanBegin session select) answer) }
        ensures err { OnErr result ((c : CoreState) → IsState self.old c → Shows self.new c) }
    {
        let Some(place) = free_place(&self.sessions, session) else {
            return Ok(CoreAnswer::NotReady);
        };
        let scn = self.query;
        let Some(definition) = dictionary.at(select.obj, scn) else {
            return Ok(CoreAnswer::Said(Reply::NoTable { scn }));
        };
        match Accumulator::new(self.alloc, &select, &definition) {
            Ok(accumulator) => {
                self.sessions[place] = Session::Scanning(Scan {
                    select,
                    scn,
                    definition,
                    extents: 0,
                    accumulator,
                    col: 0,
                    row: 0,
                });
                Ok(CoreAnswer::Moved)
            }
            Err(QueryRefused::NoColumn) => Ok(CoreAnswer::Said(Reply::NoColumn { scn })),
            Err(QueryRefused::WrongType) => Ok(CoreAnswer::Said(Reply::WrongType { scn })),
            Err(QueryRefused::Memory) => Err(Memory),
        }
    }

    /// A scan whose extents are all gathered ends with its answer.
    pub(crate) fn scan_end(&mut self, session: u8) -> Result<CoreAnswer, Memory>
        requires { HasState self.old }
        ensures ok { IfOk result (λ answer. (c : CoreState) → IsState self.old c → HasStepped self.new c (event.ScanEnd session) answer) }
        ensures err { OnErr result ((c : CoreState) → IsState self.old c → Shows self.new c) }
    {
        let Some(place) = place_of(session) else {
            return Ok(CoreAnswer::NotReady);
        };
        if place >= self.sessions.len() {
            return Ok(CoreAnswer::NotReady);
        }
        let Some(reply) = take_reply(self.alloc, &mut self.sessions[place])? else {
            return Ok(CoreAnswer::NotReady);
        };
        self.sessions[place] = Session::Free;
        Ok(CoreAnswer::Said(reply))
    }
}

impl Scan {
    /// Its answer, with where its rows came from.
    fn reply(&mut self, alloc: Global) -> Result<Reply, Memory>
        ensures answer { IfOk result (λ said. said ≡ reply_of self.old) }
        ensures same { self.new ≡ self.old }
    {
        let answer = self.accumulator.take_answer(alloc)?;
        Ok(Reply::Rows {
            scn: self.scn,
            answer,
            col: self.col,
            row: self.row,
        })
    }
}

/// The answer of a session's scan, where it has one whose extents are all gathered.
fn take_reply(alloc: Global, session: &mut Session) -> Result<Option<Reply>, Memory>
    ensures none { result ≡ Ok None → (x : OwnScan) → session.old ≡ seat.Scanning x → x.definition.extents ≤ x.extents → ⊥ }
    ensures some { IfOk result (λ said. IfSome said (λ reply. EndsWith session.old reply)) }
    ensures same { session.new ≡ session.old }
{
    let Session::Scanning(scan) = session else {
        return Ok(None);
    };
    if scan.extents < scan.definition.extents {
        return Ok(None);
    }
    let reply = scan.reply(alloc)?;
    Ok(Some(reply))
}
