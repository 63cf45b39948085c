ghost use Rattle.std.specs.Prelude.{◌≡◌, if◌then◌else◌, [], option_map, OnOk, IfOk};
ghost use Rattle.turn_rules.specs.Round.{at_hand};
ghost use Rattle.turn_rules.specs.Turns.{with_reply};
ghost use Rattle.turn_rules.specs.Telling.{all_replies};
ghost use Rattle.step_driver.specs.Seating.{request_shown, seat_shown, is_waiting};

use crate::request::Request;
use adg_base::answer::Reply;
use adg_base::memory::Memory;
use std::alloc::Global;

/// The seat of a session: its requests, and the replies to the first of them.
#[derive(Debug, Drop)]
pub struct Seat {
    pub(crate) requests: Vec<Request>,
    pub(crate) replies: Vec<Reply>,
}

impl Seat {
    /// A seat without a request.
    pub(crate) fn empty(alloc: Global) -> Seat
        ensures requests { result.requests.items ≡ [] }
        ensures replies { result.replies.items ≡ [] }
    {
        Seat {
            requests: Vec::new(alloc),
            replies: Vec::new(alloc),
        }
    }

    /// The first request without a reply.
    pub(crate) fn at_hand(&self) -> Option<&Request>
        ensures { option_map (λ x. request_shown x.now) result ≡ at_hand (seat_shown self.now) }
    {
        self.requests.get(self.replies.len())
    }

    /// Whether a request has no reply.
    pub(crate) fn is_waiting(&self) -> bool
        ensures { result ≡ is_waiting (seat_shown self.now) }
    {
        self.replies.len() < self.requests.len()
    }

    /// 1 where a request has no reply, else 0.
    pub(crate) fn waiting(&self) -> usize
        ensures { result ≡ (if is_waiting (seat_shown self.now) then 1 else 0) }
    {
        if self.is_waiting() { 1 } else { 0 }
    }

    /// Takes a reply to the request at hand.
    pub(crate) fn tell(&mut self, reply: Reply) -> Result<(), Memory>
        ensures { OnOk result (seat_shown self.new ≡ with_reply reply (seat_shown self.old)) }
    {
        self.replies.push(reply)?;
        Ok(())
    }

    /// The replies to all requests: `Down` to those that were not answered.
    pub(crate) fn into_replies(self) -> Result<Vec<Reply>, Memory>
        ensures { IfOk result (λ replies. replies.items ≡ all_replies (seat_shown self)) }
    {
        let mut replies = self.replies;
        for _ in replies.len()..self.requests.len() {
            replies.push(Reply::Down)?;
        }
        Ok(replies)
    }
}
