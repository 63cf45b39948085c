ghost use Rattle.std.specs.Prelude.{◌≡◌, ◌↔◌, [], IsTrue};
ghost use Rattle.adg_io.specs.Faults.{one_more};
ghost use Rattle.adg_io.specs.InMemory.{IsToFail};

use crate::outside::Failed;

/// How many calls there were, which are to fail, and how many failed.
#[derive(Debug, Drop)]
pub struct Calls {
    pub made: u64,
    pub failing: Vec<u64>,
    pub faults: u64,
}

impl Calls {
    /// No call was made yet; those whose numbers, from 1, stand in `failing` are to fail.
    pub fn new(failing: Vec<u64>) -> Calls
        ensures { result ≡ record { made = 0; failing = failing; faults = 0 } }
    {
        Calls {
            made: 0,
            failing,
            faults: 0,
        }
    }

    /// Counts a call, and says whether it is to fail.
    pub fn next_fails(&mut self) -> bool
        ensures fails { IsTrue result ↔ IsToFail self.old.failing.items self.old.made }
        ensures made { self.new ≡ record self.old { made = one_more self.old.made } }
    {
        let fails = is_to_fail(self.failing.as_slice(), self.made);
        self.made = self.made.saturating_add(1);
        fails
    }

    /// Counts a fault.
    pub fn fault(&mut self) -> Failed
        ensures { self.new ≡ record self.old { faults = one_more self.old.faults } }
    {
        self.faults = self.faults.saturating_add(1);
        Failed
    }
}

/// Whether the call after so many has a number that stands among those that fail.
fn is_to_fail(failing: &[u64], made: u64) -> bool
    ensures { IsTrue result ↔ IsToFail failing.now made }
{
    match made.checked_add(1) {
        Some(number) => failing.contains(&number),
        None => false,
    }
}
