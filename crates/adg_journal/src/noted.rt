use crate::places::Places;

/// What was noted of one transaction: whether its beginning was, and its addresses.
#[derive(Debug, Drop)]
pub struct Noted {
    pub begun: bool,
    pub places: Places,
}
