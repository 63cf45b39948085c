use crate::outside::Gate;
use std::sync::Wait;

/// The gate of the program: it holds nobody up.
#[derive(Clone, Copy, Debug, PartialEq, Eq)]
pub struct OpenGate;

impl Gate for OpenGate {
    fn pass<H: Wait>(&self, _rt: &H, _actor: u8, _turn: u64) {}
}
