//! What is told of each computation.

/// Told of each computation of a style, so that who watches can count them, or hold a hand back.
pub trait Gate: Sync {
    /// Called before the style of the element `node` is sought, by the number of the hand that seeks it.
    fn pass(&self, hand: u32, node: u32);

    /// Called after each round in which a hand found nothing to do, by its number.
    fn idle(&self, hand: u32);
}

/// The gate whose calls return at once.
#[derive(Clone, Copy, Debug)]
pub struct OpenGate;

impl Gate for OpenGate {
    fn pass(&self, _hand: u32, _node: u32) {}

    fn idle(&self, _hand: u32) {}
}
