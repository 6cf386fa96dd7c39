//! Who is told of a call of a cell.

use tq_shape::Part;

/// Is told of each call of a cell. It changes no answer.
pub trait Gate {
    /// The call holds the lock of the part, and its ask is not yet answered.
    fn holding(&self, part: Part);

    /// The call has given the lock of the part back, with an answer or with a fault.
    fn answered(&self, part: Part);
}

/// A gate that does nothing.
#[derive(Clone, Copy, Debug)]
pub struct OpenGate;

impl Gate for OpenGate {
    fn holding(&self, _part: Part) {}

    fn answered(&self, _part: Part) {}
}
