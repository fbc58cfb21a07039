//! Gates, which hold a worker or end it.

ghost use Rattle.std.specs.Prelude.{◌≡◌, Bool, true};
ghost use Rattle.wb_target.specs.declared.gate.Point.{Point as WorkPoint};

/// Where a worker asks its gate.
#[derive(Clone, Copy, PartialEq, Eq)]
pub enum Point {
    /// Before it takes an order.
    Order,
    /// Before a step on a device.
    Device,
    /// Where no order waits.
    Idle,
}

/// What a worker asks whether it goes on, under no lock. While it does not answer it holds the worker. At `Device` it can only
/// hold: a task that has begun is carried on, whatever it answers.
pub trait Gate {
    /// What an answer at a point tells.
    ghost answers: { Self → WorkPoint → Bool → Type 0 };

    /// Whether the worker goes on.
    fn go_on(&self, at: Point) -> bool
        ensures { answers self.now at result };
}

/// A gate that lets everything pass.
pub struct OpenGate;

impl Gate for OpenGate {
    ghost answers = { λ gate at go. go ≡ true };

    fn go_on(&self, _at: Point) -> bool {
        true
    }
}
