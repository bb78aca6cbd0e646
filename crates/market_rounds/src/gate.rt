//! Gates: what each group passes in each round before its turns.

/// What each group passes in each round before its turns. Groups pass it in threads of their own, so a gate
/// can wait for other groups.
pub trait Gate {
    /// Passes the gate. The group is that of the service with this number, 0 to 7.
    fn pass(&self, group: u32);
}

/// The gate that is always open.
#[derive(Clone, Copy, Debug, Drop)]
pub struct OpenGate;

impl Gate for OpenGate {
    fn pass(&self, group: u32) {
        let _ = group;
    }
}
