//! Questions: a window and capacities.

ghost use Rattle.std.specs.Prelude.{◌≡◌, IfOk};

use crate::capacities::Capacities;
use crate::window::Window;
use std::alloc::AllocError;

/// Do some starts in the window keep precedence and the capacities?
#[derive(Drop)]
pub struct Question {
    /// How many units there are of each resource.
    pub capacities: Capacities,
    /// The bounds on the starts.
    pub window: Window,
}

impl Question {
    /// A copy of the question.
    ///
    /// # Errors
    ///
    /// Memory was refused.
    pub fn copy(&self) -> Result<Question, AllocError>
        ensures { IfOk result (λ copy. copy ≡ self.now) }
    {
        let capacities = self.capacities.copy()?;
        let window = self.window.copy()?;
        Ok(Question { capacities, window })
    }
}
