ghost use Rattle.std.specs.Prelude.{◌≡◌, ◌≤◌, ◌-◌, ℕ, length, is_err};
ghost use Rattle.evo_base.specs.Causes.{HasCause};
ghost use Rattle.evo_base.specs.Content.{Writes};
ghost use Rattle.evo_base.specs.States.{SinkState};

use crate::Failed;

/// What is written to, piece by piece.
pub trait Sink {
    /// What was written, how often calls failed, and which writes do not fail.
    ghost state: { Self → SinkState };

    /// Writes a piece behind what was written. A call that fails keeps a prefix of the piece.
    fn write(&mut self, piece: &[u8]) -> Result<(), Failed>
        ensures content { Writes (state self.old).written (state self.new).written piece.now result }
        ensures failed { (state self.new).failed ≡ is_err result }
        ensures cause { HasCause (state self.old).faults (state self.new).faults ((state self.old).takes (length piece.now)) result }
        ensures takes { (n : ℕ) → length piece.now ≤ n → (state self.old).takes n → (state self.new).takes (n - length piece.now) };

    /// Where so many bytes are taken, fewer are.
    ghost takes_fewer: { (sink : Self) (m n : ℕ) → m ≤ n → (state sink).takes n → (state sink).takes m };
}
