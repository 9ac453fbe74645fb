// Where output goes.
ghost use Rattle.std.specs.Prelude.{◌≡◌, List, ℕ, IsOk, length};
ghost use Rattle.pgo_base.specs.Outside.{PutLeaves, RisesBy, Tells};

use crate::OutsideError;

/// An output that bytes are appended to, and a count of the times that it failed.
pub trait Sink {
    /// Whether the sink tells its bytes.
    ghost tells: { Self → Type 0 };

    /// The bytes that it holds, where it tells them.
    ghost bytes: { Self → List ℕ };

    /// How often it failed.
    ghost faults: { Self → ℕ };

    /// Appends the piece. After `Failed`, at which the count of faults rises, a front of the piece was appended, and
    /// after `NoMemory` nothing. An empty piece is answered Ok and changes nothing.
    fn put(&mut self, piece: &[u8]) -> Result<(), OutsideError>
        ensures leaves { Tells (tells self.old) (tells self.new) (PutLeaves piece.now (bytes self.old) (bytes self.new) result) }
        ensures rises { RisesBy (faults self.old) (faults self.new) result }
        ensures empty { length piece.now ≡ 0 → IsOk result × (faults self.new ≡ faults self.old) };
}
