//! Connections whose calls never wait.
ghost use Rattle.std.specs.Prelude.{◌≡◌, length};
ghost use Rattle.ready_wires.specs.Wires.{Grows, IsWithin, TakesSome, WireSeen, after_read, after_write, front_of};

use sms_base::Failed;

/// A connection whose calls never wait.
pub trait Wire {
    /// What is seen of it.
    ghost seen: { Self → WireSeen };

    /// Reads the next bytes into the front of the buffer, and answers how many; `None` where it would wait. A read of
    /// none into a buffer that isn't empty is the end of the input.
    fn read(&mut self, buf: &mut [u8]) -> Result<Option<usize>, Failed>
        ensures bound { IsWithin result buf.new }
        ensures came { Grows (seen self.old).came (seen self.new).came (front_of result buf.new) }
        ensures taken { (seen self.new).taken ≡ (seen self.old).taken }
        ensures marks { (seen self.new).marks ≡ after_read (seen self.old).marks (length buf.new) result }
        ensures watch { (seen self.new).watch ≡ (seen self.old).watch };

    /// Takes bytes from the front of the piece, and answers how many, at least one of a piece that has some; `None`
    /// where it would wait.
    fn write(&mut self, piece: &[u8]) -> Result<Option<usize>, Failed>
        ensures bound { IsWithin result piece.now }
        ensures some { TakesSome result piece.now }
        ensures taken { Grows (seen self.old).taken (seen self.new).taken (front_of result piece.now) }
        ensures came { (seen self.new).came ≡ (seen self.old).came }
        ensures marks { (seen self.new).marks ≡ after_write (seen self.old).marks result }
        ensures watch { (seen self.new).watch ≡ (seen self.old).watch };
}
