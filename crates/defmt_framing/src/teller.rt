//! What tells the parts of a stream.
ghost use Rattle.std.specs.Prelude.{◌≡◌, ◌≤◌, length, IfOk};
ghost use Rattle.defmt_framing.specs.Told.{Tells};

use dl_io::Memory;

/// What the parts of a stream tell.
///
/// A teller is seen as what it tells by. A buffer that it works in is no part of that.
pub trait Teller {
    /// Something that a part tells.
    type Told: Drop;

    /// What each part tells.
    ghost tells: { Self → Tells Self.Told };

    /// What a piece of at most 65,536 bytes tells. May want memory. The teller is as before.
    fn piece(&mut self, piece: &[u8]) -> Result<Self::Told, Memory>
        requires { length piece.now ≤ 65536 }
        ensures told { IfOk result (λ told. told ≡ (tells self.old).piece piece.now) }
        ensures same { self.new ≡ self.old };

    /// What a piece of more than 65,536 bytes tells.
    fn long(&self) -> Self::Told
        ensures { result ≡ (tells self.now).long };

    /// What a front of so many bytes tells.
    fn cut_front(&self, bytes: u64) -> Self::Told
        ensures { result ≡ (tells self.now).cut_front bytes };

    /// What a tail of so many bytes tells.
    fn cut_tail(&self, bytes: u64) -> Self::Told
        ensures { result ≡ (tells self.now).cut_tail bytes };
}
