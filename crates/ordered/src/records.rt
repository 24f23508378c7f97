// Records that are found by a key.
ghost use Rattle.std.specs.Prelude.{◌≡◌};

use crate::keys::Key;

// A kind of record. It names the kind of its key.
pub trait Record: Copy {
    type Key: Key;

    ghost keyed: { Self → Self.Key };

    fn key(&self) -> Self::Key
        ensures { result ≡ keyed self.now };
}
