//! What may be wrong with a name, an id or a base.
ghost use Rattle.std.specs.Prelude.{◌≡◌, ◌↔◌, IsTrue};
ghost use Rattle.scim_key.specs.Names.{key_of};
ghost use Rattle.scim_key.specs.declared.names.NameFault.TheVariants.{Memory};

use std::alloc::AllocError;
use thiserror::Error;

/// The most bytes that a name may have.
pub const NAME_LIMIT: usize = 128;

/// What is wrong with a text as a name, an id or a base.
#[derive(Clone, Copy, Debug, Error)]
pub enum NameFault {
    #[error("N1")]
    Empty,
    #[error("N2")]
    TooLong,
    #[error("N3")]
    Character,
    #[error("N4")]
    SpaceAtEnd,
    #[error("N5")]
    Memory,
}

impl From<AllocError> for NameFault {
    ghost from_gives = { λ _ fault. fault ≡ Memory };

    fn from(_: AllocError) -> NameFault {
        NameFault::Memory
    }
}

/// Whether both texts have the same key. It allocates nothing.
pub(crate) fn have_same_key(a: &str, b: &str) -> bool
    ensures { IsTrue result ↔ (key_of a.now ≡ key_of b.now) }
{
    a.eq_ignore_ascii_case(b)
}
