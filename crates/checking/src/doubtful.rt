//! The records that a recheck doubts.
ghost use Rattle.std.specs.Prelude.{◌≡◌, Some};
ghost use Rattle.std.specs.List.{count_by, list_any};
ghost use Rattle.checking.specs.Rechecks.{doubtful_if, is_user, unasked};

use crate::findings::Finding;
use crate::telling::TellFinding;
use scim_key::{Kind, RecordName};
use std::io;

/// A record that is doubted.
#[derive(Drop)]
pub struct Doubtful {
    pub name: RecordName,
    /// Whether its account is active, and shouldn't be.
    pub is_leaver: bool,
    /// Whether it is a user whose id may change.
    pub may_move: bool,
}

impl Doubtful {
    /// A record about which nothing was asked.
    pub(crate) fn unasked(name: RecordName) -> Doubtful
        ensures { result ≡ unasked name }
    {
        let may_move = is_user(&name);
        Doubtful {
            name,
            is_leaver: false,
            may_move,
        }
    }
}

/// Whether it is a user's record.
pub(crate) fn is_user(name: &RecordName) -> bool
    ensures { result ≡ is_user name.now }
{
    name.kind == Kind::User
}

/// Reports by another, and keeps each record that isn't in step.
#[derive(Drop)]
pub(crate) struct Doubting<T: Drop> {
    pub teller: T,
    pub doubtful: Vec<Doubtful>,
}

impl<T: TellFinding + Drop> TellFinding for Doubting<T> {
    type Note = Doubtful;

    ghost note = { doubtful_if };

    ghost noted = { λ it. Some it.doubtful.items };

    fn tell(&mut self, name: &RecordName, finding: &Finding) -> io::Result<()> {
        self.teller.tell(name, finding)?;
        if finding.is_in_step() {
            return Ok(());
        }
        self.doubtful.push(Doubtful {
            name: name.clone()?,
            is_leaver: finding.is_leaver(),
            may_move: is_user(name) && finding.has_other_id(),
        })?;
        Ok(())
    }
}

/// Of how many of these records the account is active, and shouldn't be.
pub(crate) fn leavers_among(doubtful: &[Doubtful]) -> usize
    ensures { result ≡ count_by (λ d. d.is_leaver) doubtful.now }
{
    doubtful.iter().filter(|record| record.is_leaver).count()
}

/// Whether the id of a user among these records may change.
pub(crate) fn may_move(doubtful: &[Doubtful]) -> bool
    ensures { result ≡ list_any (λ d. d.may_move) doubtful.now }
{
    doubtful.iter().any(|record| record.may_move)
}
