//! The columns of an entry, in the rows that the queries show: the place of each, counted from 0.
use source_csv::TEXT_FIELD_COUNT;

/// The key of the record.
pub(crate) const KEY: usize = 0;

/// The login of a user, or the name of a group.
pub(crate) const NAME: usize = 1;

/// The number of the row's revision.
pub(crate) const REVISION: usize = 2;

/// The first text of a user. The others follow in their order.
pub(crate) const FIRST_TEXT: usize = 3;

/// Whether a user is active.
pub(crate) const ACTIVE: usize = FIRST_TEXT + TEXT_FIELD_COUNT;

/// The members of a group.
pub(crate) const MEMBERS: usize = 3;

/// The number of the confirmed revision, with which the last columns begin: of a user, and of a group.
pub(crate) const USER_CONFIRMED: usize = ACTIVE + 1;

pub(crate) const GROUP_CONFIRMED: usize = MEMBERS + 1;

/// The other last columns, counted from the number of the confirmed revision: the id, the epoch of the row's revision,
/// and that of the confirmed one.
pub(crate) const ID: usize = 1;

pub(crate) const EPOCH: usize = 2;

pub(crate) const CONFIRMED_EPOCH: usize = 3;
