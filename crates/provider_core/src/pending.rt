//! What a request would answer and change.
ghost use Rattle.std.specs.Prelude.{◌≡◌, IfOk};
ghost use Rattle.scim_resource.specs.Rows.{row_of};
ghost use Rattle.provider_core.specs.Changes.{written};

use scim_message::Answer;
use scim_resource::{RowVersion, Shown, Stored};
use std::alloc::AllocError;
use std::marker::Model;

/// How the rows change.
#[derive(Drop)]
pub enum Change {
    /// Nothing.
    Unchanged,
    /// A row is added.
    Insert(Stored),
    /// A row replaces the row with the same number.
    Update(Stored),
}

/// The answer to a request and its change, which isn't made yet. A content that is written is kept once: in the
/// answer that shows it.
#[derive(Drop)]
pub struct Pending {
    /// The number and the version of the row that is written, if there is one.
    pub(crate) row: Option<RowVersion>,
    pub(crate) answer: Answer,
}

impl Model for Pending {
    ghost use Rattle.provider_core.specs.Outcomes.{Outcome};
    ghost use Rattle.provider_core.specs.Changes.{change_of};

    ghost Value = { Outcome };

    ghost view = { λ p. record { change = change_of p.row p.answer; answer = p.answer } };
}

impl Pending {
    /// The answer to give once the change is committed.
    pub fn answer(&self) -> &Answer
        ensures { result.now ≡ self.now.answer }
    {
        &self.answer
    }

    /// The change, with a copy of the content.
    pub(crate) fn change(&self) -> Result<Change, AllocError>
        ensures { IfOk result (λ change. change ≡ self.now.change) }
    {
        match &self.row {
            Some(row) => copied_change(row, &self.answer),
            None => Ok(Change::Unchanged),
        }
    }

    /// The change, with the answer's content.
    pub(crate) fn into_change(self) -> Change
        ensures { result ≡ self.change }
    {
        let Pending { row, answer } = self;
        match row {
            Some(row) => moved_change(&row, answer),
            None => Change::Unchanged,
        }
    }

    pub(crate) fn into_answer(self) -> Answer
        ensures { result ≡ self.answer }
    {
        let Pending { answer, .. } = self;
        answer
    }
}

/// The row with a copy of the content that is shown.
fn copied_row(row: &RowVersion, shown: &Shown) -> Result<Stored, AllocError>
    ensures { IfOk result (λ copy. copy ≡ row_of row.now shown.now.content) }
{
    Ok(row.with_content(shown.content().clone()?))
}

/// The change to the row that an answer shows, with a copy of the content.
fn copied_change(row: &RowVersion, answer: &Answer) -> Result<Change, AllocError>
    ensures { IfOk result (λ change. change ≡ written row.now answer.now) }
{
    match answer {
        Answer::Created(shown) => Ok(Change::Insert(copied_row(row, shown)?)),
        Answer::Replaced(shown) => Ok(Change::Update(copied_row(row, shown)?)),
        Answer::Found(_) => Ok(Change::Unchanged),
        Answer::List(_) => Ok(Change::Unchanged),
        Answer::NotModified { .. } => Ok(Change::Unchanged),
        Answer::Error(_) => Ok(Change::Unchanged),
    }
}

/// The change to the row that an answer shows, with the answer's content.
fn moved_change(row: &RowVersion, answer: Answer) -> Change
    ensures { result ≡ written row.now answer }
{
    match answer {
        Answer::Created(shown) => Change::Insert(row.with_content(shown.into_content())),
        Answer::Replaced(shown) => Change::Update(row.with_content(shown.into_content())),
        Answer::Found(_) => Change::Unchanged,
        Answer::List(_) => Change::Unchanged,
        Answer::NotModified { .. } => Change::Unchanged,
        Answer::Error(_) => Change::Unchanged,
    }
}
