//! Writes what was learnt of a record into its row.
ghost use Rattle.std.specs.Prelude.{◌≡◌};
ghost use Rattle.sqlite.specs.Held.{state};
ghost use Rattle.sqlite.specs.Values.{bound};
ghost use Rattle.journal_core.specs.Entries.{CanPutLearnt};
ghost use Rattle.sql_tables.specs.Statements.{WhileOpen};
ghost use Rattle.journal_store.specs.Connections.{ChangesOnce, HasNumbers, IsLaid};
ghost use Rattle.journal_store.specs.Learning.{Learns, learn_text, learnt_values};
ghost use Rattle.journal_store.specs.Rows.{entries_in};

use crate::format::Journal;
use crate::statements::TableFault;
use crate::tables::{epoch_param, revision_param, text_param};
use scim_key::{Key, Kind, RecordName, ResourceId, Revision};
use sql_tables::write;
use sqlite::{Alter, Connection};
use sqlite_value::value::ValueRef;

fn learn_statement(kind: Kind) -> &'static str
    ensures { result.now ≡ learn_text kind }
{
    match kind {
        Kind::User => {
            "UPDATE user_entry_3 SET confirmed = ?2, id = ?3, confirmed_epoch = ?4 WHERE name_key = ?1"
        }
        Kind::Group => {
            "UPDATE group_entry_3 SET confirmed = ?2, id = ?3, confirmed_epoch = ?4 WHERE name_key = ?1"
        }
    }
}

/// The key of the record, and what was learnt of it.
fn learnt_params<'a>(key: &'a Key, confirmed: Revision, id: &'a ResourceId) -> [ValueRef<'a>; 4]
    ensures { bound result ≡ learnt_values key.now confirmed id.now }
{
    [
        text_param(key.as_str()),
        revision_param(confirmed),
        text_param(id.as_str()),
        epoch_param(confirmed),
    ]
}

/// Writes the confirmed revision and the id into the record's row, by one statement. Fails if there is no
/// such row.
pub(crate) fn learn<S: Alter>(
    conn: &mut Connection<S>,
    name: &RecordName,
    confirmed: Revision,
    id: &ResourceId,
) -> Result<(), TableFault>
    requires laid { WhileOpen IsLaid (state S.Store conn.old) }
    requires numbers { WhileOpen (λ s. HasNumbers s.now.trees) (state S.Store conn.old) }
    requires lawful { WhileOpen (λ s. CanPutLearnt (entries_in s.now.trees) name.now confirmed)
        (state S.Store conn.old) }
    ensures changes { ChangesOnce (Learns name.now confirmed id.now) (state S.Store conn.old)
        (state S.Store conn.new) result }
{
    // The tables obey their schema, so at most one row has the key.
    let _schema = conn.schema();
    match write::<S, Journal>(
        conn,
        learn_statement(name.kind),
        &learnt_params(&name.key, confirmed, id),
    ) {
        Ok(0) => Err(TableFault::Store),
        Ok(_) => Ok(()),
        Err(error) => Err(TableFault::from(error)),
    }
}
