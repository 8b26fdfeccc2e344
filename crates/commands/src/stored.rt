//! Serves connections from stored rows.
ghost use Rattle.std.specs.Prelude.{◌≡◌, ◌<◌, IfErr, IfOk, OnErr};
ghost use Rattle.storage.specs.StoreOpened.{IsMended};
ghost use Rattle.commands.specs.Stored.{AnswersFound, AnswersFrom, IsRefused, ServesFrom};

use connection::{ConnectionFault, Listen, Served, serve, serve_connections};
use http_text::{Input, Output};
use provider_core::Provider;
use provider_store::RegistryOpenFault;
use scim_key::Base;
use std::alloc::Global;
use std::io::{Eprint, Read, Write};
use storage::{RowStorage, StoredRows};

/// Opens the rows, serves one connection from them, and closes them.
pub fn serve_one<K: RowStorage, I: Read, O: Write>(
    alloc: Global,
    storage: &K,
    base: &Base,
    reader: &mut Input<I>,
    writer: &mut Output<O>,
) -> Result<Served, RegistryOpenFault>
    ensures answers { IfOk result
        (AnswersFrom K.Rows.Registry base.now reader.old reader.new writer.old writer.new) }
    ensures found { IfOk result
        (AnswersFound K.Rows.Registry (K.finds storage.now) base.now reader.old reader.new
        writer.old writer.new) }
    ensures refused { OnErr result ((reader.new ≡ reader.old) × (writer.new ≡ writer.old)) }
    ensures cause { IfErr result (K.refuses storage.now) }
{
    let mut provider = Provider::new(storage.open()?);
    let served = serve(alloc, &mut provider, base, reader, writer);
    provider.close().close();
    Ok(served)
}

/// Opens the rows, serves `count` connections from them as `serve_connections` does, and closes them. After
/// a fault of the store, it opens the rows again before it accepts the next connection, and ends if that is
/// refused.
pub fn serve_stored<K: RowStorage, L: Listen>(
    rt: &impl Eprint,
    alloc: Global,
    storage: &K,
    rows: K::Rows,
    listener: &mut L,
    count: u64,
    base: &Base,
) -> Result<Result<(), ConnectionFault>, RegistryOpenFault>
    ensures served { IfOk result (λ outcome. (last : K.Rows)
        × ServesFrom L.waiting L.Reader.remaining L.Writer.contents K.Rows.Registry
        (K.finds storage.now) base.now listener.old listener.new rows last count outcome) }
    ensures refused { OnErr result (IsRefused L.waiting L.Reader.remaining L.Writer.contents
        K.Rows.Registry (K.finds storage.now) base.now listener.old listener.new rows count) }
    ensures cause { IfErr result (K.refuses storage.now) }
{
    let mut provider = Provider::new(rows);
    let mut outcome = Ok(());
    for _turn in 0..count {
        provider = mended(storage, provider)?;
        let served = serve_connections(rt, alloc, listener, 1, base, &mut provider);
        outcome = outcome.and(served);
    }
    provider.close().close();
    Ok(outcome)
}

/// The provider; if a fault of its store was counted, its rows are opened again.
fn mended<K: RowStorage>(
    storage: &K,
    provider: Provider<K::Rows>,
) -> Result<Provider<K::Rows>, RegistryOpenFault>
    ensures mended { IfOk result (IsMended K.Rows.Registry (K.finds storage.now) provider) }
    ensures refused { OnErr result (0 < K.Rows.faults provider) }
    ensures cause { IfErr result (K.refuses storage.now) }
{
    if !provider.registry().has_failed() {
        return Ok(provider);
    }
    provider.close().close();
    Ok(Provider::new(storage.open()?))
}
