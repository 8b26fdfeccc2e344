//! The rows of a store as lines.
ghost use Rattle.std.specs.Prelude.{◌≡◌, IfErr, IfOk, OnOk, drop, length, take};
ghost use Rattle.std.specs.Io.KnownBytes.{Appends};
ghost use Rattle.provider_core.specs.Rows.{IsNumberedFrom, page_after};
ghost use Rattle.storage.specs.ShowFaults.{IsOfStore};
ghost use Rattle.storage.specs.StoreLines.{lines_of};
ghost use Rattle.storage.specs.StoreShowing.{ReadsOn, ShowsFrom};
ghost use Rattle.storage.specs.declared.show_fault.ShowFault.TheVariants.{NoStore};

use crate::row_storage::{RowStorage, StoredRows};
use crate::show_fault::{ShowFault, registry_fault};
use crate::store_lines::row_line;
use provider_core::{ROWS_AT_ONCE, Registry};
use scim_resource::Stored;
use std::alloc::Global;
use std::io::Write;

/// Opens the rows, if they are there, writes a line for each in order of creation, and closes them.
pub fn show_rows<K: RowStorage, W: Write>(
    alloc: Global,
    storage: &K,
    out: &mut W,
) -> Result<(), ShowFault>
    ensures missing { result ≡ Err NoStore → K.is_missing storage.now }
    ensures shown { OnOk result
        (ShowsFrom K.Rows.Registry (K.finds storage.now) (W.contents out.old) (W.contents out.new)) }
{
    let Some(mut rows) = storage.find()? else {
        return Err(ShowFault::NoStore);
    };
    let shown = write_rows(alloc, &mut rows, out);
    rows.close();
    shown
}

/// Writes a line for each row in order of creation, and flushes. After a fault, any part of the lines may
/// be written.
pub fn write_rows<R: Registry, W: Write>(
    alloc: Global,
    rows: &mut R,
    out: &mut W,
) -> Result<(), ShowFault>
    ensures lines { R.is_faithful rows.new
        → OnOk result
        (Appends (W.contents out.old) (W.contents out.new) (lines_of (R.rows rows.old))) }
    ensures there { IfErr result IsOfStore }
{
    write_pages(alloc, rows, out)?;
    Ok(out.flush()?)
}

fn write_pages<R: Registry, W: Write>(
    alloc: Global,
    rows: &mut R,
    out: &mut W,
) -> Result<(), ShowFault>
    ensures lines { R.is_faithful rows.new
        → OnOk result
        (Appends (W.contents out.old) (W.contents out.new) (lines_of (R.rows rows.old))) }
    ensures there { IfErr result IsOfStore }
{
    let all = count_of(rows)?;
    let mut after = 0;
    while after < all {
        write_page(alloc, rows, after, out)?;
        after = after.saturating_add(ROWS_AT_ONCE);
    }
    Ok(())
}

/// How many rows there are.
fn count_of<R: Registry>(rows: &mut R) -> Result<u32, ShowFault>
    ensures ok { R.is_faithful rows.new → IfOk result (λ n. n ≡ length (R.rows rows.old)) }
    ensures reads { ReadsOn R.Registry rows.old rows.new }
    ensures there { IfErr result IsOfStore }
{
    match rows.count() {
        Ok(count) => Ok(count),
        Err(fault) => Err(registry_fault(fault)),
    }
}

/// Some rows after the first `after`.
fn page_of<R: Registry>(rows: &mut R, after: u32) -> Result<Vec<Stored>, ShowFault>
    ensures ok { R.is_faithful rows.new
        → IfOk result (λ page. page.items ≡ page_after after ROWS_AT_ONCE (R.rows rows.old)) }
    ensures numbered { R.is_faithful rows.new → IsNumberedFrom 1 (R.rows rows.old) }
    ensures reads { ReadsOn R.Registry rows.old rows.new }
    ensures there { IfErr result IsOfStore }
{
    match rows.scan(after, ROWS_AT_ONCE as usize) {
        Ok(page) => Ok(page),
        Err(fault) => Err(registry_fault(fault)),
    }
}

/// Writes the lines of some rows after the first `after`.
fn write_page<R: Registry, W: Write>(
    alloc: Global,
    rows: &mut R,
    after: u32,
    out: &mut W,
) -> Result<(), ShowFault>
    ensures page { R.is_faithful rows.new
        → OnOk result
        (Appends (W.contents out.old) (W.contents out.new)
        (lines_of (take ROWS_AT_ONCE (drop after (R.rows rows.old))))) }
    ensures reads { ReadsOn R.Registry rows.old rows.new }
    ensures there { IfErr result IsOfStore }
{
    let page = page_of(rows, after)?;
    write_lines(alloc, page.as_slice(), out)
}

fn write_lines<W: Write>(alloc: Global, rows: &[Stored], out: &mut W) -> Result<(), ShowFault>
    ensures lines { OnOk result (Appends (W.contents out.old) (W.contents out.new) (lines_of rows.now)) }
    ensures there { IfErr result IsOfStore }
{
    for row in rows {
        let line = row_line(alloc, row)?;
        out.write_all(line.as_bytes())?;
    }
    Ok(())
}
