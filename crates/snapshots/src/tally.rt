//! How often each name stands in a snapshot.
ghost use Rattle.std.specs.Prelude.{◌≡◌, ◌<◌, ◌+◌, ◌^◌, IfOk, OnOk, Some, nat_lt};
ghost use Rattle.std.specs.BTreeMap.{Updates};
ghost use Rattle.scim_key.specs.Records.{name_cmp};
ghost use Rattle.scim_key.specs.declared.records.RecordName.{RecordName as Name};
ghost use Rattle.snapshots.specs.Snapshots.{mentions_in, name_in};
ghost use Rattle.snapshots.specs.Tally.{KnowsRepeats, count_in, counts, mentioned_more};

use scim_key::RecordName;
use source_csv::{Rejected, Row};
use std::alloc::{AllocError, Global};
use std::collections::BTreeMap;

/// How many records of a snapshot have each name.
#[derive(Drop)]
pub(crate) struct Tally {
    counts: BTreeMap<RecordName, usize>,
    /// Whether several records have one name.
    has_repeats: bool,
}

/// Whose record it is, if its name can be read.
fn name_in(alloc: Global, said: &Result<Row, Rejected>) -> Result<Option<RecordName>, AllocError>
    ensures { IfOk result (λ name. name ≡ name_in said.now) }
{
    match said {
        Ok(row) => Ok(Some(row.record_name(alloc)?)),
        Err(rejected) => rejected.name.clone(),
    }
}

/// Counts one more of this name, and returns how many there are.
fn count_one(
    counts: &mut BTreeMap<RecordName, usize>,
    name: RecordName,
) -> Result<usize, AllocError>
    requires { count_in counts.old name < 2 ^ 63 }
    ensures updates { OnOk result
        (Updates name_cmp counts.old counts.new name (Some (count_in counts.old name + 1))) }
    ensures count { IfOk result (λ count. count ≡ count_in counts.old name + 1) }
{
    let count = counts.entry(name)?.or_insert(0);
    *count += 1;
    Ok(*count)
}

impl Tally {
    /// Counts one more record of this name.
    fn add(&mut self, name: RecordName) -> Result<(), AllocError>
        requires { counts self.old name < 2 ^ 63 }
        ensures counts { OnOk result ((other : Name) → counts self.new other
            ≡ mentioned_more (counts self.old) name other) }
        ensures repeats { OnOk result (KnowsRepeats self.old → KnowsRepeats self.new) }
    {
        if count_one(&mut self.counts, name)? > 1 {
            self.has_repeats = true;
        }
        Ok(())
    }

    /// How many of these records have each name.
    pub(crate) fn of(alloc: Global, records: &[Result<Row, Rejected>]) -> Result<Tally, AllocError>
        ensures counts { IfOk result (λ tally. (name : Name) → counts tally name
            ≡ mentions_in records.now name) }
        ensures repeats { IfOk result KnowsRepeats }
    {
        let mut tally = Tally {
            counts: BTreeMap::new(alloc),
            has_repeats: false,
        };
        for said in records {
            if let Some(name) = name_in(alloc, said)? {
                tally.add(name)?;
            }
        }
        Ok(tally)
    }

    /// How many records have this name.
    pub(crate) fn count(&self, name: &RecordName) -> usize
        ensures { result ≡ counts self.now name.now }
    {
        self.counts.get(name).copied().unwrap_or(0)
    }

    /// Whether several records have this name. If no name is repeated, it isn't looked up.
    pub(crate) fn is_repeated(&self, name: &RecordName) -> bool
        requires { KnowsRepeats self.now }
        ensures { result ≡ nat_lt 1 (counts self.now name.now) }
    {
        self.has_repeats && self.count(name) > 1
    }
}
