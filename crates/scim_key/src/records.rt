//! Records: users and groups, as source and provider name them, by kind and key.
ghost use Rattle.std.specs.Prelude.{◌≡◌, ◌==◌, IfOk, refl};
ghost use lib.Pointwise.{pointwise};
ghost use Rattle.std.proofs.Common.{rules};
ghost use Rattle.std.specs.Cmp.{partial_equiv_from_equiv, partial_order_from_agreeing_total, partial_order_from_own_ties};
ghost use Rattle.std.specs.Cmp.Lexicographic.{slice_cmp};
ghost use Rattle.std.specs.Cmp.Rules.{comparing};
ghost use Rattle.std.specs.Ordering.{nat_cmp, as_partial_cmp};
ghost use Rattle.scim_key.specs.Names.{key_of, IsKey};
ghost use Rattle.scim_key.specs.RecordOrder.{names_equal, names_tie, names_total};
ghost use Rattle.scim_key.specs.Records.{name_cmp, same_name, NamesAreOrdered};

use std::alloc::{AllocError, Global};
use std::cmp::Ordering;
use std::marker::Model;

/// The two types of resource. Users come before groups.
#[derive(Clone, Copy, PartialEq, Eq, PartialOrd, Ord)]
pub enum Kind {
    User,
    Group,
}

/// The key of a name: its text with ASCII letters in lower case. Keys are ordered by their bytes.
#[derive(Debug, Drop)]
pub struct Key {
    text: String,
}

impl Model for Key {
    ghost use Rattle.std.specs.Prelude.{List, ℕ, string_bytes};
    ghost use Rattle.scim_key.specs.Names.{IsKey};

    ghost Value = { List ℕ };

    ghost view = { λ k. string_bytes k.text };

    ghost invariant = { λ k. IsKey (string_bytes k.text) };
}

impl Key {
    /// The key of a text.
    pub fn of(alloc: Global, text: &str) -> Result<Key, AllocError>
        ensures { IfOk result (λ key. key ≡ key_of text.now) }
    {
        let mut lowered = String::from_str(alloc, text)?;
        lowered.make_ascii_lowercase();
        Ok(Key { text: lowered })
    }

    /// The key's text.
    pub fn as_str(&self) -> &str
        ensures value { result.now ≡ self.now }
        ensures lawful { IsKey result.now }
    {
        self.text.as_str()
    }
}

impl Clone for Key {
    ghost is_clone = { λ k l. l ≡ k };

    fn clone(&self) -> Result<Key, AllocError> {
        Ok(Key {
            text: self.text.clone()?,
        })
    }
}

impl PartialEq for Key {
    ghost eq = { pointwise ◌==◌ };

    ghost laws = { Prim.search (comparing, rules) };

    fn eq(&self, other: &Key) -> bool {
        self.text.as_str() == other.text.as_str()
    }
}

impl Eq for Key {
    ghost laws = { Prim.search (comparing, rules) };
}

impl PartialOrd for Key {
    ghost partial_cmp = { as_partial_cmp (slice_cmp nat_cmp) };

    ghost laws = { partial_order_from_own_ties (Prim.search (comparing, rules))
        (Prim.search (comparing, rules)) };

    fn partial_cmp(&self, other: &Key) -> Option<Ordering> {
        Some(self.cmp(other))
    }
}

impl Ord for Key {
    ghost cmp = { slice_cmp nat_cmp };

    ghost total = { Prim.search (comparing, rules) };

    ghost matches_partial_cmp = { Prim.search (comparing, rules) };

    ghost matches_eq = { Prim.search (comparing, rules) };

    fn cmp(&self, other: &Key) -> Ordering {
        self.text.as_str().cmp(other.text.as_str())
    }
}

/// The name of a record, ordered by kind, then by key.
#[derive(Clone, Drop)]
pub struct RecordName {
    pub kind: Kind,
    pub key: Key,
}

impl PartialEq for RecordName {
    ghost eq = { same_name };

    ghost laws = { partial_equiv_from_equiv names_equal };

    fn eq(&self, other: &RecordName) -> bool {
        self.kind == other.kind && self.key == other.key
    }
}

impl Eq for RecordName {
    ghost laws = { names_equal };
}

impl PartialOrd for RecordName {
    ghost partial_cmp = { as_partial_cmp name_cmp };

    ghost laws = { partial_order_from_agreeing_total name_cmp names_total (λ a b. refl) names_tie };

    fn partial_cmp(&self, other: &RecordName) -> Option<Ordering> {
        Some(self.cmp(other))
    }
}

impl Ord for RecordName {
    ghost cmp = { name_cmp };

    ghost total = { names_total };

    ghost matches_partial_cmp = { λ a b. refl };

    ghost matches_eq = { names_tie };

    fn cmp(&self, other: &RecordName) -> Ordering {
        self.kind
            .cmp(&other.kind)
            .then_with(|| self.key.cmp(&other.key))
    }
}

/// The order of names is total, and only equal names compare as equal.
pub fn record_names_are_ordered()
    ensures { NamesAreOrdered }
{}
