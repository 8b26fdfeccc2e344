//! What a world shows of its messages and records.
ghost use Rattle.std.specs.Prelude.{◌≡◌, IfErr, IfOk, OnOk, true};
ghost use Rattle.std.specs.Option.{option_copied, option_map};
ghost use Rattle.world_sim.specs.Messages.{text_at, texts_of};
ghost use Rattle.world_sim.specs.Running.{is_open, names_in};
ghost use Rattle.world_sim.specs.Views.{IsBlind, IsNoName, Looks, Shows, ShowsMessage, viewed};

use crate::messages::sent_at;
use crate::reports::WorldFault;
use crate::sides::Side;
use crate::worlds::World;
use journal_core::{Journal, kind_word};
use provider_core::Registry;
use scim_key::{Kind, RecordName, Revision};
use scim_resource::Stored;
use std::fmt;

/// What is wanted, confirmed and held for a record.
#[derive(Drop)]
pub struct View {
    pub name: RecordName,
    /// The revision of the last row, or none if the source gave no row.
    pub wanted: Revision,
    /// The highest revision that the connector counts as confirmed, or none.
    pub confirmed: Revision,
    /// The revision of what the provider holds, or none.
    pub held: Revision,
    /// The version of what the provider holds; 0 if it holds nothing.
    pub version: u64,
    /// Whether the user that the provider holds is active.
    pub active: Option<bool>,
    /// The number of members of the group that the provider holds.
    pub members: usize,
}

/// The end of a view's line.
#[derive(Clone, Copy)]
struct Held {
    kind: Kind,
    active: Option<bool>,
    members: usize,
}

impl fmt::Display for Held {
    ghost use Rattle.std.specs.Prelude.{Some};
    ghost use Rattle.world_sim.specs.Lines.{held_text};

    ghost output = { λ held. Some (held_text held.kind held.active held.members) };

    fn fmt<W: fmt::Write>(&self, f: &mut fmt::Formatter<W>) -> fmt::Result {
        match (self.kind, self.active) {
            (Kind::Group, _) => write!(f, "members={}", self.members),
            (Kind::User, Some(active)) => write!(f, "active={active}"),
            (Kind::User, None) => write!(f, "active=-"),
        }
    }
}

/// What the provider holds of a record, in the line of a view.
#[derive(Clone, Copy)]
struct Holding<'a> {
    view: &'a View,
}

impl fmt::Display for Holding<'_> {
    ghost use Rattle.std.specs.Prelude.{Some};
    ghost use Rattle.world_sim.specs.Lines.{holding_text};

    ghost output = { λ holding. Some (holding_text holding.view.now) };

    fn fmt<W: fmt::Write>(&self, f: &mut fmt::Formatter<W>) -> fmt::Result {
        let (held, version) = (self.view.held, self.view.version);
        let end = Held {
            kind: self.view.name.kind,
            active: self.view.active,
            members: self.view.members,
        };
        write!(f, "held={held} version={version} {end}")
    }
}

impl fmt::Display for View {
    ghost use Rattle.std.specs.Prelude.{Some};
    ghost use Rattle.world_sim.specs.Lines.{view_text};

    ghost output = { λ view. Some (view_text view) };

    /// A line: `user bob wanted=2 confirmed=1 held=1 version=1 active=true`.
    fn fmt<W: fmt::Write>(&self, f: &mut fmt::Formatter<W>) -> fmt::Result {
        let (kind, key) = (kind_word(self.name.kind), self.name.key.as_str());
        let (wanted, confirmed) = (self.wanted, self.confirmed);
        let holding = Holding { view: self };
        write!(
            f,
            "{kind} {key} wanted={wanted} confirmed={confirmed} {holding}"
        )
    }
}

/// What the provider holds of a record that isn't ours.
#[derive(Clone, Copy)]
pub(crate) struct OthersRecord<'a> {
    view: &'a View,
}

impl fmt::Display for OthersRecord<'_> {
    ghost use Rattle.std.specs.Prelude.{Some};
    ghost use Rattle.world_sim.specs.Lines.{others_text};

    ghost output = { λ shown. Some (others_text shown.view.now) };

    /// A line: `other user dee held=1 version=2 active=true`.
    fn fmt<W: fmt::Write>(&self, f: &mut fmt::Formatter<W>) -> fmt::Result {
        let (kind, key) = (kind_word(self.view.name.kind), self.view.name.key.as_str());
        let holding = Holding { view: self.view };
        write!(f, "other {kind} {key} {holding}")
    }
}

impl View {
    /// What the provider holds, as the line of a record that isn't ours.
    pub(crate) fn of_others(&self) -> OthersRecord<'_>
        ensures { result.view.now ≡ self.now }
    {
        OthersRecord { view: self }
    }

    /// The view of a record with these revisions, and with the provider's row of it, if there is one.
    pub fn of(name: RecordName, wanted: Revision, confirmed: Revision, row: Option<&Stored>) -> View
        ensures { result ≡ viewed name wanted confirmed (option_copied row.entry) }
    {
        match row {
            Some(row) => View {
                name,
                wanted,
                confirmed,
                held: row.content().revision().unwrap_or(Revision::none()),
                version: row.version(),
                active: row.content().active(),
                members: row.content().members().len(),
            },
            None => View {
                name,
                wanted,
                confirmed,
                held: Revision::none(),
                version: 0,
                active: None,
                members: 0,
            },
        }
    }
}

impl<R: Registry + Drop, J: Journal + Drop> World<R, J> {
    /// The bytes of the message with this number. Requests and answers are counted from 1 in the order in
    /// which they were sent.
    pub fn message(&self, number: usize) -> Option<&[u8]>
        ensures bytes { option_map (λ bytes. bytes.now) result
            ≡ text_at (texts_of self.now.sent.items) number }
        ensures shows { ShowsMessage R.Registry J.Journal self.now number
            (option_map (λ bytes. bytes.now) result) }
    {
        match sent_at(&self.sent, number) {
            Some(sent) => Some(sent.bytes.as_slice()),
            None => None,
        }
    }

    /// The names of the connector's records: users by key, then groups by key.
    pub fn names(&self) -> Result<Vec<RecordName>, WorldFault>
        ensures names { IfOk result (λ names. names.items ≡ names_in J.Journal self.now.connector) }
        ensures open { OnOk result (is_open self.now.connector ≡ true) }
        ensures cause { IfErr result (IsNoName self.now.connector) }
    {
        match &self.connector {
            Side::Open(connector) => Ok(connector.names()?),
            Side::Shut(_) => Err(WorldFault::Store),
        }
    }

    /// What is wanted, confirmed and held for a record.
    pub fn view(&mut self, name: &RecordName) -> Result<View, WorldFault>
        ensures shows { IfOk result (Shows R.Registry J.Journal self.old self.new name.now) }
        ensures looks { Looks R.Registry J.Journal self.old self.new }
        ensures cause { IfErr result (IsBlind R.Registry self.old self.new) }
    {
        let Side::Open(connector) = &self.connector else {
            return Err(WorldFault::Store);
        };
        if !self.is_provider_open {
            return Err(WorldFault::Store);
        }
        let wanted = connector.wanted(name);
        let confirmed = connector.confirmed(name);
        let copy = name.clone()?;
        let row = self.provider.row_of(name)?;
        Ok(View::of(copy, wanted, confirmed, row.as_ref()))
    }
}
