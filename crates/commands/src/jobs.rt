//! What `push` and `loop` carry.
ghost use Rattle.std.specs.Prelude.{◌≡◌, None};
ghost use Rattle.clap.specs.Matches.{found_of};
ghost use Rattle.provisioning.specs.Today.{numbering_in};
ghost use Rattle.commands.specs.Running.{GivesJob, ReadsFiles, ReadsJob, numbering_of};

use crate::layouts::layouts;
use crate::status::CommandFault;
use crate::words::{groups, service, users};
use clap::ArgMatches;
use connector_core::Connector;
use journal_core::{Journal, MemoryJournal};
use provisioning::{Layouts, ReadFiles, Sources, Today, read_sources};
use scim_client::ScimService;
use std::alloc::Global;
use std::io::Eprint;
use std::rt::Runtime;

/// The files of records, and the service that the records are carried to.
#[derive(Drop)]
pub struct Job<'a> {
    pub users: &'a str,
    pub groups: Option<&'a str>,
    pub service: ScimService,
    /// How the files are laid out, if they are snapshots.
    pub layouts: Option<Layouts>,
}

impl<'a> Job<'a> {
    /// What the arguments of a command name.
    pub fn of(alloc: Global, words: &ArgMatches<'a>) -> Result<Self, CommandFault>
        ensures { GivesJob (found_of words.now) result }
    {
        Ok(Job {
            users: users(words)?,
            groups: groups(words),
            service: service(alloc, words)?,
            layouts: layouts(alloc, words)?,
        })
    }

    /// What numbers the files, if they are snapshots: this connector.
    fn today<'b, J: Journal>(&'b self, connector: &'b Connector<J>) -> Option<Today<'b, J>>
        ensures { numbering_in result ≡ numbering_of self.now connector.now.book }
    {
        match &self.layouts {
            Some(layouts) => Some(Today { layouts, connector }),
            None => None,
        }
    }

    /// Reads the records of the files: of snapshots, if something numbers them.
    pub fn read<R: ReadFiles + Eprint + AllocGlobal, J: Journal>(
        &self,
        rt: &R,
        today: Option<Today<'_, J>>,
    ) -> Result<Sources, CommandFault>
        ensures { ReadsJob R.gives rt.now (numbering_in today.entry) self.now result }
    {
        Ok(read_sources(rt, self.users, self.groups, today)?)
    }

    /// Reads the records of the system's files of revisions. No contract says what is in these.
    pub(crate) fn read_files<R: Runtime + AllocGlobal>(
        &self,
        rt: &R,
    ) -> Result<Sources, CommandFault>
        ensures { ReadsFiles None self.now result }
    {
        let today: Option<Today<'_, MemoryJournal>> = None;
        self.read(rt, today)
    }

    /// The same of snapshots, if the files are some: this connector numbers them.
    pub(crate) fn read_over<R: Runtime + AllocGlobal, J: Journal>(
        &self,
        rt: &R,
        connector: &Connector<J>,
    ) -> Result<Sources, CommandFault>
        ensures { ReadsFiles (numbering_of self.now connector.now.book) self.now result }
    {
        self.read(rt, self.today(connector))
    }
}
