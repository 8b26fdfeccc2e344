//! The commands and their options.

/// The base of a service if the arguments have none.
pub const DEFAULT_BASE: &str = "http://localhost:8080/v2";

/// A command.
#[derive(Clone, Copy)]
pub(crate) struct CommandText {
    pub(crate) name: &'static str,
    pub(crate) about: &'static str,
    pub(crate) options: &'static [OptionText],
}

/// An option of a command, or an argument that has only a place.
#[derive(Clone, Copy)]
pub(crate) struct OptionText {
    pub(crate) name: &'static str,
    pub(crate) value: Value,
    pub(crate) rule: Rule,
    pub(crate) help: Help,
}

/// When an option may be left out.
#[derive(Clone, Copy)]
pub(crate) enum Rule {
    Required,
    Optional,
    /// It is required unless this one is there.
    Unless(&'static str),
    /// It can't stand beside this one.
    Without(&'static str),
    /// It can stand only beside this one.
    With(&'static str),
}

/// What an option takes.
#[derive(Clone, Copy)]
pub(crate) enum Value {
    /// An argument without the option's name.
    Place,
    /// The same, as often as wanted, which the help calls so.
    Places(&'static str),
    /// A text, which the help calls so.
    Text(&'static str),
    /// The same, as often as wanted.
    Texts(&'static str),
    /// The base of a service.
    Base,
    /// A whole number of at most 32 bits.
    Count,
    /// A whole number of at most 64 bits.
    Seed,
    /// Nothing.
    Nothing,
}

/// What the help says of an option.
#[derive(Clone, Copy)]
pub(crate) enum Help {
    Text(&'static str),
    /// How many random events there may be.
    OfEvents,
}

const BASE: OptionText = OptionText {
    name: "base",
    value: Value::Base,
    rule: Rule::Optional,
    help: Help::Text("the base of the service: http://HOST/v2"),
};

const STORE: OptionText = OptionText {
    name: "store",
    value: Value::Text("FILE"),
    rule: Rule::Optional,
    help: Help::Text("the file of the provider's rows, made where it isn't there"),
};

const JOURNAL: OptionText = OptionText {
    name: "journal",
    value: Value::Text("FILE"),
    rule: Rule::Optional,
    help: Help::Text("the file of the connector's journal, made where it isn't there"),
};

const WANTED_JOURNAL: OptionText = OptionText {
    rule: Rule::Required,
    ..JOURNAL
};

const JOURNAL_THERE: OptionText = OptionText {
    help: Help::Text("the file of the connector's journal, which must be there"),
    ..WANTED_JOURNAL
};

const USERS: OptionText = OptionText {
    name: "users",
    value: Value::Text("FILE"),
    rule: Rule::Required,
    help: Help::Text(
        "the file of users: login,revision,number,given,family,mail,status[,department]",
    ),
};

const GROUPS: OptionText = OptionText {
    name: "groups",
    value: Value::Text("FILE"),
    rule: Rule::Optional,
    help: Help::Text("the file of groups: name,revision,members"),
};

const TO: OptionText = OptionText {
    name: "to",
    value: Value::Text("HOST:PORT"),
    rule: Rule::Unless("plan"),
    help: Help::Text("the provider's address"),
};

const PATH: OptionText = OptionText {
    name: "path",
    value: Value::Text("PATH"),
    rule: Rule::Optional,
    help: Help::Text("the path of the provider's service, in place of /v2"),
};

const QUIET: OptionText = OptionText {
    name: "quiet",
    value: Value::Nothing,
    rule: Rule::Without("plan"),
    help: Help::Text("prints only records that aren't confirmed, and counts"),
};

const STREAMS: OptionText = OptionText {
    name: "streams",
    value: Value::Count,
    rule: Rule::Without("plan"),
    help: Help::Text("how many records are under way at once, one by default"),
};

const PROVIDER_KEEPS: OptionText = OptionText {
    name: "provider-keeps",
    value: Value::Text("WHAT"),
    rule: Rule::Optional,
    help: Help::Text(
        "what the provider keeps of what it is sent: revisions, versions alone, or nothing",
    ),
};

pub(crate) static COMMANDS: &[CommandText] = &[
    CommandText {
        name: "answer",
        about: "answers one HTTP request from standard input on standard output",
        options: &[BASE, STORE],
    },
    CommandText {
        name: "check",
        about: "reads each record of a journal back from the provider at an address, and prints what differs",
        options: &[
            JOURNAL_THERE,
            OptionText {
                rule: Rule::Required,
                ..TO
            },
            OptionText {
                rule: Rule::Optional,
                ..USERS
            },
            OptionText {
                rule: Rule::With("users"),
                ..GROUPS
            },
            BASE,
            PATH,
            OptionText {
                help: Help::Text(
                    "prints only accounts that are active and shouldn't be, or the other way round",
                ),
                rule: Rule::Optional,
                ..QUIET
            },
            OptionText {
                rule: Rule::Optional,
                ..STREAMS
            },
            PROVIDER_KEEPS,
        ],
    },
    CommandText {
        name: "loop",
        about: "carries the records of files to a provider in the same program, over TCP, and prints how each stands",
        options: &[USERS, GROUPS, BASE, STORE, JOURNAL],
    },
    CommandText {
        name: "map",
        about: "prints the SCIM user that each row of a users file asks for, a line each",
        options: &[OptionText {
            name: "FILE",
            value: Value::Place,
            rule: Rule::Required,
            help: Help::Text(
                "a users file: login,revision,number,given,family,mail,status[,department]",
            ),
        }],
    },
    CommandText {
        name: "push",
        about: "carries the records of files to the provider at an address, and prints how each stands",
        options: &[
            USERS,
            GROUPS,
            WANTED_JOURNAL,
            TO,
            BASE,
            PATH,
            OptionText {
                name: "snapshot",
                value: Value::Nothing,
                rule: Rule::With("most-leavers"),
                help: Help::Text(
                    "the files say all that holds today, without revisions: who is absent left",
                ),
            },
            OptionText {
                name: "column",
                value: Value::Texts("OURS=THEIRS"),
                rule: Rule::With("snapshot"),
                help: Help::Text(
                    "the name of our column in the header of a snapshot, as mail=E-Mail",
                ),
            },
            OptionText {
                name: "separator",
                value: Value::Text("NAME"),
                rule: Rule::With("snapshot"),
                help: Help::Text(
                    "what separates the fields of a snapshot: comma, semicolon or tab",
                ),
            },
            OptionText {
                name: "plan",
                value: Value::Nothing,
                rule: Rule::Optional,
                help: Help::Text("prints what would be asked for, and does nothing"),
            },
            OptionText {
                name: "recheck",
                value: Value::Nothing,
                rule: Rule::Without("plan"),
                help: Help::Text(
                    "first compares what is confirmed with what the provider has, and puts right what differs",
                ),
            },
            OptionText {
                name: "most-leavers",
                value: Value::Count,
                rule: Rule::Optional,
                help: Help::Text("does nothing if more users than this would be switched off"),
            },
            QUIET,
            STREAMS,
            OptionText {
                name: "leavers-first",
                value: Value::Nothing,
                rule: Rule::Without("plan"),
                help: Help::Text("carries users who left before the others"),
            },
            OptionText {
                name: "give-up-after",
                value: Value::Count,
                rule: Rule::Without("plan"),
                help: Help::Text(
                    "ends if as many records in a row fail alike, 10 by default, 0 for never",
                ),
            },
            OptionText {
                rule: Rule::Without("plan"),
                ..PROVIDER_KEEPS
            },
            OptionText {
                name: "settle-time",
                value: Value::Count,
                rule: Rule::Without("plan"),
                help: Help::Text(
                    "for how many seconds a request may be under way, 60 by default, where nothing is kept",
                ),
            },
        ],
    },
    CommandText {
        name: "reset",
        about: "forgets what the provider has shown, so that the next push asks about each record, and prints how many records had an id or a confirmed revision",
        options: &[
            JOURNAL_THERE,
            OptionText {
                name: "record",
                value: Value::Places("RECORD"),
                rule: Rule::Optional,
                help: Help::Text(
                    "a record to reset, user:LOGIN or group:NAME; without any, all records",
                ),
            },
        ],
    },
    CommandText {
        name: "serve",
        about: "answers HTTP requests to an address, one after another",
        options: &[
            OptionText {
                name: "listen",
                value: Value::Text("ADDR"),
                rule: Rule::Required,
                help: Help::Text(
                    "the address to listen on: HOST:PORT, where port 0 takes a free one",
                ),
            },
            OptionText {
                name: "requests",
                value: Value::Count,
                rule: Rule::Optional,
                help: Help::Text(
                    "how many requests to answer; without it, scimlink serves until it is ended",
                ),
            },
            OptionText {
                name: "longest-search",
                value: Value::Count,
                rule: Rule::Optional,
                help: Help::Text("how many seconds a search may take before it is stopped"),
            },
            BASE,
            STORE,
        ],
    },
    CommandText {
        name: "show",
        about: "prints the rows of a provider's store, or the entries of a connector's journal, a line each",
        options: &[STORE, JOURNAL],
    },
    CommandText {
        name: "simulate",
        about: "runs events over both sides in memory: each event's report, then each record",
        options: &[
            OptionText {
                name: "FILE",
                value: Value::Place,
                rule: Rule::Optional,
                help: Help::Text(
                    "a schedule: an event a line, as `user bob,1,,,,,active`, `send user bob` or `deliver 1`",
                ),
            },
            OptionText {
                name: "seed",
                value: Value::Seed,
                rule: Rule::Optional,
                help: Help::Text("the seed of random events, in place of a schedule"),
            },
            OptionText {
                name: "events",
                value: Value::Count,
                rule: Rule::Optional,
                help: Help::OfEvents,
            },
            OptionText {
                name: "connectors",
                value: Value::Count,
                rule: Rule::Optional,
                help: Help::Text("how many connectors share the provider, 1 to 100, with a seed"),
            },
            OptionText {
                name: "any-start",
                value: Value::Nothing,
                rule: Rule::Optional,
                help: Help::Text(
                    "the provider holds random records before the first event, with a seed",
                ),
            },
            OptionText {
                name: "settle",
                value: Value::Nothing,
                rule: Rule::Optional,
                help: Help::Text(
                    "then exchanges in which nothing is lost, until every record is confirmed",
                ),
            },
        ],
    },
];
