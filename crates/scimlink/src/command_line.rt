//! The program's arguments, as clap takes them.
use crate::options::{COMMANDS, CommandText, DEFAULT_BASE, Help, OptionText, Rule, Value};
use clap::builder::ValueParser;
use clap::{Arg, ArgAction, Command, value_parser};
use commands::simulating::{DEFAULT_EVENTS, MOST_EVENTS};
use std::alloc::{AllocError, Global};

/// The program's arguments. They borrow the help of `events`, which has numbers in it.
pub fn program<'a>(alloc: Global, events_help: &'a str) -> Result<Command<'a>, AllocError> {
    let mut program = without_commands(alloc);
    for text in COMMANDS {
        program = with_command(program, alloc, *text, events_help)?;
    }
    Ok(program)
}

fn without_commands<'a>(alloc: Global) -> Command<'a> {
    Command::new(alloc, "scimlink")
        .version("0.1.0")
        .about("SCIM 2.0 provisioning, proved")
        .subcommand_required(true)
}

fn with_command<'a>(
    program: Command<'a>,
    alloc: Global,
    text: CommandText,
    events_help: &'a str,
) -> Result<Command<'a>, AllocError> {
    program.subcommand(command_of(alloc, text, events_help)?)
}

fn command_of<'a>(
    alloc: Global,
    text: CommandText,
    events_help: &'a str,
) -> Result<Command<'a>, AllocError> {
    let mut command = Command::new(alloc, text.name).about(text.about);
    for option in text.options {
        command = command.arg(arg_of(alloc, *option, events_help)?)?;
    }
    Ok(command)
}

fn arg_of<'a>(
    alloc: Global,
    option: OptionText,
    events_help: &'a str,
) -> Result<Arg<'a>, AllocError> {
    let arg = Arg::new(alloc, option.name)
        .help(help_of(option.help, events_help))
        .value_name(value_name(option))
        .value_parser(parser_of(option.value))
        .action(action_of(option.value))
        .default_values(default_of(option.value));
    ruled(taking(arg, option), option.rule)
}

/// The argument, with the rule of when it may be left out.
fn ruled<'a>(arg: Arg<'a>, rule: Rule) -> Result<Arg<'a>, AllocError> {
    match rule {
        Rule::Required => Ok(arg.required(true)),
        Rule::Optional => Ok(arg),
        Rule::Unless(other) => arg.required_unless_present(other),
        Rule::Without(other) => arg.conflicts_with(other),
        Rule::With(other) => arg.requires_arg(other),
    }
}

fn help_of<'a>(help: Help, events_help: &'a str) -> &'a str {
    match help {
        Help::Text(text) => text,
        Help::OfEvents => events_help,
    }
}

/// The argument, with the option's name if it has one.
fn taking<'a>(arg: Arg<'a>, option: OptionText) -> Arg<'a> {
    match option.value {
        Value::Place | Value::Places(_) => arg,
        _ => arg.long(option.name),
    }
}

/// What the help calls the value.
fn value_name(option: OptionText) -> &'static str {
    match option.value {
        Value::Text(name) | Value::Texts(name) | Value::Places(name) => name,
        Value::Base => "URL",
        Value::Count => "N",
        Value::Seed => "S",
        Value::Place | Value::Nothing => option.name,
    }
}

/// How the value is read.
fn parser_of(value: Value) -> ValueParser<'static> {
    match value {
        Value::Place | Value::Places(_) | Value::Text(_) | Value::Texts(_) => ValueParser::String,
        Value::Base => ValueParser::String,
        Value::Count => value_parser!(u32),
        Value::Seed => value_parser!(u64),
        Value::Nothing => ValueParser::Bool,
    }
}

fn action_of(value: Value) -> ArgAction {
    match value {
        Value::Nothing => ArgAction::SetTrue,
        Value::Texts(_) | Value::Places(_) => ArgAction::Append,
        _ => ArgAction::Set,
    }
}

/// The value of an option that is left out.
fn default_of(value: Value) -> &'static [&'static str] {
    match value {
        Value::Base => &[DEFAULT_BASE],
        _ => &[],
    }
}

/// The help of `events`.
pub fn events_help(alloc: Global) -> Result<String, AllocError> {
    let (most, default) = (MOST_EVENTS, DEFAULT_EVENTS);
    format!(in alloc; "how many random events: 1 to {most}, {default} by default")
}
