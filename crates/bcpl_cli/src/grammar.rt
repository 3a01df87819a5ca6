//! Tables of commands and their arguments, and their translation for the argument parser.

use clap::{Arg, ArgAction, Command, value_parser};
use std::alloc::{AllocError, Global};

/// How an argument is written, with the name that help gives to its value. Options are written `--NAME`.
#[derive(Clone, Copy)]
pub enum Form {
    /// A positional argument.
    Word(&'static str),
    /// Positional arguments, at least this many.
    Words(&'static str, usize),
    /// An option without a value.
    Flag,
    /// An option with a value.
    Option(&'static str),
    /// An option with a value, and a one-letter form.
    Lettered(&'static str, char),
    /// An option with a value that may be repeated.
    Repeated(&'static str),
    /// Such an option with a one-letter form.
    LetteredRepeated(&'static str, char),
    /// An option with a number.
    Number(&'static str),
}

/// How an argument depends on others.
#[derive(Clone, Copy)]
pub enum Constraint {
    /// It is optional.
    Free,
    /// It is required.
    Required,
    /// It requires this argument, or one of this group.
    With(&'static str),
    /// It excludes all of these.
    Without(&'static [&'static str]),
    /// It belongs to this group, at most one of which may be given.
    OneOf(&'static str),
}

/// An argument or option of a command.
#[derive(Clone, Copy)]
pub struct Argument {
    /// The name under which it is read.
    pub name: &'static str,
    pub form: Form,
    pub constraint: Constraint,
    pub help: &'static str,
}

/// How the argument parser reads the numbers of options.
#[derive(Clone, Copy, PartialEq, Eq)]
pub enum Numbers {
    /// As decimal digits.
    Digits,
    /// As text, so that `number_of` can read them.
    Text,
}

/// A command.
#[derive(Clone, Copy)]
pub struct CommandSpec {
    pub name: &'static str,
    pub about: &'static str,
    /// The help after the list of arguments.
    pub more: &'static str,
    pub arguments: &'static [Argument],
}

/// An argument whose values accumulate.
fn appending<'a>(arg: Arg<'a>, value: &'a str) -> Arg<'a> {
    arg.value_name(value).action(ArgAction::Append)
}

/// An argument whose value is a number.
fn numeric<'a>(arg: Arg<'a>, value: &'a str, numbers: Numbers) -> Arg<'a> {
    let arg = arg.value_name(value);
    match numbers {
        Numbers::Digits => arg.value_parser(value_parser!(u64)),
        Numbers::Text => arg,
    }
}

/// Gives an argument its form.
fn with_form<'a>(form: Form, arg: Arg<'a>, numbers: Numbers) -> Arg<'a> {
    match form {
        Form::Word(value) | Form::Option(value) => arg.value_name(value),
        Form::Words(value, least) => appending(arg, value).num_args(least..),
        Form::Flag => arg.action(ArgAction::SetTrue),
        Form::Lettered(value, letter) => arg.value_name(value).short(letter),
        Form::Repeated(value) => appending(arg, value),
        Form::LetteredRepeated(value, letter) => appending(arg, value).short(letter),
        Form::Number(value) => numeric(arg, value, numbers),
    }
}

/// Whether an argument of this form is an option.
fn is_option(form: Form) -> bool {
    !matches!(form, Form::Word(_) | Form::Words(_, _))
}

/// An argument with its name and help.
fn new_arg<'a>(alloc: Global, argument: &Argument) -> Arg<'a> {
    let arg = Arg::new(alloc, argument.name).help(argument.help);
    if is_option(argument.form) {
        arg.long(argument.name)
    } else {
        arg
    }
}

/// Gives an argument its constraint.
fn with_constraint<'a>(constraint: Constraint, arg: Arg<'a>) -> Result<Arg<'a>, AllocError> {
    match constraint {
        Constraint::Free => Ok(arg),
        Constraint::Required => Ok(arg.required(true)),
        Constraint::With(other) => arg.requires_arg(other),
        Constraint::Without(others) => arg.conflicts_with_all(others),
        Constraint::OneOf(group) => arg.group(group),
    }
}

/// Translates an argument for the parser.
fn arg_of<'a>(alloc: Global, argument: &Argument, numbers: Numbers) -> Result<Arg<'a>, AllocError> {
    let arg = with_form(argument.form, new_arg(alloc, argument), numbers);
    with_constraint(argument.constraint, arg)
}

/// Translates a command for the parser.
fn command_of<'a>(
    alloc: Global,
    spec: &CommandSpec,
    numbers: Numbers,
) -> Result<Command<'a>, AllocError> {
    let mut args = Vec::new(alloc);
    for argument in spec.arguments {
        args.push(arg_of(alloc, argument, numbers)?)
            .map_err(AllocError::from)?;
    }
    Command::new(alloc, spec.name)
        .about(spec.about)
        .after_help(spec.more)
        .args(args)
}

/// Adds the commands to `program`. Fails only if an allocation fails.
pub fn with_commands<'a>(
    alloc: Global,
    program: Command<'a>,
    commands: &[CommandSpec],
    numbers: Numbers,
) -> Result<Command<'a>, AllocError> {
    let mut subcommands = Vec::new(alloc);
    for spec in commands {
        subcommands
            .push(command_of(alloc, spec, numbers)?)
            .map_err(AllocError::from)?;
    }
    program.subcommands(subcommands)
}
