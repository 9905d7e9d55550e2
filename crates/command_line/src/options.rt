//! The commands and their options, for the library that reads command lines; it prints help and refusals by them.

use clap::builder::ValueParser;
use clap::{Arg, ArgAction, Command};
use command_table::{DeclaredOption, SUBCOMMANDS, Subcommand, Value, help};
use std::alloc::{AllocError, Global};

/// The program for a command line of these words, whose first is its name. Where the second names a command, that command
/// is alone: no other can follow it, and nothing that is printed of it shows the others. Else all of them are there; by their
/// names alone where the second word is refused, for no option of theirs is looked at then.
pub fn command_line<'a>(alloc: Global, words: &[&str]) -> Result<Command<'a>, AllocError> {
    match words {
        [_, word, ..] => match Subcommand::named(word) {
            Some(called) => program_of(alloc, &[called]),
            None if is_refused(word) => names_alone(alloc),
            None => program_of(alloc, &SUBCOMMANDS),
        },
        _ => program_of(alloc, &SUBCOMMANDS),
    }
}

/// Whether a word that names no command is refused as such: it is no option, and asks for no help.
fn is_refused(word: &str) -> bool {
    word != "help" && !word.starts_with('-')
}

/// The program without commands.
fn program<'a>(alloc: Global) -> Command<'a> {
    Command::new(alloc, "tso")
        .version("2.0.1")
        .about("Runs x86 litmus tests on a simulated multiprocessor under total store order (TSO)")
        .after_help(help::TSO)
        .subcommand_required(true)
}

/// The program with the names of all commands.
fn names_alone<'a>(alloc: Global) -> Result<Command<'a>, AllocError> {
    let mut program = program(alloc);
    for declared in &SUBCOMMANDS {
        program = program.subcommand(Command::new(alloc, declared.name()))?;
    }
    Ok(program)
}

/// The program with these commands.
fn program_of<'a>(alloc: Global, commands: &[Subcommand]) -> Result<Command<'a>, AllocError> {
    let mut program = program(alloc);
    for declared in commands {
        program = program.subcommand(command_of(alloc, *declared)?)?;
    }
    Ok(program)
}

fn command_of<'a>(alloc: Global, subcommand: Subcommand) -> Result<Command<'a>, AllocError> {
    let mut command = Command::new(alloc, subcommand.name())
        .about(subcommand.about())
        .after_help(subcommand.help());
    for option in subcommand
        .options()
        .iter()
        .chain(subcommand.further_options())
    {
        let mut declared = option_of(alloc, option);
        if let Value::Flag(others) = option.value
            && !others.is_empty()
        {
            declared = declared.conflicts_with_all(others)?;
        }
        command = command.arg(declared)?;
    }
    Ok(command)
}

fn option_of<'a>(alloc: Global, declared: &'static DeclaredOption) -> Arg<'a> {
    let option = Arg::new(alloc, declared.name)
        .long(declared.name)
        .help(declared.help);
    match declared.value {
        Value::Flag(_) => option.action(ArgAction::SetTrue),
        Value::Number(least, most, default) => option
            .value_name("N")
            .value_parser(ValueParser::Signed(least, most))
            .default_value(default),
        Value::Named(value, names, default) => option
            .value_name(value)
            .value_parser(ValueParser::Names(names))
            .default_value(default),
    }
}
