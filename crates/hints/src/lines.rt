//! What is said of a command line that was refused: that a file is where a command belongs, that an option is another
//! command's, and the like. The commands and their options are those by which lines are read.

ghost use Rattle.std.specs.Prelude.{IfOk, IfSome, string_bytes};
ghost use Rattle.hints.specs.Hint.{IsHint};

use crate::line::{Filling, Line};
use crate::meant::{is_tool, meant_by};
use crate::printing::printed;
use crate::quotes::{after_byte, is_all_digits, is_choice, up_to};
use crate::tables::is_exactly_one_of;
use command_table::{SUBCOMMANDS, Subcommand, Value};
use std::alloc::Global;
use tso_terms::NoMemory;
use tso_terms::names::continues_name;

/// Maximum length of a file's name in a hint, in bytes.
const MAX_FILE: usize = 160;

/// The hint of a command line that was refused, by its words, the first of which is the program's name.
/// `None` where nothing more is known of it.
///
/// Errors: out of memory only.
pub fn line_hint(alloc: Global, words: &[&str]) -> Result<Option<String>, NoMemory>
    ensures { IfOk result (λ found. IfSome found (λ text. IsHint (string_bytes text))) }
{
    let mut line = Line::new();
    say_line(&mut line, words);
    if line.is_empty() {
        return Ok(None);
    }
    Ok(Some(printed(alloc, line.words())?))
}

/// Says what is known of a command line, if something is.
fn say_line(line: &mut Line, words: &[&str]) {
    let [_, name, words @ ..] = words else {
        return;
    };
    if words.contains(&"--help") || words.contains(&"-h") {
        return;
    }
    match Subcommand::named(name) {
        Some(command) => say_words(line, command, words),
        None => say_no_command(line, name),
    }
}

/// Of a word in the place of a command: it may be a file, an option, or a command in capitals.
fn say_no_command(line: &mut Line, name: &str) {
    let word = name.as_bytes();
    if is_exactly_one_of("help --help -h --version -V", word) {
        return;
    }
    for command in &SUBCOMMANDS {
        if command
            .name()
            .as_bytes()
            .eq_ignore_ascii_case(without_hyphens(word))
        {
            return line.say_with(
                if word.starts_with(b"-") {
                    "{}: a command has no hyphens: write tso {}"
                } else {
                    "{}: write {}, in small letters"
                },
                &[Filling::Named(word), Filling::Text(command.name())],
            );
        }
    }
    let sentence = if is_exactly_one_of("version -v --Version", word) {
        "the version is printed by tso --version"
    } else if is_tool(word) {
        "{} is a tool, a program of its own: tso-{} where it is installed"
    } else if word.starts_with(b"-") {
        "write a command before its options, as in tso run {} < FILE"
    } else if word.contains(&b'.') || word.contains(&b'/') {
        let file = [Filling::Text(shown_file(name))];
        return line.say_with(
            "write a command first; tso reads the test from standard input: tso run < {}",
            &file,
        );
    } else {
        "the commands are run, trace, sweep, counts, outcomes, why, check, witness and tables"
    };
    line.say_with(sentence, &[Filling::Shown(word), Filling::Shown(word)]);
}

/// Of the first word after a command that it hasn't, or of a value that no option lets pass.
fn say_words(line: &mut Line, command: Subcommand, words: &[&str]) {
    let mut before = "";
    for at in 0..words.len() {
        let word = words[at];
        if is_three(before, word) {
            line.say("--words is 1, 2 or 4");
        } else if takes_value(before.as_bytes()) {
            say_value(line, command, before.as_bytes(), word.as_bytes());
        } else if word.starts_with('-') {
            say_option(
                line,
                command,
                word,
                words.get(at + 1).copied().unwrap_or(""),
            );
        } else {
            say_operand(line, command, before, word);
        }
        if !line.is_empty() {
            return;
        }
        before = word;
    }
    say_excluded(line, command, words);
}

/// Of a flag and an option that can't stand beside it.
fn say_excluded<'a>(line: &mut Line, command: Subcommand, words: &[&'a str]) {
    for word in words {
        let flag = word.as_bytes();
        if let Some(declared) = command.option_named(flag)
            && let Value::Flag(others) = declared.value
            && let Some(other) = first_among(words, others)
        {
            return line.say_with(
                "{} is one run, of the choices after a line ====, and {} is of many: leave out one of the two",
                &[Filling::Shown(flag), Filling::Shown(other)],
            );
        }
    }
}

/// The first of the words that is one of these options, without a value that stands in it.
fn first_among<'a>(words: &[&'a str], names: &[&str]) -> Option<&'a [u8]> {
    for word in words {
        let option = up_to(word.as_bytes(), b'=');
        if let Some(name) = option.strip_prefix(b"--".as_slice())
            && is_among(names, name)
        {
            return Some(option);
        }
    }
    None
}

/// Whether a name is one of these, to the letter.
fn is_among(names: &[&str], name: &[u8]) -> bool {
    for one in names {
        if one.as_bytes() == name {
            return true;
        }
    }
    false
}

/// Of a value that isn't a number, where the option has one.
fn say_value<'a>(line: &mut Line, command: Subcommand, option: &'a [u8], value: &'a [u8]) {
    let digits = value
        .strip_prefix(b"-")
        .or(value.strip_prefix(b"+"))
        .unwrap_or(value);
    if is_all_digits(digits) || value.starts_with(b"--") {
        return;
    }
    if let Some(declared) = command.option_named(option)
        && let Value::Number(least, most, _) = declared.value
    {
        line.say_with(
            "{} is no number: {} is one from {} to {}",
            &[
                Filling::Named(value),
                Filling::Shown(option),
                Filling::Number(not_negative(least)),
                Filling::Number(not_negative(most)),
            ],
        );
    }
}

fn not_negative(number: i64) -> usize {
    if number > 0 { number as usize } else { 0 }
}

/// Whether a word says that lines have three words.
fn is_three(before: &str, word: &str) -> bool {
    word == "--words=3" || (before == "--words" && word == "3")
}

/// Of an option, which the next word comes after.
fn say_option<'a>(line: &mut Line, command: Subcommand, word: &'a str, next: &'a str) {
    let bytes = word.as_bytes();
    let option = up_to(bytes, b'=');
    if let Some(declared) = command.option_named(option) {
        if matches!(declared.value, Value::Flag(_)) && bytes.contains(&b'=') {
            line.say_with(
                "{} takes no value: leave out what stands after it",
                &[Filling::Shown(option)],
            );
        } else if bytes.contains(&b'=') {
            say_value(line, command, option, after_byte(bytes, b'='));
        }
        return;
    }
    if let Some(sentence) = meant_by(command.name().as_bytes(), option) {
        return line.say_with(
            sentence,
            &[Filling::Shown(option), Filling::Text(shown_file(next))],
        );
    }
    say_owners(line, option);
    if line.is_empty() {
        say_hyphens(line, option);
    }
    if line.is_empty() {
        line.say_with(
            "{} is no option of {}: tso {} --help lists its options",
            &[
                Filling::Shown(option),
                Filling::Text(command.name()),
                Filling::Text(command.name()),
            ],
        );
    }
}

/// Of a word after a command that is no option's value, nor begins with a hyphen: of a flag's value, an option without its
/// hyphens, choices, or a file.
fn say_operand<'a>(line: &mut Line, command: Subcommand, before: &'a str, word: &'a str) {
    let bytes = word.as_bytes();
    let is_file = bytes.contains(&b'.') || bytes.contains(&b'/');
    say_hyphens(line, up_to(bytes, b'='));
    if !line.is_empty() {
        return;
    }
    if !is_file && command.option_named(before.as_bytes()).is_some() {
        line.say_with(
            "{} takes no value: leave out {}",
            &[Filling::Text(before), Filling::Shown(bytes)],
        );
    } else if is_exactly_one_of("help", bytes) {
        line.say("write tso ");
        line.say(command.name());
        line.say(" --help");
    } else if matches!(command, Subcommand::Tables) {
        line.say("tables reads no input: tso tables --protocol mesi");
    } else if is_choice(bytes) {
        line.say_with(
            "{}: choices stand in the input, after the test and a line ====",
            &[Filling::Shown(bytes)],
        );
    } else if !is_file {
        line.say_with(
            "{} stands after no option: an option has two hyphens, and a test is read from standard input: tso {} < FILE",
            &[Filling::Shown(bytes), Filling::Text(command.name())],
        );
    } else {
        line.say_with(
            "tso reads standard input, so don't name a file without <: tso {} < {}",
            &[
                Filling::Text(command.name()),
                Filling::Text(shown_file(word)),
            ],
        );
    }
}

/// Of an option of some command with another number of hyphens than two, with dashes, or in capitals.
fn say_hyphens(line: &mut Line, option: &[u8]) {
    let name = without_hyphens(option);
    let shown = if option.starts_with(b"\xe2") {
        name
    } else {
        option
    };
    for command in &SUBCOMMANDS {
        for options in &[command.options(), command.further_options()] {
            for declared in *options {
                if declared.name.as_bytes().eq_ignore_ascii_case(name) && line.is_empty() {
                    line.say_with(
                        "{}: an option is written in small letters after two hyphens: --{}",
                        &[Filling::Shown(shown), Filling::Text(declared.name)],
                    );
                }
            }
        }
    }
}

/// An option's name without the hyphens or the dash before it.
fn without_hyphens(option: &[u8]) -> &[u8] {
    for dash in &[
        b"---".as_slice(),
        b"--",
        b"-",
        b"\xe2\x80\x93",
        b"\xe2\x80\x94",
        b"\xe2\x88\x92",
    ] {
        if let Some(name) = option.strip_prefix(*dash) {
            return name;
        }
    }
    option
}

/// Of an option that other commands have, if any has it.
fn say_owners(line: &mut Line, option: &[u8]) {
    let mut owners = 0usize;
    for command in &SUBCOMMANDS {
        if command.option_named(option).is_some() {
            owners = owners.saturating_add(1);
        }
    }
    let mut left = owners;
    for command in &SUBCOMMANDS {
        if command.option_named(option).is_some() {
            if left == owners {
                line.say_with("{} is an option of ", &[Filling::Shown(option)]);
            }
            left = left.saturating_sub(1);
            line.say(command.name());
            line.say(match left {
                0 => "",
                1 => " and ",
                _ => ", ",
            });
        }
    }
}

/// Whether the word after this one is its value: it is an option, and no command has it as a flag.
fn takes_value(word: &[u8]) -> bool {
    if !word.starts_with(b"--") || word.contains(&b'=') {
        return false;
    }
    for command in &SUBCOMMANDS {
        if let Some(declared) = command.option_named(word) {
            return !matches!(declared.value, Value::Flag(_));
        }
    }
    true
}

/// A word as a hint names a file: the whole of it, or FILE where the line has no room for it, or a shell would read more
/// than a name in it.
fn shown_file(word: &str) -> &str {
    if word.is_empty() || word.len() > MAX_FILE || !is_plain(word.as_bytes()) {
        "FILE"
    } else {
        word
    }
}

fn is_plain(word: &[u8]) -> bool {
    for byte in word {
        if !continues_name(*byte) && !b"./+-,:@=%".contains(byte) {
            return false;
        }
    }
    true
}
