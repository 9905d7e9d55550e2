//! What a text is that begins no test: a list, a log, a command, a configuration, a listing, or a program in another language. It is told
//! by the first line that is no comment, and by words that only such texts have.

use crate::cycles::says_cycle;
use crate::heads::{DISASSEMBLY, said_of_line};
use crate::keywords::is_instruction;
use crate::line::{Filling, Line};
use crate::quotes::{
    after_byte, digits_and_letters, first_bytes, first_word, has, is_all_digits, is_bare,
    last_bytes, up_to,
};
use crate::signs::is_core;
use crate::tables::{Alike, is_exactly_one_of, is_one_of, said_of};
use tso_terms::names::continues_name;

/// Of a program in C with the macros of the Linux kernel.
pub const KERNEL: &str =
    "this is C with the kernel's macros, which no tool here reads: below lines X86 NAME, { } and P0 | P1 ; a store, as WRITE_ONCE or smp_store_release, is MOV [x],$1, a load MOV EAX,[x], smp_mb MFENCE";

const MODEL: &str =
    "this is a model in herd's language cat, and no test: tso has a model of its own, TSO, and --depth 0 for sequential consistency: give it a test, which begins with X86 and a name";

const REPORT: &str =
    "this is a report, and no test: give the test that it is about, which begins with X86 and a name";

const GRAPH: &str =
    "this is a graph for graphviz, and no test: give the test that it shows, which begins with X86 and a name";

const HERD: &str =
    "this is a configuration of herd7, and no test: tso needs none: give it a test, which begins with X86 and a name";

const SETTINGS: &str =
    "this is a configuration of litmus7, and no test: give tso a test, which begins with X86 and a name";

const DIFFERENCE: &str =
    "this is a difference of two files: give the test alone, which begins with X86 and a name";

const CONDITION: &str =
    "a condition alone is no test: above it write a line X86 NAME, a line { }, a row P0 | P1 ; and rows of instructions, as MOV [x],$1 | MOV [y],$1 ;";

/// Of a text of another kind, which is named.
const OTHER: &str =
    "this is {}, and no test: give tso the text of a test, which begins with X86 and a name";

const ASSEMBLY: &str =
    "this is an assembler's file, and no test: tools/compiled --object FILE.s P0 P1 reads it, with its jumps; or write a line X86 NAME, a line { }, and each core's instructions into a column below P0 | P1 ;";

const INSTRUCTIONS: &str =
    "instructions alone are no test: write a line X86 NAME, a line { }, and each core's instructions into a column below P0 | P1 ; those with jumps tools/compiled --object FILE.s P0 P1 reads";

const PAPER: &str =
    "this is a program as papers have it: write a line X86 NAME, a line { }, a row P0 | P1 ; and a column for each thread: a store x := 1 is MOV [x],$1, a load r := y MOV EAX,[y], a fence MFENCE";

const STATEMENT: &str =
    "this is assembly within C, and no test: write a line X86 NAME, a line { }, and each core's instructions, without \" \", into a column below P0 | P1 ;";

const SOURCE_IN_C: &str =
    "this is C: tools/compiled FILE.c reads it, with a function for each core: P0, P1 and so on; tso reads tests of X86 instructions";

const CPP: &str =
    "this is C++: tools/compiled --object FILE.o P0 P1 reads what g++ -c makes of it; or write a line X86 NAME, a line { }, and each thread's accesses as instructions into a column below P0 | P1 ;";

const PROGRAM: &str =
    "this is a program in a language that no tool here reads: write a line X86 NAME, a line { }, and each thread's accesses as instructions into a column below P0 | P1 ;";

const DATA: &str =
    "this is a test in another form, and no tool here reads it: write a line X86 NAME, a line { } with what locations begin with, and each thread's instructions into a column below P0 | P1 ;";

const RUST: &str =
    "this is Rust: tools/compiled --object FILE.o P0 P1 reads the object that rustc makes of it; or write a line X86 NAME, a line { }, and each thread's accesses as instructions into a column below P0 | P1 ;";

/// Words with which lines of reports begin.
const REPORTED: &str =
    "Test Histogram States State Observation Machine Order Outcomes Witnesses Positive: Hash Time \
     Condition Result: Results Registers Memory Verdict Verdict: Sweep Ok Generated #START ** *** \
     Relaxation";

/// Whether a line of a report begins with this word.
pub fn is_of_report(word: &[u8]) -> bool {
    is_one_of(REPORTED, word)
}

/// How many bytes of a text are looked through for assignments.
const HEAD: usize = 120;

/// Words with which programs in further languages begin.
const WORDS_OF_PROGRAMS: &str =
    "template package public private class import func def module main let open proctype active byte func fun \
     interface namespace using object val var export async from program procedure function @State \
     @JCStressTest";

/// Texts of other kinds, by the first word.
static KINDS: [Alike; 11] = [
    Alike(REPORTED, REPORT),
    Alike("diff --- +++ @@ Index:", DIFFERENCE),
    Alike(WORDS_OF_PROGRAMS, PROGRAM),
    Alike("digraph strict", GRAPH),
    Alike("model showevents squished graph doshow skipcheck", HERD),
    Alike("exists ~exists forall", CONDITION),
    Alike("asm __asm__ __asm", STATEMENT),
    Alike(
        "format entry section segment global globl bits use32 use64 default org title proc %define %macro \
         %include %use",
        ASSEMBLY,
    ),
    Alike(
        "size_of_test number_of_run avail stride affinity smt smt_mode ccopts launch crossrun",
        SETTINGS,
    ),
    Alike("Dump =>", DISASSEMBLY),
    Alike(
        "#include #define #pragma #if #ifdef #ifndef #undef int void static typedef struct \
         union const volatile unsigned long char bool inline atomic_int atomic_bool _Atomic",
        SOURCE_IN_C,
    ),
];

/// Says of a text that is no test what it is, if that is known. Whether it is.
pub fn says_kind(line: &mut Line, text: &[u8]) -> bool {
    let is_markdown = is_markdown(text);
    let text = after_comments(text);
    let head = up_to(text, b'\n').trim_ascii();
    if says_cycle(line, head) {
        return true;
    }
    let other = if is_markdown {
        Some("a text in Markdown")
    } else {
        kind_by_signs(text, head)
    };
    if let Some(kind) = other {
        line.say_with(OTHER, &[Filling::Text(kind)]);
        return true;
    }
    let said = said_of_line(text, head)
        .or(said_of_program(text))
        .or(said_of(&KINDS, first_name(head)))
        .or(said_of_instructions(text, head));
    match said {
        Some(said) => line.say(said),
        None => return false,
    }
    true
}

/// Whether a text is in Markdown: a heading begins it, and a further one or a text in a frame comes below.
fn is_markdown(text: &[u8]) -> bool {
    text.starts_with(b"# ") && (has(text, b"\n## ") || has(text, b"\n```"))
}

/// What a text is that isn't told by words, by its signs and its first line.
fn kind_by_signs(text: &[u8], head: &[u8]) -> Option<&'static str> {
    let next = after_byte(text, b'\n');
    if has(head, b"<svg") || (head.starts_with(b"<?xml") && has(text, b"<svg")) {
        Some("a picture in SVG")
    } else if is_json(text) {
        Some("JSON")
    } else if has_instructions(text) {
        None
    } else if has_recipe(text) {
        Some("a Makefile")
    } else if is_exactly_one_of("---", head) || has_keys(head, next) {
        Some("a file in YAML")
    } else {
        None
    }
}

/// Whether a text is JSON, but for a test in it.
fn is_json(text: &[u8]) -> bool {
    let inside = text.strip_prefix(b"[").unwrap_or(text).trim_ascii_start();
    match inside.strip_prefix(b"{") {
        Some(inside) => {
            inside.trim_ascii_start().starts_with(b"\"")
                && !has(text, b"\"threads\"")
                && !has(text, b"\"init\"")
        }
        None => false,
    }
}

/// Words with which a command of a Makefile begins.
const COMMANDS: &str =
    "@ rm cp mkdir cd echo make cc gcc g++ clang clang++ python python3 tar touch install";

/// Whether a text has a command of a Makefile, behind a tab.
fn has_recipe(text: &[u8]) -> bool {
    for row in text.split(|byte| *byte == b'\n') {
        let first = first_word(row);
        if row.starts_with(b"\t")
            && (first.starts_with(b"./")
                || first.starts_with(b"$(")
                || is_one_of(COMMANDS, first))
        {
            return true;
        }
    }
    false
}

/// Whether a text begins with two keys of a file in YAML, and has lines below a key.
fn has_keys(head: &[u8], next: &[u8]) -> bool {
    is_key(head)
        && is_key(up_to(next, b'\n').trim_ascii())
        && (has(next, b"\n  ") || has(next, b"\n- "))
}

/// Whether a line has a key and a colon, and behind it a space or nothing.
fn is_key(line: &[u8]) -> bool {
    let key = up_to(line, b':');
    let value = after_byte(line, b':');
    is_bare(key)
        && key.len() < line.len()
        && (value.is_empty() || value.starts_with(b" "))
        && !value.contains(&b'=')
        && !is_core(key)
}

/// What stands after lines of comments, as other languages have them, or all where nothing does.
fn after_comments(text: &[u8]) -> &[u8] {
    let mut rest = text.trim_ascii_start();
    for _ in 0..text.len() {
        if rest.starts_with(b"/*") {
            rest = after_comment(rest);
        } else if is_comment(rest) {
            rest = after_byte(rest, b'\n');
        } else {
            break;
        }
        rest = rest.trim_ascii_start();
    }
    if rest.is_empty() { text } else { rest }
}

/// What stands after the first `*/`, or nothing.
fn after_comment(text: &[u8]) -> &[u8] {
    for at in 0..text.len() {
        if text[at..].starts_with(b"*/") {
            return last_bytes(text, text.len().saturating_sub(at).saturating_sub(2));
        }
    }
    &[]
}

/// Whether a line with which a text begins is a comment: `#` begins words of C and of reports too.
fn is_comment(text: &[u8]) -> bool {
    let first = first_name(up_to(text, b'\n'));
    text.starts_with(b"//")
        || text.starts_with(b";")
        || text.starts_with(b"-- ")
        || (text.starts_with(b"%") && said_of(&KINDS, first).is_none())
        || (text.starts_with(b"#") && said_of(&KINDS, first).is_none())
}

/// The first word of a line, without the bracket that may follow a name.
fn first_name(line: &[u8]) -> &[u8] {
    let first = first_word(line);
    let name = digits_and_letters(first);
    if name.is_empty() || first.ends_with(b":") {
        first
    } else {
        name
    }
}

/// What is said of a program in another language, by words that only such programs have.
fn said_of_program(text: &[u8]) -> Option<&'static str> {
    if is_model(text) {
        Some(MODEL)
    } else if is_in_rust(text) {
        Some(RUST)
    } else if has(text, b"std::")
        || has(text, b"#include <atomic>")
        || has(text, b"#include <thread>")
    {
        Some(CPP)
    } else if has_kernel_words(text) {
        Some(KERNEL)
    } else if has(text, b"{{{") {
        Some(PROGRAM)
    } else if has(text, b"\"threads\"") || has(text, b"\"init\"") {
        Some(DATA)
    } else if begins_assignments(text) {
        Some(PAPER)
    } else if begins_function(text) && has_instructions(text) {
        Some(INSTRUCTIONS)
    } else if has(text, b"atomic_store")
        || has(text, b"int main(")
        || has(text, b"#include <")
        || begins_function(text)
    {
        Some(SOURCE_IN_C)
    } else {
        None
    }
}

/// Whether one of these lines begins with a word for threads, or for what they begin with.
fn names_threads(lines: &[u8]) -> bool {
    for row in lines.split(|byte| *byte == b'\n') {
        let first = first_name(row);
        if is_one_of(
            "Initially Initial Init Thread Threads Process Processor Proc Core CPU",
            first.strip_suffix(b":").unwrap_or(first),
        ) {
            return true;
        }
    }
    false
}

/// Whether a text has assignments as papers write them, and names threads or what they begin with first.
fn begins_assignments(text: &[u8]) -> bool {
    let first = first_name(up_to(text, b'\n'));
    let head = first_bytes(text, HEAD);
    let is_named = names_threads(head);
    let has_assignment = has(head, b":=") || has(head, b"<-") || has(head, b"\xe2\x86\x90");
    is_named && (has_assignment || text.contains(&b'=') || has_instructions(text))
        || (has_assignment && !is_one_of(WORDS_OF_PROGRAMS, first))
}

/// Whether a text begins as the function of a core in C.
fn begins_function(text: &[u8]) -> bool {
    text.starts_with(b"P0(") || text.starts_with(b"P0 (")
}

/// Instructions and registers of which one stands in nearly each program of X86.
const WORDS_OF_X86: &str = "MFENCE XCHG XADD EAX EBX ECX EDX ESI EDI";

/// Whether instructions of X86 stand in a text: one of them has a place in brackets, or a register stands there.
pub fn has_instructions(text: &[u8]) -> bool {
    let mut is_at_start = true;
    for at in 0..text.len() {
        if is_at_start && is_one_of(WORDS_OF_X86, digits_and_letters(&text[at..])) {
            return true;
        }
        is_at_start = !continues_name(text[at]);
    }
    has(text, b"MOV [") || has(text, b"mov [") || has(text, b"DWORD PTR")
}

/// Whether a text is a model in the language cat: one of its lines is a rule of it.
pub fn is_model(text: &[u8]) -> bool {
    for row in text.split(|byte| *byte == b'\n') {
        if is_exactly_one_of("acyclic irreflexive instructions", first_word(row))
            || has(row, b".cat\"")
        {
            return true;
        }
    }
    false
}

fn is_in_rust(text: &[u8]) -> bool {
    text.starts_with(b"use std::")
        || text.starts_with(b"use loom::")
        || text.starts_with(b"use core::")
        || text.starts_with(b"fn ")
        || text.starts_with(b"pub fn ")
        || text.starts_with(b"#![")
        || has(text, b"thread::spawn")
        || has(text, b"Ordering::")
        || (has(text, b"Atomic") && has(text, b"::new("))
}

/// Whether a text has a macro of the Linux kernel.
pub fn has_kernel_words(text: &[u8]) -> bool {
    has(text, b"WRITE_ONCE(")
        || has(text, b"READ_ONCE(")
        || has(text, b"smp_")
        || has(text, b"rcu_")
        || has(text, b"spin_lock(")
}

/// Whether a line is a function's name as a compiler's page shows it, as `main():`.
fn is_of_functions(head: &[u8]) -> bool {
    match head.strip_suffix(b":") {
        Some(name) => name.ends_with(b")") && is_bare(up_to(name, b'(')),
        None => false,
    }
}

/// What is said of instructions, perhaps behind a label or a directive.
fn said_of_instructions(text: &[u8], head: &[u8]) -> Option<&'static str> {
    let first = first_word(head);
    let after = last_bytes(text, text.len().saturating_sub(first.len())).trim_ascii_start();
    let is_label = is_bare(first.strip_suffix(b":").unwrap_or(b""));
    let second = first_word(after);
    if is_of_functions(head) && has_instructions(text) {
        return Some(INSTRUCTIONS);
    }
    if is_all_digits(first) && has_instructions(text) {
        return Some(DISASSEMBLY);
    }
    if head.starts_with(b".")
        || head.starts_with(b"[bits")
        || head.starts_with(b"[BITS")
        || head.starts_with(b"[section")
        || (is_label && after.starts_with(b"."))
        || is_one_of("dd dq dw db resd resq resw resb equ proc segment", second)
        || (is_one_of("extern", first) && !head.ends_with(b";"))
    {
        Some(ASSEMBLY)
    } else if is_one_of("extern", first) {
        Some(SOURCE_IN_C)
    } else if is_instruction(digits_and_letters(first))
        || (is_label && is_instruction(digits_and_letters(after)))
    {
        Some(INSTRUCTIONS)
    } else {
        None
    }
}
