//! What is said of a statement in C, C++ or Rust that stands in a cell: the cells that do the same here. It is said only where all of the
//! statement is known.

use crate::assignment::{location_in, says_assignment, says_short_event, says_step};
use crate::c_forms::{COMPILER, is_type, said_of_access, said_of_assembly, told_of_compare};
use crate::calls::{Act, act_of, is_sequential};
use crate::instructions::{LOOP, STRAIGHT};
use crate::keywords::is_instruction;
use crate::line::{Filling, Line};
use crate::mnemonics::is_known_name;
use crate::numbers::number_in;
use crate::quotes::{
    after_byte, digits_and_letters, ends_with_name, first_bytes, has, is_bare, last_bytes,
    last_word, up_to,
};
use crate::tables::{is_exactly_one_of, is_one_of};
use crate::target::{Target, say_cells, say_registers, say_set};

const MUTEX: &str =
    "{}: write MOV EAX,$1, and in the next cell XCHG [{}],EAX, with a free register for EAX; where the lock was free it is 0 then, so ask for that in the condition, as 0:EAX=0";

const NO_ORDER: &str =
    "{}: leave it out: TSO keeps that order already; for a store before a load the fence is MFENCE";

const NOTHING: &str = "{}: leave it out: it changes no final state";

const THREAD: &str =
    "{}: leave it out: each core's instructions stand in a column of their own, below P0 | P1 ;";

const GUARD: &str =
    "{}: a lock is taken by MOV EAX,$1, and in the next cell XCHG [l],EAX, with a free register for EAX; it is given back by MOV [l],$0";

const RESULT: &str =
    "{} isn't read: no step computes this: write XCHG [x],EAX, with the word that it comes to in EAX";

const STATIC: &str =
    "{}: a location is declared nowhere: leave it out, and write a value that it begins with into the initial state, as { x=1; }";

const COMPARE: &str =
    "{}: a program has no compares: for a location write a load, as MOV EAX,[x], and join what it has: 0:EAX=1 /\\ .. in exists and ~exists, ~(0:EAX=1) \\/ .. in forall; tools/compiled FILE.c reads C";

const CALL: &str =
    "{} isn't read: no function is called here: write the instructions that it stands for: MOV [x],$1, MOV EAX,[x], MFENCE, XCHG [x],EAX or LOCK XADD [x],EAX";

const CALL_OF_ALL: &str =
    "{} isn't read: no function is called here: write the instructions that it stands for, as MOV [x],$1, MOV EAX,[x], MFENCE or LOCK XADD [x],EAX";

const COMPARED: &str =
    "{}: write three cells: MOV EAX,${}  MOV EBX,${}  LOCK CMPXCHG [{}],EBX, where EAX and EBX are free; EAX then has what {} held";

const UNUSED_RESULT: &str = "{}: if the word that it returns isn't used, write ";

/// A statement: what it assigns to, or no bytes, and what it computes.
#[derive(Clone, Copy)]
pub struct Statement<'a> {
    pub cell: &'a [u8],
    pub left: &'a [u8],
    pub right: &'a [u8],
    /// Whether a type stands before it, so that it assigns to a variable of its own.
    pub is_declared: bool,
}

/// A call: its function or its method, the place whose method it is, or no bytes, and its arguments.
#[derive(Clone, Copy)]
struct Call<'a> {
    function: &'a [u8],
    receiver: &'a [u8],
    arguments: &'a [u8],
    /// Whether the arguments stand right behind the function, as no assembler writes operands.
    is_close: bool,
}

/// Says of a statement, if all of it is known, what does the same here. Whether it is known.
pub fn says_statement(line: &mut Line, cell: &[u8]) -> bool {
    let cell = cell.trim_ascii();
    let first = digits_and_letters(cell);
    if is_one_of("if else switch", first) {
        line.say_of(STRAIGHT, first);
        return true;
    }
    if is_one_of("while for do until await wait spin repeat", first) {
        line.say_of(LOOP, first);
        return true;
    }
    if is_exactly_one_of("asm __asm__ __asm _asm", first) {
        let inside = last_bytes(cell, cell.len().saturating_sub(first.len())).trim_ascii();
        if is_instruction(digits_and_letters(inside)) {
            line.say_of(
                "{}: write the instruction alone, without what stands before it",
                cell,
            );
        } else {
            line.say_of(said_of_assembly(cell), cell);
        }
        return true;
    }
    if has(cell, b"std::thread") || has(cell, b"thread::spawn") {
        line.say_of(THREAD, cell);
        return true;
    }
    if is_one_of("static atomic_int atomic_bool _Atomic", first) && !cell.contains(&b'(') {
        line.say_of(STATIC, cell);
        return true;
    }
    if has(cell, b"lock_guard") || has(cell, b"unique_lock") || has(cell, b"scoped_lock") {
        line.say_of(GUARD, cell);
        return true;
    }
    if has(cell, b"atomic<") || has(cell, b"Atomic<") {
        line.say_of(STATIC, cell);
        return true;
    }
    if (has(cell, b"&&") || (has(cell, b" ? ") && cell.contains(&b':'))) && !is_instruction(first) {
        line.say_of(STRAIGHT, cell);
        return true;
    }
    if is_compare(cell) {
        line.say_of(COMPARE, cell);
        return true;
    }
    let statement = statement_in(cell);
    match call_in(statement.right) {
        Some(call) => says_call(line, &statement, &call),
        None if statement.left.is_empty() => says_step(line, cell) || says_short_event(line, cell),
        None => says_assignment(line, &statement),
    }
}

/// Whether two expressions are compared.
fn is_compare(cell: &[u8]) -> bool {
    !cell.starts_with(b"=") && (has(cell, b"==") || has(cell, b"!="))
}

/// A statement without the types that begin it, in two where it assigns.
fn statement_in(cell: &[u8]) -> Statement<'_> {
    let text = without_types(cell);
    let left = up_to_assignment(text);
    let rest = last_bytes(text, text.len().saturating_sub(left.len()));
    let (left, right) = if rest.is_empty() {
        (rest, text)
    } else {
        let sign = if rest.starts_with(b"=") { 1 } else { 2 };
        (left, last_bytes(rest, rest.len().saturating_sub(sign)))
    };
    Statement {
        cell,
        left: left.trim_ascii(),
        right: right.trim_ascii(),
        is_declared: text.len() < cell.len(),
    }
}

/// What stands after types, and after words that stand with them.
fn without_types(cell: &[u8]) -> &[u8] {
    let mut rest = cell;
    for _ in 0..4 {
        let first = digits_and_letters(rest);
        let after = last_bytes(rest, rest.len().saturating_sub(first.len()));
        if !is_type(first) && !is_exactly_one_of("let mut var register auto", first) {
            return rest;
        }
        rest = after.trim_ascii_start();
    }
    rest
}

/// What stands before the sign of an assignment, or all where there is none.
fn up_to_assignment(text: &[u8]) -> &[u8] {
    for at in 0..text.len() {
        let rest = &text[at..];
        if rest.starts_with(b"(") && ends_with_name(&text[..at]) {
            return text;
        }
        if rest.starts_with(b":=")
            || rest.starts_with(b"<-")
            || (rest.starts_with(b"=") && !rest.starts_with(b"=="))
        {
            return &text[..at];
        }
    }
    text
}

/// The call that an expression is.
fn call_in(expression: &[u8]) -> Option<Call<'_>> {
    let path = up_to(expression, b'(').trim_ascii_end();
    let after = after_byte(expression, b'(');
    let inside = up_to_last_bracket(after);
    let end = last_bytes(after, after.len().saturating_sub(inside.len()));
    let function = last_word(path);
    // A further method may follow, as `unwrap`.
    let is_whole = end == b")".as_slice() || end.starts_with(b").") || end.starts_with(b")?");
    if !is_whole || !is_bare(function) {
        return None;
    }
    let before = first_bytes(path, path.len().saturating_sub(function.len()));
    let receiver = match before.strip_suffix(b".").or(before.strip_suffix(b"->")) {
        Some(object) if is_exactly_one_of("atomic", object) => &[],
        Some(object) if is_exactly_one_of("Atomics Unsafe", object) => return None,
        Some(object) => last_word(object),
        None if before.is_empty() || before.ends_with(b"::") => &[],
        None => return None,
    };
    Some(Call {
        function,
        receiver,
        arguments: inside,
        is_close: path.len() == up_to(expression, b'(').len(),
    })
}

/// What stands before the last `)`.
fn up_to_last_bracket(text: &[u8]) -> &[u8] {
    for at in (0..text.len()).rev() {
        if text[at] == b')' {
            return &text[..at];
        }
    }
    &[]
}

/// The place of a call, and what stands for its value.
fn place_of<'a>(call: &Call<'a>) -> Option<(&'a [u8], &'a [u8])> {
    let first = up_to(call.arguments, b',').trim_ascii();
    let second = up_to(after_byte(call.arguments, b','), b',').trim_ascii();
    let (place, value) = if !call.receiver.is_empty() {
        (call.receiver, first)
    } else if number_in(first).is_some() {
        // As atomic_add(1, &x) has them.
        (second, first)
    } else {
        (first, second)
    };
    match location_in(place) {
        Some(name) => Some((name, value)),
        None => None,
    }
}

/// Of a call. Whether it is known what does the same.
fn says_call(line: &mut Line, statement: &Statement<'_>, call: &Call<'_>) -> bool {
    let Some(act) = act_of(call.function, call.arguments) else {
        return says_unknown_call(line, call);
    };
    if matches!(act, Act::Compare) {
        if !says_compared(line, statement, call) {
            let said = told_of_compare(line);
            line.say_of(said, call.function);
        }
        return true;
    }
    if let Some(said) = said_of_act(act) {
        line.say_of(said, statement.cell);
        return true;
    }
    match place_of(call) {
        Some((place, value)) => says_access(line, statement, call, act, place, value),
        None => false,
    }
}

/// Of a function of which nothing is known. Whether it is one, and no instruction with an operand in brackets.
fn says_unknown_call(line: &mut Line, call: &Call<'_>) -> bool {
    let name = call.function;
    let is_function = call.is_close
        && !is_instruction(name)
        && !is_known_name(name)
        && said_of_access(name).is_none();
    if is_function {
        let said = line.choose(CALL, CALL_OF_ALL);
        line.say_of(said, name);
    }
    is_function
}

/// Of a compare with an exchange that has its words as numbers. Whether one has.
fn says_compared<'a>(line: &mut Line, statement: &Statement<'a>, call: &Call<'a>) -> bool {
    let Some((place, one)) = place_of(call) else {
        return false;
    };
    let after = after_byte(call.arguments, b',');
    let other = if call.receiver.is_empty() {
        after_byte(after, b',')
    } else {
        after
    };
    let is_turned = call.function.starts_with(b"Interlocked");
    let (Some(one), Some(other)) = (number_in(one), number_in(up_to(other, b',').trim_ascii()))
    else {
        return false;
    };
    let (expected, new) = if is_turned {
        (other, one)
    } else {
        (one, other)
    };
    line.say_with(
        COMPARED,
        &[
            Filling::Named(statement.cell),
            Filling::Number(expected as usize),
            Filling::Number(new as usize),
            Filling::Shown(place),
            Filling::Shown(place),
        ],
    );
    line.say_option();
    true
}

/// What is said of a call that accesses no location.
fn said_of_act(act: Act) -> Option<&'static str> {
    match act {
        Act::Fence => Some("{}: write MFENCE"),
        Act::NoFence => Some(NO_ORDER),
        Act::Barrier => Some(COMPILER),
        Act::Nothing => Some(NOTHING),
        Act::Thread => Some(THREAD),
        Act::Compute => Some(RESULT),
        _ => None,
    }
}

/// Of a call that accesses a location. Whether it is known what does the same.
fn says_access(
    line: &mut Line,
    statement: &Statement<'_>,
    call: &Call<'_>,
    act: Act,
    place: &[u8],
    value: &[u8],
) -> bool {
    if matches!(act, Act::Lock) {
        line.say_with(
            MUTEX,
            &[Filling::Named(statement.cell), Filling::Shown(place)],
        );
        return true;
    }
    let Some(target) = target_of(act, statement.left, place, value) else {
        return false;
    };
    let is_result = target.is_larger() && !statement.left.is_empty();
    line.say_of(
        if is_result {
            UNUSED_RESULT
        } else {
            "{}: write "
        },
        statement.cell,
    );
    say_cells(line, target);
    if matches!(target, Target::ExchangeNumber(..) | Target::AddNumber(..))
        && is_bare(statement.left)
        && !is_one_of("EAX", statement.left)
    {
        line.say_with(
            ", which then has what {} gets",
            &[Filling::Shown(statement.left)],
        );
    }
    if matches!(act, Act::Store | Act::Unlock)
        && is_sequential(call.function, call.arguments, !call.receiver.is_empty())
    {
        line.say(", and in the next cell MFENCE, which keeps it before later loads");
    }
    say_registers(line, target);
    say_set(line, target);
    true
}

/// The cells that do what an access of a location does, with this value, whose result a name gets or none does.
fn target_of<'a>(act: Act, left: &'a [u8], place: &'a [u8], value: &'a [u8]) -> Option<Target<'a>> {
    let target = match (act, number_in(value)) {
        (Act::Store, Some(number)) => Target::StoreNumber(place, number),
        (Act::Store, None) if is_bare(value) => Target::StoreRegister(place, value),
        (Act::Load, _) if is_bare(left) => Target::Load(left, place),
        (Act::Load, _) => Target::Load(b"EAX", place),
        (Act::Exchange, Some(number)) => Target::ExchangeNumber(place, number),
        (Act::Test, _) => Target::ExchangeNumber(place, 1),
        (Act::Add, Some(number)) => Target::AddNumber(place, number),
        (Act::Subtract, Some(number)) => Target::AddNumber(place, 0u32.wrapping_sub(number)),
        (Act::Increase, _) => Target::AddNumber(place, 1),
        (Act::Decrease, _) => Target::AddNumber(place, u32::MAX),
        (Act::Unlock, _) => Target::StoreNumber(place, 0),
        (Act::And, Some(number)) => Target::LockNumber("AND", place, number),
        (Act::Or, Some(number)) => Target::LockNumber("OR", place, number),
        (Act::Xor, Some(number)) => Target::LockNumber("XOR", place, number),
        (Act::And, None) if is_bare(value) => Target::LockRegister("AND", place, value),
        (Act::Or, None) if is_bare(value) => Target::LockRegister("OR", place, value),
        (Act::Xor, None) if is_bare(value) => Target::LockRegister("XOR", place, value),
        _ => return None,
    };
    Some(target)
}
