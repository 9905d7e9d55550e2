//! What is said of signs that lay a text out in other languages: in HTML, in Markdown or TeX, and in tables.

use crate::line::{Filling, Line};
use crate::operands::cell_at;
use crate::place::Place;
use crate::quotes::{has, up_to};
use crate::tables::{Alike, is_one_of, said_of_front};

/// Signs as HTML has them, and what is written here.
static ENTITIES: [Alike; 6] = [
    Alike("&amp;", "/\\ for and"),
    Alike(
        "&lt; &gt;",
        "an atom for each value, since atoms compare by = alone",
    ),
    Alike("&quot; &#34; &#x22;", "\""),
    Alike("&nbsp; &#160; &#xa0;", "a space"),
    Alike("&#124; &vert; &#x7c;", "|"),
    Alike("&#36; &dollar;", "$"),
];

/// Whether a place begins a line that is no row: no cell ends on it.
pub fn is_alone_on_line(place: &Place<'_>) -> bool {
    let line = place.whole_line();
    place.is_first_on_line() && is_rule(line.trim_ascii())
}

/// Says of a sign as HTML writes it. Whether one stands there.
pub fn says_entity(line: &mut Line, place: &Place<'_>) -> bool {
    let Some(said) = said_of_front(&ENTITIES, place.rest) else {
        return false;
    };
    line.say_with(
        "{}; is a sign as HTML has it: write {}",
        &[Filling::Shown(up_to(place.rest, b';')), Filling::Text(said)],
    );
    true
}

/// Says of a sign that lays a text out: of a tag, of bold type, of an escape, of a line below a head, or of what fills an empty cell.
/// Whether one stands there.
pub fn says_markup(line: &mut Line, place: &Place<'_>) -> bool {
    let cell = cell_at(place);
    let sentence = if is_tag(place.rest) {
        "'<' begins a tag of HTML: leave it out, up to its '>'"
    } else if place.rest.starts_with(b"**") {
        "** is for bold type in Markdown: leave it out, here and behind the word"
    } else if is_row_of_tex(place) {
        "{}: in TeX & splits cells and \\\\ ends a row: write | for each & and ; for each \\\\"
    } else if is_escape(place.rest) {
        "{} stands before a sign, as in Markdown or TeX: leave it out"
    } else if cell.starts_with(b"\"") && place.rest.starts_with(cell) {
        if has(unquoted(cell), b"\\n") {
            "{}: leave the quotation marks and \\n out, and write each instruction into a row of its own"
        } else {
            "{}: an instruction stands without quotation marks: leave them out"
        }
    } else if is_rule(cell) && !is_alone_on_line(place) && !is_ruled(place) {
        "{} is no instruction: an empty cell is left empty, and no line stands between rows"
    } else {
        return false;
    };
    line.say_of(sentence, place.token);
    true
}

/// What stands between quotation marks, without an end of a line there, or all where none begins a cell.
pub fn unquoted(cell: &[u8]) -> &[u8] {
    let Some(inside) = cell.strip_prefix(b"\"") else {
        return cell;
    };
    let mut rest = inside.strip_suffix(b"\"").unwrap_or(inside);
    for _ in 0..2 {
        rest = rest
            .strip_suffix(b"\\n")
            .or(rest.strip_suffix(b"\\t"))
            .unwrap_or(rest);
    }
    rest.trim_ascii()
}

/// Says of a line that marks two versions of a text, as git has them. Whether one begins at a place.
pub fn says_of_conflict(line: &mut Line, place: &Place<'_>) -> bool {
    let is_mark = place.is_first_on_line()
        && (place.rest.starts_with(b"<<<<<<<")
            || place.rest.starts_with(b"=======")
            || place.rest.starts_with(b">>>>>>>"));
    if is_mark {
        line.say(
            "this line marks two versions of the text, as git has them: keep one of the two, and leave the lines with marks out",
        );
    }
    is_mark
}

/// Whether a tag of HTML begins a text.
pub fn is_tag(text: &[u8]) -> bool {
    let Some(after) = text.strip_prefix(b"<") else {
        return false;
    };
    let name = up_to(after.strip_prefix(b"/").unwrap_or(after), b'>');
    let name = name.strip_suffix(b"/").unwrap_or(name).trim_ascii_end();
    is_one_of("br b i td tr p pre code div span tt", name)
}

/// Whether a place stands in a row as TeX has it, at a sign that splits its cells or ends it.
fn is_row_of_tex(place: &Place<'_>) -> bool {
    (place.rest.starts_with(b"&") || place.rest.starts_with(b"\\\\"))
        && place.whole_line().trim_ascii_end().ends_with(b"\\\\")
}

/// Whether `\` stands before a sign that has a meaning in Markdown or TeX.
fn is_escape(text: &[u8]) -> bool {
    match text {
        [b'\\', sign, ..] => b"[]$_*|#&%{}".contains(sign),
        _ => false,
    }
}

/// Whether a place begins a line of strokes that frames a table, as `+---+---+` or `|---|---|`.
pub fn is_ruled(place: &Place<'_>) -> bool {
    is_of_strokes(place.whole_line().trim_ascii())
}

/// Whether a line has strokes alone, as one that frames a table or stands below its head.
pub fn is_of_strokes(line: &[u8]) -> bool {
    if !line.starts_with(b"+") && !line.contains(&b'|') && !line.contains(&b'+') {
        return false;
    }
    for byte in line {
        if !b"-+|:= ".contains(byte) {
            return false;
        }
    }
    line.contains(&b'-') || line.contains(&b'=')
}

/// Whether a cell has strokes or points alone.
fn is_rule(cell: &[u8]) -> bool {
    for byte in cell {
        if !b"-.+:=_*#~ ".contains(byte) {
            return false;
        }
    }
    !cell.is_empty()
}
