//! Lines, words, numbers and names.

use ccr_base::List;
use ccr_text::{
    Line, MAX_TEXT, find_line, is_name, numbered_line, put_bytes, put_line, read_number,
    split_lines, words_in,
};
use ccr_try::{Row, first_number, put, put_number, put_truth, put_word, text_of};
use std::alloc::Global;

/// Adds the line's number, whether it is clean, and its words.
fn put_whole(out: &mut List<u8>, line: &Line) {
    put_number(out, u64::from(line.number));
    put_truth(out, line.clean);
    for word in line.words.as_slice() {
        put_word(out, word.as_slice());
    }
    put(out, b",");
}

/// How many lines the text has.
fn count(alloc: Global, text: &[u8], out: &mut List<u8>) {
    if text.len() > MAX_TEXT {
        return;
    }
    if let Ok(lines) = split_lines(alloc, text) {
        put_number(out, lines.len() as u64);
    }
}

/// The lines of the text.
fn lines(alloc: Global, text: &[u8], out: &mut List<u8>) {
    if text.len() > MAX_TEXT {
        return;
    }
    if let Ok(lines) = split_lines(alloc, text) {
        for line in lines.as_slice() {
            put_whole(out, line);
        }
    }
}

fn number(text: &[u8], out: &mut List<u8>) {
    match read_number(text) {
        Some(number) => put_number(out, number),
        None => put_word(out, b"none"),
    }
}

/// Where the word stands, and in which line.
fn put_index(text: &[u8], word: &[u8], out: &mut List<u8>) {
    if text.len() > MAX_TEXT {
        return;
    }
    let (index, line) = find_line(text, word);
    put_number(out, index as u64);
    put_number(out, u64::from(line));
}

fn words(alloc: Global, text: &[u8], out: &mut List<u8>) {
    if let Ok(words) = words_in(alloc, text) {
        put_number(out, words.len() as u64);
        for word in words.as_slice() {
            put_word(out, word.as_slice());
        }
    }
}

/// The line `post a`, the largest number, a blank and 0.
fn written(out: &mut List<u8>) {
    let _ = put_line(out, &[b"post", b"a"]);
    let _ = ccr_text::put_number(out, u64::MAX);
    let _ = put_bytes(out, b" ");
    let _ = ccr_text::put_number(out, 0);
}

/// The line of this number.
fn numbered(alloc: Global, number: u32, text: &str, out: &mut List<u8>) {
    let text = text_of(alloc, text, "");
    if let Ok(line) = numbered_line(alloc, number, text.as_slice()) {
        put_whole(out, &line);
    }
}

/// For `WORD TEXT` where the word stands; an empty word is written `-`.
fn find(alloc: Global, input: &str, out: &mut List<u8>) {
    let (word, text) = input.split_once(' ').unwrap_or((input, ""));
    let word = if word == "-" { "" } else { word };
    let text = text_of(alloc, text, "");
    put_index(text.as_slice(), word.as_bytes(), out);
}

/// What the call answers of the text.
pub fn tell(alloc: Global, row: &Row<'_>, out: &mut List<u8>) {
    let text = text_of(alloc, row.input, "");
    tell_of(alloc, row, text.as_slice(), out);
}

/// The same of the text that the row's input stands for.
fn tell_of(alloc: Global, row: &Row<'_>, text: &[u8], out: &mut List<u8>) {
    match row.call {
        "count" => count(alloc, text, out),
        "lines" => lines(alloc, text, out),
        "number" => number(text, out),
        "name" => put_truth(out, is_name(text)),
        "words" => words(alloc, text, out),
        "find" => find(alloc, row.input, out),
        "written" => written(out),
        "numbered" => {
            let (number, rest) = first_number(row.input);
            numbered(alloc, number, rest, out);
        }
        _ => put(out, b"no such call"),
    }
}
