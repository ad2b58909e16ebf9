//! The lines of standard input.

/// A call, what it is called with, and what it answers.
#[derive(Clone, Copy)]
pub struct Row<'a> {
    pub call: &'a str,
    pub input: &'a str,
    pub due: &'a str,
}

/// What a line says: that a case begins, what the rows behind it start from, or a row.
#[derive(Clone, Copy)]
pub enum RowLine<'a> {
    Case(&'a str),
    With(&'a str),
    Past(&'a str),
    Row(Row<'a>),
    Nothing,
}

/// The row of a line that begins with this word.
fn row_of<'a>(call: &'a str, rest: &'a str) -> RowLine<'a> {
    match rest.split_once('>') {
        Some((input, due)) => RowLine::Row(Row {
            call,
            input: input.strip_suffix(' ').unwrap_or(input),
            due: due.strip_prefix(' ').unwrap_or(due),
        }),
        None => RowLine::Nothing,
    }
}

/// What the line says. `CALL INPUT > ANSWER` is a row; a line of another form says nothing.
pub fn read_line<'a>(line: &'a str) -> RowLine<'a> {
    let (word, rest) = line.split_once(' ').unwrap_or((line, ""));
    match word {
        "case" => RowLine::Case(rest),
        "with" => RowLine::With(rest),
        "past" => RowLine::Past(rest),
        _ => row_of(word, rest),
    }
}
