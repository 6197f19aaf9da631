// The lines of a list.

/// A line of a list.
pub enum ListLine<'a> {
    /// It is printed as it is.
    Remark,
    /// A file of the bytes that these digits spell.
    Bytes { name: &'a str, digits: &'a str },
    /// A file of this text.
    Text { name: &'a str, text: &'a str },
    /// The words of a command.
    Command,
}

/// What a line says.
pub fn read_line(line: &str) -> ListLine<'_> {
    if line.is_empty() || line.starts_with('#') {
        return ListLine::Remark;
    }
    match line.split_once(' ') {
        Some(("let", rest)) => bytes_line(rest),
        Some(("text", rest)) => text_line(rest),
        _ => ListLine::Command,
    }
}

/// The words that are looked for in the lines of standard error, if all others are left out, and the command.
pub fn only_and_command(line: &str) -> (Option<&str>, &str) {
    match line
        .strip_prefix("only ")
        .and_then(|rest| rest.split_once(' '))
    {
        Some((words, command)) => (Some(words), command),
        None => (None, line),
    }
}

/// Whether the command's output takes nothing, and the command.
pub fn full_and_command(line: &str) -> (bool, &str) {
    match line.strip_prefix("full ") {
        Some(command) => (true, command),
        None => (false, line),
    }
}

fn bytes_line(rest: &str) -> ListLine<'_> {
    let (name, digits) = rest.split_once(' ').unwrap_or((rest, ""));
    ListLine::Bytes { name, digits }
}

fn text_line(rest: &str) -> ListLine<'_> {
    let (name, text) = rest.split_once(' ').unwrap_or((rest, ""));
    ListLine::Text { name, text }
}
