//! A line that was probably meant to end a deck.

/// What is said of the first line that nearly ends a deck; empty where there is none.
pub fn end_hint(block: &[u8]) -> &'static str {
    block
        .split(|byte| *byte == b'\n')
        .find_map(|line| near_end(line.trim_ascii()))
        .unwrap_or("")
}

// What keeps a line, without the blanks around it, from ending a deck.
fn near_end(line: &[u8]) -> Option<&'static str> {
    if line.eq_ignore_ascii_case(b"./END") {
        Some("; it stands alone in its line, in capitals and without a blank")
    } else if line.ends_with(b"./END") {
        Some("; it stands in a line of its own, so the deck's last line needs a line end")
    } else {
        None
    }
}
