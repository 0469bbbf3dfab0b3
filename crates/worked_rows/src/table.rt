//! Tables of rows: paragraphs, each with a heading and, in the lines behind it, what is given or
//! expected. A paragraph that begins with `#` is a comment.
#![tactic(auto)]

/// A row of a table.
#[derive(Clone, Copy, Drop)]
pub struct Row<'a> {
    pub heading: &'a str,
    pub body: &'a str,
}

/// How many rows hold so far, and how many do not.
#[derive(Drop)]
pub struct Tally {
    pub right: u64,
    pub wrong: u64,
}

/// The row of a paragraph.
pub fn row_of(paragraph: &str) -> Option<Row<'_>> {
    let paragraph = paragraph.trim();
    if paragraph.is_empty() || paragraph.starts_with("#") {
        return None;
    }
    match paragraph.split_once("\n") {
        Some((heading, body)) => Some(Row { heading, body }),
        None => Some(Row {
            heading: paragraph,
            body: "",
        }),
    }
}

/// The first word of a text, and what stands behind the space behind it.
pub fn cut(text: &str) -> (&str, &str) {
    text.split_once(" ").unwrap_or((text, ""))
}
