// Why a line is no text in UTF-8.
use crate::bytes::bytes_at;
use crate::cause::Cause;
use crate::fault::{Named, add_heading};
use crate::page::Page;
use crate::telling::Done;
use std::alloc::Global;

/// Tells where line `at` of a text is no UTF-8.
pub fn tell_no_text(
    alloc: Global,
    done: &Done<'_>,
    text: Named<'_>,
    at: u32,
    page: &mut Page,
) -> bool {
    let line = bytes_at(text.text, at);
    let mut cause = Cause::new(alloc);
    cause.say("this line is no text in UTF-8");
    if let Err(error) = str::from_utf8(line) {
        cause.mark(error.valid_up_to(), 1);
    }
    add_heading(done, text.file, Some(at), b"O1", page);
    cause.add_why(page);
    cause.add_line(line, page);
    true
}
