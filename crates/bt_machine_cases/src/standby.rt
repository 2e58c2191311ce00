// The lines of a standby.
use crate::lines::{put_number, put_word};
use crate::message::status_of;
use bt_frame::Mark;
use bt_machines::{Noticed, Standby};
use bt_sheet::{CaseFault, Result, number_of};

/// Does what a line of a standby says.
pub fn show_standby(standby: &mut Standby, words: &[&str], out: &mut String) -> Result<()> {
    match words {
        ["standby"] => {
            *standby = Standby::new();
            Ok(())
        }
        ["notice", mark, "status", fields @ ..] => put_noticed(standby, mark, fields, out),
        ["names", mark] => put_named(standby, mark, out),
        _ => Err(CaseFault("no line of cases")),
    }
}

/// Appends the answer to a status that is heard in that superframe.
fn put_noticed(standby: &mut Standby, mark: &str, fields: &[&str], out: &mut String) -> Result<()> {
    let status = status_of(fields)?;
    let mark = Mark(number_of(mark)?);
    let word = match standby.hear(mark, status) {
        Noticed::Noted => "noted",
        Noticed::WrongMark => "wrongmark",
    };
    put_word(word, out)
}

/// Appends the edition that the standby names in that superframe.
fn put_named(standby: &Standby, mark: &str, out: &mut String) -> Result<()> {
    match standby.names(Mark(number_of(mark)?)) {
        Some(edition) => put_number(edition.0, out),
        None => put_word("none", out),
    }
}
