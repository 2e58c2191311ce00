// Why an edit, a plan, an order or a block is refused, in a sentence.
//
//     line 7: desk 1 refused E3: row NAE would have 363 slots, and a frame has 320
use crate::bytes::word_of;
use crate::page::Page;
use crate::session::{Heard, Session};
use bt_net::Network;
use bt_text::is_word;

/// Appends why something is refused, where an answer says that it is.
pub fn add_refusal(session: &Session, heard: &Heard, answer: &[u8], page: &mut Page) {
    let at = if is_word(word_of(answer, 0), b"desk") {
        2
    } else {
        1
    };
    if !is_word(word_of(answer, at), b"refused") {
        return;
    }
    page.add("line ");
    page.add_number(heard.at());
    page.add(": ");
    for index in 0..at + 2 {
        if index > 0 {
            page.add(" ");
        }
        page.add_bytes(word_of(answer, index));
    }
    page.add(": ");
    let refused = Refused {
        code: word_of(answer, at + 1),
        first: word_of(answer, at + 2),
        second: word_of(answer, at + 3),
        edit: heard.words(),
    };
    if is_word(word_of(answer, 0), b"block") {
        page.add("nothing of the block was played, since that line of it would be refused");
    } else {
        refused.add_why(session.net(), page);
    }
    page.add("\n");
}

/// A refusal: its code, what stands behind that, and the line that was heard, which may be the edit's.
#[derive(Clone, Copy)]
struct Refused<'a> {
    code: &'a [u8],
    first: &'a [u8],
    second: &'a [u8],
    edit: &'a [u8],
}

impl Refused<'_> {
    /// Appends what the code means here.
    fn add_why(self, net: Option<&Network>, page: &mut Page) {
        match *self.code {
            [b'E', b'1'] => self.add_one_terminal(page),
            [b'E', b'2'] => self.add_not_there(page),
            [b'E', b'3'] => self.add_full("row ", net, page),
            [b'E', b'4'] => self.add_full("column ", net, page),
            [b'E', b'5'] => self.add_book_full(net, page),
            [b'E', b'6'] => self.add_three(
                "the newest plan is of edition ",
                ", and this one of none that is newer",
                page,
            ),
            [b'E', b'7'] => self.add_three(
                "the plan is of an edition past ",
                ", the last one",
                page,
            ),
            [b'E', b'8'] => page.add("the plan is not good for the demand of its edition"),
            [b'E', b'9'] => self.add_three(
                "its command does not follow on ",
                ", the last one: the store told other changes than those made",
                page,
            ),
            [b'E', b'1', b'0'] => self.add_three(
                "its edition has no plan, and the newest that has one is ",
                ": the store told other changes than those made",
                page,
            ),
            _ => page.add("it is not taken"),
        }
    }

    fn add_three(self, front: &str, behind: &str, page: &mut Page) {
        page.add(front);
        page.add_bytes(self.first);
        page.add(behind);
    }

    /// Whether the line that was heard is an edit of one link.
    fn is_of_one_link(self) -> bool {
        let word = word_of(self.edit, 2);
        is_word(word_of(self.edit, 0), b"desk")
            && (is_word(word, b"add") || is_word(word, b"drop") || is_word(word, b"set"))
    }

    /// Whether it is an edit that takes slots from a link.
    fn takes(self) -> bool {
        let word = word_of(self.edit, 2);
        is_word(word_of(self.edit, 0), b"desk")
            && (is_word(word, b"drop") || is_word(word, b"move"))
    }

    fn add_one_terminal(self, page: &mut Page) {
        if self.is_of_one_link() {
            page.add("both ends of the link are ");
            page.add_bytes(word_of(self.edit, 3));
        } else {
            page.add("both ends of a link are one terminal");
        }
    }

    fn add_not_there(self, page: &mut Page) {
        page.add("the link ");
        if self.takes() {
            page.add_bytes(word_of(self.edit, 3));
            page.add(" ");
            page.add_bytes(word_of(self.edit, 4));
            page.add(" ");
        }
        page.add("has ");
        page.add_bytes(self.first);
        page.add(" slots, and ");
        if self.takes() {
            let units = if is_word(word_of(self.edit, 2), b"move") {
                7
            } else {
                5
            };
            page.add_bytes(word_of(self.edit, units));
        } else {
            page.add("more");
        }
        page.add(" are to be taken from it");
    }

    fn add_full(self, way: &str, net: Option<&Network>, page: &mut Page) {
        page.add(way);
        page.add_bytes(self.first);
        page.add(" would have ");
        page.add_bytes(self.second);
        page.add(" slots, ");
        match net {
            Some(net) => {
                page.add("and a frame has ");
                page.add_number(u64::from(net.slots()));
            }
            None => page.add("more than a frame has"),
        }
    }

    fn add_book_full(self, net: Option<&Network>, page: &mut Page) {
        page.add("the journal's changes have ");
        page.add_bytes(self.first);
        page.add(" bytes, and with one more they would pass ");
        match net {
            Some(net) => page.add_number(u64::from(net.journal())),
            None => page.add("the network's limit"),
        }
    }
}
