// The forms of the lines of a traffic and of a plan that no run prints.
ghost use Rattle.std.specs.Prelude.{◌≡◌, map};
ghost use Rattle.bt_words.specs.Forms.{part_of};
ghost use Rattle.bt_export.specs.TextForms.{text_forms, text_names, text_parts};

use bt_words::Token;

/// The form of a line of a traffic or of a plan that no run prints; a mode of a plan has none. `specs/TextForms.antt` has the words
/// of each.
#[derive(Clone, Copy)]
pub enum TextForm {
    Link,
    Plan,
    Length,
    CriticalRow,
    CriticalColumn,
    End,
}

/// All of them.
pub(crate) fn text_forms() -> &'static [TextForm]
    ensures all { result.now ≡ text_forms }
{
    &[
        TextForm::Link,
        TextForm::Plan,
        TextForm::Length,
        TextForm::CriticalRow,
        TextForm::CriticalColumn,
        TextForm::End,
    ]
}

/// The places of a form, in order.
#[rattlefmt::skip]
pub(crate) fn text_tokens(form: TextForm) -> &'static [Token]
    ensures parts { map part_of result.now ≡ text_parts form }
{
    use Token::*;
    match form {
        TextForm::Link           => &[Text("link"), Terminal, Terminal, Number],
        TextForm::Plan           => &[Text("plan"), Number],
        TextForm::Length         => &[Text("length"), Number],
        TextForm::CriticalRow    => &[Text("critical"), Text("row"), Number],
        TextForm::CriticalColumn => &[Text("critical"), Text("column"), Number],
        TextForm::End            => &[Text("end")],
    }
}

/// What the open ones are called: the field's words.
#[rattlefmt::skip]
pub(crate) fn text_names(form: TextForm) -> &'static [&'static str]
    ensures names { map (λ name. name.now) result.now ≡ text_names form }
{
    match form {
        TextForm::Link           => &["from", "to", "units"],
        TextForm::Plan           => &["edition"],
        TextForm::Length         => &["length"],
        TextForm::CriticalRow    => &["beam"],
        TextForm::CriticalColumn => &["beam"],
        TextForm::End            => &[],
    }
}
