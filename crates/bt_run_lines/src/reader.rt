// A printed line from its bytes.
ghost use Rattle.std.specs.Prelude.{◌≡◌, ◌≤◌, All, IfSome, map};
ghost use Rattle.bt_text.specs.Text.{words};
ghost use Rattle.bt_words.specs.declared.token.TheConstants.{MOST_VALUES};
ghost use Rattle.bt_words.specs.Forms.{part_of, open_places};
ghost use Rattle.bt_run_lines.specs.Lines.{IsOf, first_of_forms, line_in, printed_as, told_behind, values_in};

use crate::printed::{Printed, Values};
use crate::word::add_said;
use bt_net::Network;
use bt_text::WordReader;
use bt_words::{Form, Token, forms_from, tokens_of};

/// The printed line that the bytes spell, its newline left out; None where no run prints such a line.
pub fn read_line<'a>(net: &Network, line: &'a [u8]) -> Option<Printed<'a>>
    ensures line { result ≡ line_in net.now line.now }
    ensures range { IfSome result (λ printed. All (IsOf net.now) printed.said) }
{
    line_in(net, line)
}

/// How many lines behind a line are what it tells of, and are no printed lines.
pub fn told_behind(line: &[u8]) -> u64
    ensures count { result ≡ told_behind line.now }
{
    let mut words = WordReader::of(line);
    if !words.next_is(b"lines") {
        return 0;
    }
    match words.number_of_digits(19) {
        Some(count) => count,
        None => 0,
    }
}

// A printed line; `read_line` says too what follows for its values.
fn line_in<'a>(net: &Network, line: &'a [u8]) -> Option<Printed<'a>>
    ensures { result ≡ line_in net.now line.now }
{
    let Some(head) = WordReader::of(line).next() else {
        return None;
    };
    first_of_forms(net, forms_from(head), line)
}

// The line as one of the first of these forms that it has.
fn first_of_forms<'a>(net: &Network, forms: &[Form], line: &'a [u8]) -> Option<Printed<'a>>
    ensures { result ≡ first_of_forms net.now forms.now (words line.now) }
{
    for form in forms {
        if let Some(printed) = printed_as(net, *form, line) {
            return Some(printed);
        }
    }
    None
}

// The line as one of this form.
fn printed_as<'a>(net: &Network, form: Form, line: &'a [u8]) -> Option<Printed<'a>>
    ensures { result ≡ printed_as net.now form (words line.now) }
{
    let said = values_in(net, tokens_of(form), line)?;
    Some(Printed { form, said })
}

// What the words of a line say at these places.
fn values_in<'a>(net: &Network, tokens: &[Token], line: &'a [u8]) -> Option<Values<'a>>
    requires few { open_places (map part_of tokens.now) ≤ MOST_VALUES }
    ensures values { result ≡ values_in net.now (map part_of tokens.now) (words line.now) }
{
    let mut words = WordReader::of(line);
    let mut said = Values::none();
    for token in tokens {
        let Some(word) = words.next() else {
            return None;
        };
        if !add_said(net, *token, word, &mut said) {
            return None;
        }
    }
    if words.is_done() { Some(said) } else { None }
}
