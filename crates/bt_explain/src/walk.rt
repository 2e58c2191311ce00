// A line beside the forms that it may have: how far it goes along them, and what does not fit.
use crate::bytes::word_of;
use crate::cause::Cause;
use crate::fault::Fault;
use crate::form::{Forms, Place, forms_of};
use crate::near::{Near, name_terminals};
use crate::page::Page;
use crate::script::{ask_desk, ask_slip};
use bt_net::{Network, is_name};
use bt_text::{WordReader, is_word, number};
use bt_words::is_tag;
use std::alloc::Global;

/// Why a word is no tag.
pub const BAD_TAG: &str = "a tag has 1 to 16 letters, digits or underscores behind its '@'";

/// The most words of a place that are said one by one.
const MOST_SAID: usize = 6;

/// What is looked at beside the shape of a line.
#[derive(Clone, Copy)]
struct Look<'a> {
    /// How many beams there are.
    beams: u32,
    /// The network whose terminals the names are to be; None where any names will do.
    net: Option<&'a Network>,
    /// The ranges that other codes have.
    has_ranges: bool,
}

impl Look<'_> {
    /// The shape alone.
    fn shape(beams: u32) -> Look<'static> {
        Look {
            beams,
            net: None,
            has_ranges: false,
        }
    }

    /// What is looked at in a line that has its shape: its names, and its numbers.
    fn of<'a>(fault: &Fault<'a>) -> Look<'a> {
        Look {
            beams: fault.beams,
            net: fault.net,
            has_ranges: fault.digit == b'3' || fault.letter == b'X',
        }
    }
}

/// What does not fit.
#[derive(Clone, Copy)]
enum Misfit {
    /// All fits.
    Nothing,
    /// The line ends, and this is wanting.
    Missing(Place),
    /// A word is not this.
    Wrong(Place),
    /// A word stands behind the last.
    Behind,
}

/// How far a line goes along a form.
#[derive(Drop)]
struct Walk<'a> {
    words: WordReader<'a>,
    /// How many words fit.
    fit: usize,
    /// Where the first word begins that does not.
    at: usize,
    /// That word.
    word: &'a [u8],
    misfit: Misfit,
}

impl<'a> Walk<'a> {
    /// Along a form from its first place on.
    fn along(line: &'a [u8], form: &'static [Place], look: &Look<'_>) -> Walk<'a> {
        let mut walk = Walk {
            words: WordReader::of(line),
            fit: 0,
            at: 0,
            word: &[],
            misfit: Misfit::Nothing,
        };
        for place in form {
            walk.pass(*place, look);
        }
        walk.end();
        walk
    }

    fn is_whole(&self) -> bool {
        matches!(self.misfit, Misfit::Nothing)
    }

    /// Passes what stands at a place, where all fitted so far.
    fn pass(&mut self, place: Place, look: &Look<'_>) {
        match place {
            Place::EachNumber(..) | Place::EachWithin(..) => self.pass_each(place, look),
            _ => self.pass_word(place, look),
        }
    }

    fn pass_each(&mut self, place: Place, look: &Look<'_>) {
        for _ in 0..look.beams {
            self.pass_word(place, look);
        }
    }

    fn pass_word(&mut self, place: Place, look: &Look<'_>) {
        if !self.is_whole() {
            return;
        }
        match self.words.next() {
            None => {
                self.at = self.at.saturating_sub(1);
                self.misfit = Misfit::Missing(place);
            }
            Some(word) if takes(place, word, look) => {
                self.at = self.at.saturating_add(word.len()).saturating_add(1);
                self.fit = self.fit.saturating_add(1);
            }
            Some(word) => {
                self.word = word;
                self.misfit = Misfit::Wrong(place);
            }
        }
    }

    /// Looks whether a word is left, where all fitted so far.
    fn end(&mut self) {
        if self.is_whole()
            && let Some(word) = self.words.next()
        {
            self.word = word;
            self.misfit = Misfit::Behind;
        }
    }
}

/// Whether a word may stand at a place.
fn takes(place: Place, word: &[u8], look: &Look<'_>) -> bool {
    match place {
        Place::Word(text) => is_word(word, text.as_bytes()),
        Place::Name => is_known(word, look.net),
        Place::Number(least, most) | Place::EachNumber(least, most) => {
            is_within(word, least, most, look.has_ranges)
        }
        Place::Within(least, most) | Place::EachWithin(least, most) => {
            is_within(word, least, most, true)
        }
        Place::Bytes => is_of_bytes(word),
        Place::Tag => is_tag(word),
    }
}

fn is_of_bytes(word: &[u8]) -> bool {
    !word.is_empty()
        && word.len().is_multiple_of(2)
        && word.iter().all(|digit| digit.is_ascii_hexdigit())
}

fn is_known(word: &[u8], net: Option<&Network>) -> bool {
    match net {
        Some(net) => net.terminal_named(word).is_some(),
        None => is_name(word),
    }
}

fn is_within(word: &[u8], least: u32, most: u32, has_range: bool) -> bool {
    number(word).is_some_and(|number| {
        !has_range || u64::from(least) <= number && number <= u64::from(most)
    })
}

/// The one of these forms that a line has, whatever its names and numbers are; None where it has none.
fn form_in(forms: Forms, line: &[u8], beams: u32) -> Option<&'static [Place]> {
    for form in forms {
        if Walk::along(line, form, &Look::shape(beams)).is_whole() {
            return Some(*form);
        }
    }
    None
}

/// The walk along the form that fits best, the first of these.
fn best_walk<'a>(forms: Forms, line: &'a [u8], look: &Look<'_>) -> Option<Walk<'a>> {
    let mut best: Option<Walk<'a>> = None;
    for form in forms {
        let walk = Walk::along(line, form, look);
        if is_better(&walk, &best) {
            best = Some(walk);
        }
    }
    best
}

fn is_better(walk: &Walk<'_>, best: &Option<Walk<'_>>) -> bool {
    match best {
        Some(best) => walk.fit > best.fit || walk.is_whole() && !best.is_whole(),
        None => true,
    }
}

/// Says what does not fit of the form that fits best.
pub fn find_misfit(alloc: Global, fault: &Fault<'_>, cause: &mut Cause) {
    let forms = forms_of(fault.letter, fault.at);
    let look = Look::shape(fault.beams);
    if let Some(walk) = best_walk(forms, fault.line, &look) {
        let choices = choices_of(alloc, forms, fault.line, walk.fit);
        say_misfit(alloc, &walk, choices.as_slice(), &look, cause);
        match walk.misfit {
            Misfit::Wrong(_) if fault.letter == b'S' && walk.fit == 0 => {
                ask_slip(alloc, walk.word, cause)
            }
            Misfit::Wrong(_) if walk.fit == 0 => ask_desk(walk.word, fault.letter, cause),
            Misfit::Behind if is_word(word_of(fault.line, 0), b"mode") => {
                cause.hint.add("a mode has ");
                add_place(Place::EachWithin(0, 0), fault.beams, &mut cause.hint);
            }
            _ => {}
        }
    }
}

/// Says what does not fit of the form that a line has by its shape.
pub fn find_in_form(alloc: Global, fault: &Fault<'_>, cause: &mut Cause) {
    let forms = forms_of(fault.letter, fault.at);
    if let Some(form) = form_in(forms, fault.line, fault.beams) {
        let look = Look::of(fault);
        let walk = Walk::along(fault.line, form, &look);
        let choices = choices_of(alloc, forms, fault.line, walk.fit);
        say_misfit(alloc, &walk, choices.as_slice(), &look, cause);
    }
}

/// What may stand behind so many words of a line of one of these forms, each once.
fn choices_of(alloc: Global, forms: Forms, line: &[u8], fit: usize) -> Vec<Place> {
    let mut choices: Vec<Place> = Vec::new(alloc);
    for form in forms {
        if let Some(place) = form.get(fit)
            && Walk::along(line, form, &Look::shape(0)).fit >= fit
            && !is_last(*place, choices.as_slice())
        {
            // where memory is wanting, less is told
            let _kept = choices.push(*place);
        }
    }
    choices
}

/// Whether a place stands last among others. Of numbers there is one at a place at most.
fn is_last(place: Place, others: &[Place]) -> bool {
    match (others.last(), place) {
        (Some(Place::Word(other)), Place::Word(word)) => {
            is_word(word.as_bytes(), other.as_bytes())
        }
        (Some(Place::Word(_)) | None, _) | (_, Place::Word(_)) => false,
        _ => true,
    }
}

/// Says what does not fit, where these may stand.
fn say_misfit(
    alloc: Global,
    walk: &Walk<'_>,
    choices: &[Place],
    look: &Look<'_>,
    cause: &mut Cause,
) {
    match walk.misfit {
        Misfit::Nothing => {}
        Misfit::Missing(place) => {
            cause.say_at(walk.at, 1, "the line ends here, and ");
            if choices.is_empty() {
                add_place(place, look.beams, &mut cause.why);
            } else {
                add_choices(choices, look.beams, &mut cause.why);
            }
            cause.say(" is wanting");
        }
        Misfit::Behind => cause.say_at(walk.at, walk.word.len(), "this word is one too many"),
        Misfit::Wrong(place) => {
            cause.mark(walk.at, walk.word.len());
            say_wrong(place, walk.word, choices, look, cause);
            if matches!(place, Place::Word(_) | Place::Name) && cause.hint.is_empty() {
                ask_choice(alloc, walk.word, choices, look.net, &mut cause.hint);
            }
        }
    }
}

/// Appends what may stand at a place.
fn add_choices(choices: &[Place], beams: u32, page: &mut Page) {
    let mut left = choices.len();
    for place in choices {
        add_place(*place, beams, page);
        left = left.saturating_sub(1);
        match left {
            0 => {}
            1 => page.add(" or "),
            _ => page.add(", "),
        }
    }
}

/// Appends what is to stand at a place.
fn add_place(place: Place, beams: u32, page: &mut Page) {
    match place {
        Place::Word(word) => {
            page.add("'");
            page.add(word);
            page.add("'");
        }
        Place::Name => page.add("the name of a terminal"),
        Place::Number(least, most) | Place::Within(least, most) | Place::EachNumber(least, most) =>
            {
                page.add("a number, ");
                add_range(least, most, page);
                page.add(",");
            }
        Place::EachWithin(..) => {
            page.add("one downlink beam, ");
            add_range(0, beams.saturating_sub(1), page);
            page.add(", for each of the ");
            page.add_number(u64::from(beams));
            page.add(" beams");
        }
        Place::Bytes => page.add("a message, two digits of base 16 a byte,"),
        Place::Tag => page.add("a tag"),
    }
}

fn add_range(least: u32, most: u32, page: &mut Page) {
    page.add_number(u64::from(least));
    page.add(" to ");
    page.add_number(u64::from(most));
}

/// Says why a word may not stand at a place, where these may.
fn say_wrong(place: Place, word: &[u8], choices: &[Place], look: &Look<'_>, cause: &mut Cause) {
    match place {
        Place::Word(_) if choices.len() > MOST_SAID => {
            cause.say("no line here begins with this word")
        }
        Place::Word(_) => {
            add_choices(choices, look.beams, &mut cause.why);
            cause.say(" is to stand here");
        }
        Place::Name if look.net.is_some() && is_name(word) => {
            cause.say("no terminal has this name")
        }
        Place::Name => say_bad_name(word, cause),
        Place::Number(least, most)
        | Place::Within(least, most)
        | Place::EachNumber(least, most)
        | Place::EachWithin(least, most) => say_number(word, least, most, cause),
        Place::Bytes => cause.say("a message has two digits of base 16 a byte"),
        Place::Tag => cause.say(BAD_TAG),
    }
}

/// Asks for what may have been meant by a word, of the words and the names that may stand in its place.
fn ask_choice(
    alloc: Global,
    word: &[u8],
    choices: &[Place],
    net: Option<&Network>,
    hint: &mut Page,
) {
    let mut near = Near::to(word);
    for place in choices {
        match (place, net) {
            (Place::Word(other), _) => near.look(alloc, other),
            (Place::Name, Some(net)) => near.look_at_terminals(alloc, net),
            _ => {}
        }
    }
    near.ask(hint);
    if !near.is_found()
        && let Some(net) = net
        && is_name(word)
    {
        name_terminals(net, hint);
        add_others(choices, hint);
    }
}

/// Appends what may stand in the place of a name, where that is more than the name.
fn add_others(choices: &[Place], hint: &mut Page) {
    if choices.len() > 1 {
        if !hint.is_empty() {
            hint.add("; ");
        }
        add_choices(choices, 0, hint);
        hint.add(" may stand here");
    }
}

/// Says why a word is no name.
pub fn say_bad_name(word: &[u8], cause: &mut Cause) {
    match word {
        [first, ..] if !first.is_ascii_alphabetic() => {
            cause.say("a name is to stand here, which begins with a letter")
        }
        _ if word.len() > 16 => cause.say("a name has 16 letters at most"),
        _ => cause.say("a name has letters, digits and underscores alone"),
    }
}

/// Says why a word is no number of a range.
pub fn say_number(word: &[u8], least: u32, most: u32, cause: &mut Cause) {
    match word {
        [b'0', b'0'..=b'9', ..] => cause.say(
            "a number does not begin with 0, unless that is all of it",
        ),
        [b'-' | b'+', ..] => cause.say("a number has no sign"),
        _ if number(word).is_none() => {
            cause.say("this is no number: digits alone are to stand here")
        }
        _ => {
            cause.say("this number is to be ");
            add_range(least, most, &mut cause.why);
        }
    }
}
