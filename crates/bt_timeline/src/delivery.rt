// The lines of deliveries.
ghost use Rattle.std.specs.Prelude.{◌≡◌, ◌++◌, OnOk, OnErr};
ghost use Rattle.bt_timeline.specs.Air.{IsPlaceOf, answer_name, got_line, heard_name, not_sent_line, place_name, taken_name, waiting_line};
ghost use Rattle.bt_words.specs.Lines.{word_bytes};

use bt_air::{Answer, Heard, Place, Taken};
use bt_frame::OutOfMemory;
use bt_net::Network;
use bt_words::{Form, Word, add_line, print};
use std::alloc::Global;

/// Appends the line of the delivery of the message of that number: who received it, and what the receiver did with it.
pub fn got_text(
    alloc: Global,
    net: &Network,
    number: u32,
    place: Place,
    answer: Answer,
    out: &mut Vec<u8>,
) -> Result<(), OutOfMemory>
    requires place { IsPlaceOf net.now place }
    ensures added { OnOk result (out.new.items ≡ out.old.items ++ got_line net.now number place answer) }
    ensures unchanged { OnErr result (out.new.items ≡ out.old.items) }
{
    let words = [
        Word::number(number),
        place_word(net, place),
        Word::Text(answer_text(answer)),
    ];
    print(alloc, Form::GotTerminal, &words, out)
}

/// Appends the line of a delivery of a message that was not sent.
pub fn not_sent_text(alloc: Global, number: u32, out: &mut Vec<u8>) -> Result<(), OutOfMemory>
    ensures added { OnOk result (out.new.items ≡ out.old.items ++ not_sent_line number) }
    ensures unchanged { OnErr result (out.new.items ≡ out.old.items) }
{
    print(alloc, Form::NotSent, &[Word::number(number)], out)
}

/// Appends the line of a delivery that is to come: of the message of that number, at a place.
pub fn waiting_text(
    alloc: Global,
    net: &Network,
    number: u32,
    place: Place,
    out: &mut Vec<u8>,
) -> Result<(), OutOfMemory>
    requires place { IsPlaceOf net.now place }
    ensures added { OnOk result (out.new.items ≡ out.old.items ++ waiting_line net.now (number, place)) }
    ensures unchanged { OnErr result (out.new.items ≡ out.old.items) }
{
    let words = [
        Word::Text("waiting"),
        Word::number(number),
        place_word(net, place),
    ];
    add_line(alloc, &words, out)
}

/// The name of a place.
fn place_word(net: &Network, place: Place) -> Word<'_>
    requires { IsPlaceOf net.now place }
    ensures { word_bytes result ≡ place_name net.now place }
{
    match place {
        Place::Satellite => Word::Text("sat"),
        Place::Centre => Word::Text("centre"),
        Place::Terminal(terminal) => Word::Text(net.name_of(terminal)),
    }
}

/// The printed word of what the receiver of a message does with it.
pub fn answer_text(answer: Answer) -> &'static str
    ensures word { result.now ≡ answer_name answer }
{
    match answer {
        Answer::Taken(taken) => taken_text(taken),
        Answer::Heard(heard) => heard_text(heard),
        Answer::Noted => "noted",
        Answer::NotForMe => "notforme",
    }
}

/// The printed word of what the satellite does with a message.
pub fn taken_text(taken: Taken) -> &'static str
    ensures word { result.now ≡ taken_name taken }
{
    match taken {
        Taken::Accepted => "accepted",
        Taken::Stale => "stale",
        Taken::Busy => "busy",
        Taken::NotLoaded => "notloaded",
        Taken::TooLate => "toolate",
        Taken::NotForMe => "notforme",
    }
}

/// The printed word of what a terminal does with a message.
pub fn heard_text(heard: Heard) -> &'static str
    ensures word { result.now ≡ heard_name heard }
{
    match heard {
        Heard::Took => "took",
        Heard::WrongMark => "wrongmark",
        Heard::Held => "held",
        Heard::Stored => "stored",
        Heard::Older => "older",
        Heard::InUse => "inuse",
        Heard::NotForMe => "notforme",
    }
}
