// The lines of replies, to a desk and to the planner.
ghost use Rattle.std.specs.Prelude.{◌≡◌, ◌++◌, None, OnOk, OnErr};
ghost use Rattle.bt_timeline.specs.Timeline.{AnswersEdit, IsPrinted, desk_reply_line, plan_reply_line};

use crate::install::{installed_text, not_good_text};
use bt_frame::OutOfMemory;
use bt_journal::{Entry, Reply};
use bt_net::Network;
use bt_words::{Form, Word, print};
use std::alloc::Global;

/// Appends the line of the reply to an edit of a desk.
#[rattlefmt::skip]
pub(crate) fn desk_reply_text(
    alloc: Global,
    net: &Network,
    desk: u8,
    reply: &Reply,
    out: &mut Vec<u8>,
) -> Result<(), OutOfMemory>
    requires { AnswersEdit net.now reply.now }
    ensures added { OnOk result (out.new.items ≡ out.old.items ++ desk_reply_line net.now desk reply.now) }
    ensures unchanged { OnErr result (out.new.items ≡ out.old.items) }
{
    let desk = Word::Number(u64::from(desk));
    match reply {
        Reply::Done { edition, length } => print(alloc, Form::DeskDone, &[desk, Word::number(edition.0), Word::number(*length)], out),
        Reply::SameTerminal             => print(alloc, Form::DeskSameTerminal, &[desk], out),
        Reply::NotThere { held }        => print(alloc, Form::DeskNotThere, &[desk, Word::number(*held)], out),
        Reply::RowFull { beam, sum }    => print(alloc, Form::DeskRowFull, &[desk, Word::Text(net.beam_name(*beam)), Word::number(*sum)], out),
        Reply::ColumnFull { beam, sum } => print(alloc, Form::DeskColumnFull, &[desk, Word::Text(net.beam_name(*beam)), Word::number(*sum)], out),
        Reply::BookFull { length }      => print(alloc, Form::DeskBookFull, &[desk, Word::number(*length)], out),
        Reply::StoreFault               => print(alloc, Form::DeskStoreFault, &[desk], out),
        Reply::Stopped                  => print(alloc, Form::DeskStopped, &[desk], out),
        _                               => unreachable!(),
    }
}

/// Appends the line of the reply to a call of the planner.
#[rattlefmt::skip]
pub(crate) fn plan_reply_text(
    alloc: Global,
    net: &Network,
    entry: &Entry,
    out: &mut Vec<u8>,
) -> Result<(), OutOfMemory>
    requires { IsPrinted net.now None entry.now }
    ensures added { OnOk result (out.new.items ≡ out.old.items ++ plan_reply_line net.now entry.now.call entry.now.reply) }
    ensures unchanged { OnErr result (out.new.items ≡ out.old.items) }
{
    match &entry.reply {
        Reply::Done { edition, length } => print(alloc, Form::PlanDone, &[Word::number(edition.0), Word::number(*length)], out),
        Reply::SameTerminal             => print(alloc, Form::PlanSameTerminal, &[], out),
        Reply::NotThere { held }        => print(alloc, Form::PlanNotThere, &[Word::number(*held)], out),
        Reply::RowFull { beam, sum }    => print(alloc, Form::PlanRowFull, &[Word::Text(net.beam_name(*beam)), Word::number(*sum)], out),
        Reply::ColumnFull { beam, sum } => print(alloc, Form::PlanColumnFull, &[Word::Text(net.beam_name(*beam)), Word::number(*sum)], out),
        Reply::BookFull { length }      => print(alloc, Form::PlanBookFull, &[Word::number(*length)], out),
        Reply::NotNewer { newest }      => print(alloc, Form::PlanNotNewer, &[Word::number(newest.0)], out),
        Reply::NoSuchEdition { last }   => print(alloc, Form::PlanNoSuchEdition, &[Word::number(last.0)], out),
        Reply::NotGood { verdict }      => not_good_text(alloc, net, verdict, out),
        Reply::Demand { .. }            => print(alloc, Form::NothingNew, &[], out),
        Reply::Installed { edition }    => installed_text(alloc, &entry.call, *edition, out),
        Reply::StoreFault               => print(alloc, Form::PlanStoreFault, &[], out),
        Reply::Stopped                  => print(alloc, Form::PlanStopped, &[], out),
        _                               => unreachable!(),
    }
}
