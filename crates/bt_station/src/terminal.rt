// A terminal at work.
ghost use Rattle.std.specs.Prelude.{◌≡◌, ◌++◌, IfOk, OnOk, None, Some};
ghost use Rattle.bt_net.specs.Terminals.{IsTerminal};
ghost use Rattle.bt_site.specs.Present.{present_with};
ghost use Rattle.bt_site.specs.Sites.{terminal_with};
ghost use Rattle.bt_station.specs.Ready.{IsConfirmOf, IsHeard};
ghost use Rattle.bt_station.specs.Terminal.{heard_by_terminal, heard_line, present_by, sent_in, start_lines, terminal_after, terminal_answer, terminal_of};
ghost use Rattle.bt_station.specs.Lines.{burst_frame_lines, radio_line};

use crate::asked::Asked;
use crate::say::{add_burst_frame, add_said};
use bt_air::{Aired, Heard, Message};
use bt_frame::{Mark, OutOfMemory, TermNo};
use bt_net::Network;
use bt_script::BusLine;
use bt_site::{Present, TerminalSite};
use bt_timeline::heard_text;
use bt_words::{Form, Word, print};
use std::alloc::Global;
use std::marker::Model;

/// A terminal, and the superframe that it takes for the present one.
#[derive(Drop)]
pub struct TerminalAtWork {
    number: TermNo,
    site: TerminalSite,
    present: Present,
}

impl Model for TerminalAtWork {
    ghost use Rattle.std.specs.Prelude.{◌≡◌};
    ghost use Rattle.bt_station.specs.Terminal.{TerminalAt};

    ghost Value = { TerminalAt };

    ghost view = { λ a. record { site = a.site; present = a.present } };

    ghost invariant = { λ a. a.number ≡ a.site.number };
}

impl TerminalAtWork {
    /// The terminal of that number at its start.
    pub fn start(alloc: Global, number: TermNo) -> TerminalAtWork
        ensures made { result ≡ terminal_of number }
    {
        TerminalAtWork {
            number,
            site: TerminalSite::start(alloc, number),
            present: Present::unknown(),
        }
    }

    /// What it says at its start: that it is lost, and knows no superframe.
    pub(crate) fn opening(&self, alloc: Global, net: &Network) -> Result<Vec<u8>, OutOfMemory>
        requires known { IsTerminal net.now self.now.site.number }
        ensures text { IfOk result (λ text. text.items ≡ start_lines self.now.site.number) }
    {
        // This is there for what holds of each network: its terminals are few.
        let _terminals = net.terminal_count();
        let mut text = Vec::new(alloc);
        add_said(alloc, Mark(0), Aired::Lost { from: self.number }, &mut text)?;
        Ok(text)
    }

    /// What it says to what line `at` asks.
    pub(crate) fn answer(
        &mut self,
        alloc: Global,
        net: &Network,
        at: u64,
        asked: Asked,
    ) -> Result<Vec<u8>, OutOfMemory>
        requires known { IsTerminal net.now self.old.site.number }
        requires heard { IsHeard asked }
        ensures answer { IfOk result (λ text. text.items ≡ terminal_answer net.now at self.old asked) }
        ensures state { OnOk result (self.new ≡ terminal_after self.old asked) }
        ensures number { self.new.site.number ≡ self.old.site.number }
    {
        let mut text = Vec::new(alloc);
        match asked {
            Asked::Heard(BusLine::Begun(mark)) => {
                self.present.begin(mark);
            }
            Asked::Heard(BusLine::Radio(stamp, message)) => {
                if let Some(mark) = self.go_on(stamp)
                    && let Some(message) = message
                {
                    self.hear(alloc, net, at, mark, message, &mut text)?;
                }
            }
            Asked::FrameOf(mark, number) => self.transmit(alloc, net, mark, number, &mut text)?,
            _ => {}
        }
        Ok(text)
    }

    /// It goes on to the superframe of a message, where it knows one. Gives the present one.
    fn go_on(&mut self, stamp: Mark) -> Option<Mark>
        ensures mark { result ≡ present_by self.old.present stamp }
        ensures state { self.new ≡ record { site = self.old.site; present = present_by self.old.present stamp } }
    {
        self.present.mark()?;
        self.present.begin(stamp);
        self.present.mark()
    }

    /// It hears a message in a superframe, and says what it did with it, and its Confirm.
    #[tactic(auto, using(crate::proofs::Confirms::number_kept, crate::proofs::Confirms::confirm_said))]
    fn hear(
        &mut self,
        alloc: Global,
        net: &Network,
        at: u64,
        mark: Mark,
        message: Message,
        out: &mut Vec<u8>,
    ) -> Result<(), OutOfMemory>
        requires known { IsTerminal net.now self.old.site.number }
        ensures said { OnOk result (out.new.items ≡ out.old.items ++ heard_by_terminal net.now at self.old.site (Some mark) (Some message)) }
        ensures state { self.new ≡ record { site = terminal_with self.old.site mark (Some message); present = self.old.present } }
        ensures number { self.new.site.number ≡ self.old.site.number }
    {
        let (heard, said) = self.site.hear(mark, message);
        add_heard(alloc, net, at, self.number, heard, out)?;
        match said {
            Some(said) => add_confirm(alloc, net, self.number, mark, said, out),
            None => Ok(()),
        }
    }

    /// Its modem is in a frame of a superframe, and asks what to transmit: it goes on to that one, and transmits nothing
    /// where it knows of a later one.
    fn transmit(
        &mut self,
        alloc: Global,
        net: &Network,
        mark: Mark,
        number: u32,
        out: &mut Vec<u8>,
    ) -> Result<(), OutOfMemory>
        ensures said { OnOk result (out.new.items ≡ out.old.items ++ burst_frame_lines net.now mark number (sent_in self.old mark)) }
        ensures state { self.new ≡ record { site = self.old.site; present = present_with self.old.present mark } }
    {
        self.present.begin(mark);
        let bursts = if self.present.mark() == Some(mark) {
            self.site.sends(mark)
        } else {
            &[]
        };
        add_burst_frame(alloc, net, mark, number, bursts, out)
    }
}

/// Appends the line of what a terminal did with a message that line `at` brought, where that was for it.
fn add_heard(
    alloc: Global,
    net: &Network,
    at: u64,
    number: TermNo,
    heard: Heard,
    out: &mut Vec<u8>,
) -> Result<(), OutOfMemory>
    requires known { IsTerminal net.now number }
    ensures added { OnOk result (out.new.items ≡ out.old.items ++ heard_line net.now at number heard) }
{
    if let Heard::NotForMe = heard {
        return Ok(());
    }
    let words = [
        Word::Number(at),
        Word::Text(net.name_of(number)),
        Word::Text(heard_text(heard)),
    ];
    print(alloc, Form::GotTerminal, &words, out)
}

/// Appends the line of the Confirm of a terminal of that number.
fn add_confirm(
    alloc: Global,
    net: &Network,
    number: TermNo,
    mark: Mark,
    said: Aired,
    out: &mut Vec<u8>,
) -> Result<(), OutOfMemory>
    requires known { IsTerminal net.now number }
    requires confirm { IsConfirmOf number said }
    ensures added { OnOk result (out.new.items ≡ out.old.items ++ radio_line mark said) }
{
    // This is there for what holds of each network: its terminals are few.
    let _terminals = net.terminal_count();
    match said {
        Aired::Confirm {
            from,
            load,
            edition,
        } => {
            let said = Aired::Confirm {
                from,
                load,
                edition,
            };
            add_said(alloc, mark, said, out)
        }
        _ => Ok(()),
    }
}
