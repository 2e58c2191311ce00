// The standby at work.
ghost use Rattle.std.specs.Prelude.{◌≡◌, ◌++◌, IfOk, IfSome, OnOk, Some};
ghost use Rattle.bt_air.specs.Range.{IsMark};
ghost use Rattle.bt_site.specs.Sites.{standby_with};
ghost use Rattle.bt_station.specs.Ready.{IsHeard};
ghost use Rattle.bt_station.specs.Standby.{heard_by_standby, second_lines, standby_after, standby_answer, standby_new};
ghost use Rattle.bt_station.specs.Terminal.{present_by};

use crate::asked::Asked;
use crate::say::add_said;
use bt_air::Message;
use bt_frame::{Mark, OutOfMemory};
use bt_script::BusLine;
use bt_site::{Present, StandbySite};
use bt_timeline::standby_burst_text;
use bt_words::{Form, Word, print};
use std::alloc::Global;
use std::marker::Model;

/// The standby, and the superframe that it takes for the present one.
#[derive(Drop)]
pub struct StandbyAtWork {
    site: StandbySite,
    present: Present,
}

impl Model for StandbyAtWork {
    ghost use Rattle.bt_station.specs.Standby.{StandbyAt};

    ghost Value = { StandbyAt };

    ghost view = { λ a. record { kept = a.site; present = a.present } };
}

impl StandbyAtWork {
    /// The standby at its start.
    pub fn start() -> StandbyAtWork
        ensures made { result ≡ standby_new }
    {
        StandbyAtWork {
            site: StandbySite::start(),
            present: Present::unknown(),
        }
    }

    /// What it says to what line `at` asks.
    pub(crate) fn answer(
        &mut self,
        alloc: Global,
        at: u64,
        asked: Asked,
    ) -> Result<Vec<u8>, OutOfMemory>
        requires ready { IfSome self.old.present IsMark }
        requires heard { IsHeard asked }
        ensures answer { IfOk result (λ text. text.items ≡ standby_answer at self.old asked) }
        ensures state { OnOk result (self.new ≡ standby_after self.old asked) }
        ensures ready { OnOk result (IfSome self.new.present IsMark) }
    {
        let mut text = Vec::new(alloc);
        match asked {
            Asked::Heard(BusLine::Begun(mark)) => {
                self.present.begin(mark);
            }
            Asked::Heard(BusLine::Radio(stamp, message)) => {
                if let Some(mark) = self.go_on(stamp)
                    && let Some(message) = message
                {
                    self.hear(alloc, at, mark, &message, &mut text)?;
                }
            }
            Asked::Second => self.second(alloc, &mut text)?,
            _ => {}
        }
        Ok(text)
    }

    /// It goes on to the superframe of a message, where it knows one. Gives the present one.
    fn go_on(&mut self, stamp: Mark) -> Option<Mark>
        ensures mark { result ≡ present_by self.old.present stamp }
        ensures state { self.new ≡ record { kept = self.old.kept; present = present_by self.old.present stamp } }
    {
        self.present.mark()?;
        self.present.begin(stamp);
        self.present.mark()
    }

    /// It hears a message in a superframe, and says what it did with a status.
    fn hear(
        &mut self,
        alloc: Global,
        at: u64,
        mark: Mark,
        message: &Message,
        out: &mut Vec<u8>,
    ) -> Result<(), OutOfMemory>
        ensures said { OnOk result (out.new.items ≡ out.old.items ++ heard_by_standby at self.old.kept (Some mark) (Some message.now)) }
        ensures state { self.new ≡ record { kept = standby_with self.old.kept mark (Some message.now); present = self.old.present } }
    {
        self.site.hear(mark, message);
        match message {
            Message::Status(status) if status.mark == mark => {
                print(alloc, Form::StandbyNoted, &[Word::Number(at)], out)
            }
            Message::Status(_) => print(alloc, Form::StandbyWrongMark, &[Word::Number(at)], out),
            _ => Ok(()),
        }
    }

    /// The second reference burst of the present superframe is said, where it knows one.
    fn second(&self, alloc: Global, out: &mut Vec<u8>) -> Result<(), OutOfMemory>
        requires ready { IfSome self.now.present IsMark }
        ensures said { OnOk result (out.new.items ≡ out.old.items ++ second_lines self.now.kept self.now.present) }
    {
        let Some(mark) = self.present.mark() else {
            return Ok(());
        };
        standby_burst_text(alloc, out)?;
        add_said(alloc, mark, self.site.says(mark), out)
    }
}
