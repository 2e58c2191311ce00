// The satellite at work.
ghost use Rattle.std.specs.Prelude.{◌≡◌, ◌++◌, IfOk, OnOk, Some};
ghost use Rattle.bt_air.specs.Range.{IsInRange, IsMark, IsStatus};
ghost use Rattle.bt_machines.specs.Satellite.{status_of};
ghost use Rattle.bt_station.specs.Ready.{IsHeard};
ghost use Rattle.bt_station.specs.Satellite.{begun_lines, frame_lines, having_heard, having_shown, having_ticked, heard_by_satellite, satellite_after, satellite_answer, satellite_in, taken_line, tick_lines};

use crate::asked::Asked;
use crate::say::{add_modes, add_said};
use bt_air::{Aired, Message, Status, Taken};
use bt_frame::{LAST_MARK, Mark, OutOfMemory};
use bt_net::Network;
use bt_script::{BusLine, add_mark};
use bt_site::SatelliteSite;
use bt_timeline::{last_tick_text, over_text, taken_text};
use bt_words::{Form, Word, print};
use std::alloc::Global;
use std::marker::Model;

/// The satellite, and how many frames of its superframe it has shown.
#[derive(Drop)]
pub struct SatelliteAtWork {
    site: SatelliteSite,
    shown: u32,
}

impl Model for SatelliteAtWork {
    ghost use Rattle.bt_station.specs.Satellite.{SatelliteAt};

    ghost Value = { SatelliteAt };

    ghost view = { λ a. record { site = a.site; shown = a.shown } };
}

impl SatelliteAtWork {
    /// The satellite before its first command, in a superframe.
    pub fn start(alloc: Global, mark: Mark) -> SatelliteAtWork
        requires mark { IsMark mark }
        ensures made { result ≡ satellite_in mark }
        ensures ready { IsStatus (status_of result.site) }
    {
        SatelliteAtWork {
            site: SatelliteSite::start(alloc, mark),
            shown: 0,
        }
    }

    /// What it says to what line `at` asks.
    pub(crate) fn answer(
        &mut self,
        alloc: Global,
        net: &Network,
        at: u64,
        asked: Asked,
    ) -> Result<Vec<u8>, OutOfMemory>
        requires ready { IsStatus (status_of self.old.site) }
        requires heard { IsHeard asked }
        ensures answer { IfOk result (λ text. text.items ≡ satellite_answer net.now at self.old asked) }
        ensures state { OnOk result (self.new ≡ satellite_after net.now self.old asked) }
        ensures ready { OnOk result (IsStatus (status_of self.new.site)) }
    {
        let mut text = Vec::new(alloc);
        match asked {
            Asked::Tick => self.tick(alloc, &mut text)?,
            Asked::Heard(BusLine::Radio(_, Some(message))) => {
                self.hear(alloc, net, at, message, &mut text)?
            }
            Asked::Frame => self.show(alloc, net, &mut text)?,
            _ => {}
        }
        Ok(text)
    }

    /// Its next superframe begins, and its status in it is said; there is none after the last.
    fn tick(&mut self, alloc: Global, out: &mut Vec<u8>) -> Result<(), OutOfMemory>
        requires ready { IsStatus (status_of self.old.site) }
        ensures said { OnOk result (out.new.items ≡ out.old.items ++ tick_lines self.old.site) }
        ensures state { OnOk result (self.new ≡ having_ticked self.old) }
        ensures ready { OnOk result (IsStatus (status_of self.new.site)) }
    {
        if LAST_MARK <= self.site.status().mark.0 {
            return last_tick_text(alloc, out);
        }
        let status = self.site.tick();
        self.shown = 0;
        add_begun(alloc, status, out)
    }

    /// It hears a message, and says what it did with it, and its new status, where it carried it out.
    fn hear(
        &mut self,
        alloc: Global,
        net: &Network,
        at: u64,
        message: Message,
        out: &mut Vec<u8>,
    ) -> Result<(), OutOfMemory>
        requires ready { IsStatus (status_of self.old.site) }
        requires in_range { IsInRange message }
        ensures said { OnOk result (out.new.items ≡ out.old.items ++ heard_by_satellite net.now at self.old.site (Some message)) }
        ensures state { self.new ≡ having_heard self.old (Some message) }
        ensures ready { IsStatus (status_of self.new.site) }
    {
        let (taken, said) = self.site.hear(message);
        add_taken(alloc, net, at, taken, out)?;
        match said {
            Some(said) => add_said(alloc, self.site.status().mark, said, out),
            None => Ok(()),
        }
    }

    /// The next frame of its superframe is shown, with the modes in front.
    fn show(&mut self, alloc: Global, net: &Network, out: &mut Vec<u8>) -> Result<(), OutOfMemory>
        ensures said { OnOk result (out.new.items ≡ out.old.items ++ frame_lines net.now self.old) }
        ensures state { OnOk result (self.new ≡ having_shown net.now self.old) }
        ensures site { self.new.site ≡ self.old.site }
    {
        let status = self.site.status();
        if net.frames() <= self.shown {
            return over_text(alloc, status.mark, out);
        }
        let words = [
            Word::Frame(status.mark, self.shown),
            Word::number(status.fore.0),
        ];
        self.shown += 1;
        print(alloc, Form::Frame, &words, out)?;
        add_modes(alloc, self.site.modes(), out)
    }
}

/// Appends that a superframe begins, and the status in it.
fn add_begun(alloc: Global, status: Status, out: &mut Vec<u8>) -> Result<(), OutOfMemory>
    requires in_range { IsStatus status }
    ensures added { OnOk result (out.new.items ≡ out.old.items ++ begun_lines status) }
{
    add_mark(alloc, status.mark, out)?;
    add_said(alloc, status.mark, Aired::Status(status), out)
}

/// Appends the line of what the satellite did with a message that line `at` brought, where that was for it.
fn add_taken(
    alloc: Global,
    net: &Network,
    at: u64,
    taken: Taken,
    out: &mut Vec<u8>,
) -> Result<(), OutOfMemory>
    ensures added { OnOk result (out.new.items ≡ out.old.items ++ taken_line net.now at taken) }
{
    if let Taken::NotForMe = taken {
        return Ok(());
    }
    let words = [
        Word::Number(at),
        Word::Text("sat"),
        Word::Text(taken_text(taken)),
    ];
    print(alloc, Form::GotTerminal, &words, out)
}
