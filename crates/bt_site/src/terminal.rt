// A terminal as a site.
ghost use Rattle.std.specs.Prelude.{◌≡◌, Some};
ghost use Rattle.std.specs.Option.{option_to_list};
ghost use Rattle.bt_air.specs.declared.message.Message.{Message};
ghost use Rattle.bt_air.specs.declared.sent.Aired.TheVariants as sends;
ghost use Rattle.bt_demand.specs.Burst.{AreBursts};
ghost use Rattle.bt_machines.specs.Says.{confirmed_by, confirms, planned_in};
ghost use Rattle.bt_machines.specs.Terminal.{new_of, step_of as hear, transmitted};
ghost use Rattle.bt_site.specs.Sites.{aired_of, terminal_says, terminal_with};

use bt_air::{Aired, Heard, Message};
use bt_demand::Burst;
use bt_frame::{Command, EditionNo, Mark, TermNo};
use bt_machines::Terminal;
use std::alloc::Global;
use std::marker::Model;

/// A terminal, and what it says.
#[derive(Drop)]
pub struct TerminalSite {
    terminal: Terminal,
}

impl Model for TerminalSite {
    ghost use Rattle.bt_machines.specs.Terminal.{State};

    ghost Value = { State };

    ghost view = { λ a. a.terminal };
}

impl TerminalSite {
    /// The terminal of that number, which has heard nothing and holds nothing.
    pub fn start(alloc: Global, number: TermNo) -> TerminalSite
        ensures made { result ≡ new_of number }
    {
        TerminalSite {
            terminal: Terminal::new(alloc, number),
        }
    }

    /// It restarts, without what it held and had heard, and says so.
    pub fn restart(&mut self) -> Aired
        ensures state { self.new ≡ new_of self.old.number }
        ensures said { result ≡ sends.Lost self.old.number }
    {
        self.terminal.restart();
        Aired::Lost {
            from: self.terminal.number(),
        }
    }

    /// It hears a message in a superframe, and confirms the bursts that came where it holds them.
    pub fn hear(&mut self, mark: Mark, message: Message) -> (Heard, Option<Aired>)
        ensures state { self.new ≡ terminal_with self.old mark (Some message) }
        ensures answer { result.0 ≡ (hear self.old mark message).0 }
        ensures said { option_to_list result.1 ≡ terminal_says self.old.number self.old mark (Some message) }
    {
        let number = self.terminal.number();
        let planned = planned_in(&message);
        let heard = self.terminal.hear(mark, message);
        let confirmed = confirmed_by(number, planned, heard, &self.terminal);
        (heard, confirmed)
    }

    /// The bursts that it transmits in a superframe.
    pub fn sends(&self, mark: Mark) -> &[Burst]
        ensures bursts { result.now ≡ transmitted self.now mark }
        ensures in_order { AreBursts result.now }
    {
        self.terminal.sends(mark)
    }
}

/// The edition of the bursts that a message brings, if it brings some.
fn planned_in(message: &Message) -> Option<EditionNo>
    ensures { result ≡ planned_in message.now }
{
    match message {
        Message::PlanFor { edition, .. } => Some(*edition),
        _ => None,
    }
}

/// The Confirm of the bursts that came to a terminal, where it holds them: with the Load for which it then holds them.
fn confirmed_by(
    terminal: TermNo,
    planned: Option<EditionNo>,
    heard: Heard,
    after: &Terminal,
) -> Option<Aired>
    ensures { (message : Message) → planned ≡ planned_in message → option_to_list result ≡ confirmed_by terminal (aired_of message) (heard, after.now) }
{
    match planned {
        Some(edition) if matches!(heard, Heard::Held | Heard::Stored) => {
            confirm_of(terminal, edition, after.load_of(edition))
        }
        _ => None,
    }
}

/// The Confirm of an edition that is held for a Load, if it is.
fn confirm_of(from: TermNo, edition: EditionNo, load: Option<Command>) -> Option<Aired>
    ensures { option_to_list result ≡ confirms from edition load }
{
    match load {
        Some(load) => Some(Aired::Confirm {
            from,
            load,
            edition,
        }),
        None => None,
    }
}
