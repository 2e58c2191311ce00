// The newest plan: its picture, and its modes.
ghost use Rattle.std.specs.Prelude.{◌≡◌, ◌++◌, flat_map, length, OnOk};
ghost use Rattle.bt_frame.specs.Critical.{IsOfBeams};
ghost use Rattle.bt_demand.specs.Apart.{AreBetweenTerminals};
ghost use Rattle.bt_plan_chart.specs.Scale.{whole};
ghost use Rattle.bt_chart.specs.Pieces.{mode_text};
ghost use Rattle.bt_chart.specs.Page.{mode_item, modes_text, picture_section};

use crate::pieces::add_words;
use bt_demand::Plan;
use bt_frame::{MOST_BEAMS, Mode, OutOfMemory};
use bt_net::Network;
use bt_plan_chart::{Choice, connections_of, plan_picture};
use bt_words::Word;
use std::alloc::Global;

/// Appends the picture of a plan.
pub(crate) fn add_picture(
    alloc: Global,
    net: &Network,
    plan: &Plan,
    out: &mut Vec<u8>,
) -> Result<(), OutOfMemory>
    requires terminals { AreBetweenTerminals net.now plan.now.bursts }
    requires critical { IsOfBeams (length net.now.beams) plan.now.schedule.critical }
    ensures { OnOk result (out.new.items ≡ out.old.items ++ picture_section net.now plan.now) }
{
    let words = [
        Word::Text("<section aria-labelledby='plan'>\n<h2 id='plan'>"),
        Word::Text("Newest plan</h2>\n<div class='plan' role='group'"),
        Word::Text(" tabindex='0' aria-label='picture of the newest plan'>\n"),
    ];
    add_words(alloc, &words, out)?;
    plan_picture(alloc, net, plan, whole(), out)?;
    add_words(alloc, &[Word::Text("</div>\n</section>\n")], out)
}

/// All beams, and all slots.
fn whole() -> Choice
    ensures { result ≡ whole }
{
    Choice {
        beams: [true; MOST_BEAMS],
        slots: None,
    }
}

/// Appends the list of modes, which are counted from 0.
pub(crate) fn add_modes(
    alloc: Global,
    net: &Network,
    modes: &[Mode],
    out: &mut Vec<u8>,
) -> Result<(), OutOfMemory>
    ensures { OnOk result (out.new.items ≡ out.old.items ++ modes_text net.now modes.now) }
{
    let words = [
        Word::Text("<section aria-labelledby='modes'>\n<h2 id='modes'>"),
        Word::Text("Modes of the newest plan, with their slots</h2>\n"),
        Word::Text("<ol start='0'>\n"),
    ];
    add_words(alloc, &words, out)?;
    add_items(alloc, net, modes, out)?;
    add_words(alloc, &[Word::Text("</ol>\n</section>\n")], out)
}

/// Appends the items of modes.
fn add_items(
    alloc: Global,
    net: &Network,
    modes: &[Mode],
    out: &mut Vec<u8>,
) -> Result<(), OutOfMemory>
    ensures { OnOk result (out.new.items ≡ out.old.items ++ flat_map (mode_item net.now) modes.now) }
{
    for mode in modes {
        add_mode(alloc, net, mode, out)?;
    }
    Ok(())
}

/// Appends the item of a mode.
fn add_mode(alloc: Global, net: &Network, mode: &Mode, out: &mut Vec<u8>) -> Result<(), OutOfMemory>
    ensures { OnOk result (out.new.items ≡ out.old.items ++ mode_item net.now mode.now) }
{
    let connections = connections_of(alloc, net, mode.perm.as_slice())?;
    add_mode_item(alloc, u64::from(mode.duration), connections.as_str(), out)
}

/// Appends the item of a mode of so many slots with its connections.
fn add_mode_item<'a>(
    alloc: Global,
    duration: u64,
    connections: &'a str,
    out: &mut Vec<u8>,
) -> Result<(), OutOfMemory>
    ensures { OnOk result (out.new.items ≡ out.old.items ++ mode_text duration connections.now) }
{
    let words = [
        Word::Text("<li><b>"),
        Word::Number(duration),
        Word::Text("</b>"),
        Word::Text(connections),
        Word::Text("</li>\n"),
    ];
    add_words(alloc, &words, out)
}
