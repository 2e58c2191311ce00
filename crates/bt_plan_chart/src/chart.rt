// The picture, from its head to its foot.
ghost use Rattle.std.specs.Prelude.{◌≡◌, ◌++◌, length, OnOk};
ghost use Rattle.bt_frame.specs.Critical.{IsOfBeams};
ghost use Rattle.bt_demand.specs.Apart.{AreBetweenTerminals};
ghost use Rattle.bt_picture.specs.Picture.{picture_text};
ghost use Rattle.bt_plan_chart.specs.Chart.{chart_parts, plan_picture};
ghost use Rattle.bt_plan_chart.specs.Parts.{parts_text};
ghost use Rattle.bt_plan_chart.specs.Scale.{IsScale};

use crate::bursts::{add_bursts, add_overruns};
use crate::clashes::add_clashes;
use crate::heading::{add_heading, add_ruler};
use crate::lanes::add_lanes;
use crate::legend::add_legend;
use crate::modes::add_modes;
use crate::scale::{height_of, scale_of, width_of};
use crate::{Choice, Direction, Scale};
use bt_demand::Plan;
use bt_frame::OutOfMemory;
use bt_net::Network;
use bt_picture::{write_foot, write_head};
use std::alloc::Global;

/// Appends the picture of what is chosen of a plan of a network, as SVG: what stands in which slot of which lane, whether the
/// plan is good or not. Want of memory leaves a first part of it.
pub fn plan_picture(
    alloc: Global,
    net: &Network,
    plan: &Plan,
    choice: Choice,
    out: &mut Vec<u8>,
) -> Result<(), OutOfMemory>
    requires terminals { AreBetweenTerminals net.now plan.now.bursts }
    requires critical { IsOfBeams (length net.now.beams) plan.now.schedule.critical }
    ensures written { OnOk result (out.new.items ≡ out.old.items ++ picture_text (plan_picture net.now plan.now choice)) }
{
    let scale = scale_of(net, plan, choice);
    write_head(alloc, width_of(scale), height_of(scale), out)?;
    add_chart(alloc, net, scale, plan, choice, out)?;
    write_foot(out)
}

/// Appends all parts of the picture.
fn add_chart(
    alloc: Global,
    net: &Network,
    scale: Scale,
    plan: &Plan,
    choice: Choice,
    out: &mut Vec<u8>,
) -> Result<(), OutOfMemory>
    requires scale { IsScale scale }
    requires beams { scale.beams ≡ length net.now.beams }
    requires terminals { AreBetweenTerminals net.now plan.now.bursts }
    requires critical { IsOfBeams (length net.now.beams) plan.now.schedule.critical }
    ensures { OnOk result (out.new.items ≡ out.old.items ++ parts_text (chart_parts net.now scale plan.now choice)) }
{
    add_heading(alloc, net, plan, choice, out)?;
    add_ruler(alloc, scale, out)?;
    add_modes(alloc, net, scale, plan.schedule.modes.as_slice(), out)?;
    add_lanes(alloc, net, scale, plan, Direction::Up, out)?;
    add_lanes(alloc, net, scale, plan, Direction::Down, out)?;
    add_bursts(alloc, net, scale, plan.bursts.as_slice(), out)?;
    add_overruns(alloc, net, scale, plan.bursts.as_slice(), out)?;
    add_clashes(
        alloc,
        net,
        scale,
        Direction::Up,
        plan.bursts.as_slice(),
        out,
    )?;
    add_clashes(
        alloc,
        net,
        scale,
        Direction::Down,
        plan.bursts.as_slice(),
        out,
    )?;
    add_legend(alloc, net, scale, out)
}
