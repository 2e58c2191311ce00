// The lines of a demand whose links gain and lose slots.
use crate::texts::put_links;
use bt_demand::Demand;
use bt_frame::TermNo;
use bt_matrix::MOST_SUM;
use bt_sheet::{CaseFault, Result, byte_of, number_of};
use std::alloc::Global;

/// The link gains so many slots. Appends all links of a copy.
pub fn put_gain(
    alloc: Global,
    demand: &mut Demand,
    from: &str,
    to: &str,
    units: &str,
    out: &mut String,
) -> Result<()> {
    gain(alloc, demand, link_of(from, to, units)?)?;
    put_copy(alloc, demand, out)
}

/// The numbers of the ends, and the slots.
fn link_of(from: &str, to: &str, units: &str) -> Result<(u8, u8, u32)> {
    Ok((byte_of(from)?, byte_of(to)?, number_of(units)?))
}

fn gain(alloc: Global, demand: &mut Demand, link: (u8, u8, u32)) -> Result<()> {
    let (from, to, units) = link;
    let held = demand.units(TermNo(from), TermNo(to));
    if from == to || units == 0 {
        return Err(CaseFault("no gain"));
    }
    if MOST_SUM < held || MOST_SUM - held < units {
        return Err(CaseFault("too much"));
    }
    if demand.add(alloc, TermNo(from), TermNo(to), units).is_err() {
        return Err(CaseFault("out of memory"));
    }
    Ok(())
}

/// The link loses so many slots. Appends all links of a copy.
pub fn put_loss(
    alloc: Global,
    demand: &mut Demand,
    from: &str,
    to: &str,
    units: &str,
    out: &mut String,
) -> Result<()> {
    lose(demand, link_of(from, to, units)?)?;
    put_copy(alloc, demand, out)
}

fn lose(demand: &mut Demand, link: (u8, u8, u32)) -> Result<()> {
    let (from, to, units) = link;
    let held = demand.units(TermNo(from), TermNo(to));
    if units == 0 || held < units {
        return Err(CaseFault("no loss"));
    }
    demand.take(TermNo(from), TermNo(to), units);
    Ok(())
}

fn put_copy(alloc: Global, demand: &Demand, out: &mut String) -> Result<()> {
    match demand.copy(alloc) {
        Ok(copy) => put_links(&copy, out),
        Err(_full) => Err(CaseFault("out of memory")),
    }
}

/// Appends the slots of a link.
pub fn put_units(demand: &Demand, from: &str, to: &str, out: &mut String) -> Result<()> {
    let units = demand.units(TermNo(byte_of(from)?), TermNo(byte_of(to)?));
    write!(out, ">{units}\n")?;
    Ok(())
}
