// Traffic between all of so many terminals.
use crate::fault::Result;
use std::alloc::Global;

/// Appends a line with so many units for each link between the terminals `t0`, `t1` and so on, in order.
pub fn put_links(alloc: Global, terminals: u32, units: u32, bytes: &mut Vec<u8>) -> Result<()> {
    for from in 0..terminals {
        for to in 0..terminals {
            if from != to {
                put_link(alloc, [from, to], units, bytes)?;
            }
        }
    }
    Ok(())
}

fn put_link(alloc: Global, ends: [u32; 2], units: u32, bytes: &mut Vec<u8>) -> Result<()> {
    let [from, to] = ends;
    let line = format!(in alloc; "link t{from} t{to} {units}\n")?;
    Ok(bytes.extend_from_slice(line.as_bytes())?)
}
