// What the links of a demand have beyond those of another.
ghost use Rattle.std.specs.Prelude.{◌≡◌, ◌++◌, IfOk, OnOk};
ghost use Rattle.bt_demand.specs.Rows.{all_links};
ghost use Rattle.bt_export.specs.Edits.{more_than, surplus};

use bt_demand::{Demand, Link, LinkRow};
use bt_frame::OutOfMemory;
use std::alloc::Global;

/// What each link has beyond what it has among the others, in order; a link that has no more is left out.
pub fn surplus(alloc: Global, links: &Demand, others: &Demand) -> Result<Vec<Link>, OutOfMemory>
    ensures surplus { IfOk result (λ found. found.items ≡ surplus links.now others.now) }
{
    let mut found = Vec::new(alloc);
    add_rows(links.rows(), others, &mut found)?;
    Ok(found)
}

/// Puts what the links of rows have beyond the others behind what was found.
fn add_rows(rows: &[LinkRow], others: &Demand, found: &mut Vec<Link>) -> Result<(), OutOfMemory>
    ensures { OnOk result (found.new.items ≡ found.old.items ++ surplus (all_links rows.now) others.now) }
{
    for row in rows {
        add_links(row.as_slice(), others, found)?;
    }
    Ok(())
}

/// The same of links.
fn add_links(links: &[Link], others: &Demand, found: &mut Vec<Link>) -> Result<(), OutOfMemory>
    ensures { OnOk result (found.new.items ≡ found.old.items ++ surplus links.now others.now) }
{
    for link in links {
        add_link(*link, others, found)?;
    }
    Ok(())
}

/// The same of one link.
fn add_link(link: Link, others: &Demand, found: &mut Vec<Link>) -> Result<(), OutOfMemory>
    ensures { OnOk result (found.new.items ≡ found.old.items ++ more_than others.now link) }
{
    let units = link.units.saturating_sub(others.units(link.from, link.to));
    if units > 0 {
        found.push(Link { units, ..link })?;
    }
    Ok(())
}
