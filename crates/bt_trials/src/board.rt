// What only a run shows: memory that is there suffices, and threads post and look at once.
ghost use Rattle.std.specs.Prelude.{◌≡◌};

use bt_demand::{Bursts, Plan};
use bt_frame::{BeamNo, Critical, EditionNo, Modes, Schedule};
use bt_shared::{Publisher, Reader, board};
use std::alloc::Global;
use std::sync::Wait;
use std::test::*;
use std::thread::{Threads, join_mut};

// A plan of no modes, which the tests tell apart by its edition and its length.
fn plan(alloc: Global, edition: u32, length: u32) -> Plan
    ensures { result.edition.0 ≡ edition }
{
    Plan {
        edition: EditionNo(edition),
        schedule: Schedule {
            length,
            critical: Critical::Row(BeamNo(0)),
            modes: Modes::of(Vec::new(alloc)),
        },
        bursts: Bursts::of(Vec::new(alloc)),
    }
}

#[test]
fn a_look_shows_what_was_posted(rt: HostRuntime) -> Result<(), Fail> {
    let alloc = rt.alloc();
    let (first, next) = (plan(alloc, 0, 1), plan(alloc, 5, 7));
    let Ok((mut publisher, mut readers)) = board(&rt, alloc, first, 1) else {
        return Err(Fail::from("no board"));
    };
    let mut reader = readers.remove(0);
    let before = reader.newest().edition.0;
    let posted = publisher.post(&rt, alloc, next);
    let looked = reader.look();
    let after = reader.newest().edition.0;
    publisher.close(&rt);
    assert!(rt; posted.is_ok() && looked.is_ok());
    assert_eq!(rt; (before, after), (0, 5));
    assert_eq!(rt; reader.newest().schedule.length, 7);
    Ok(())
}

#[test]
fn a_reader_that_meets_has_the_last_plan(rt: HostRuntime) -> Result<(), Fail> {
    let alloc = rt.alloc();
    let (first, next, last) = (plan(alloc, 0, 1), plan(alloc, 5, 7), plan(alloc, 6, 8));
    let Ok((mut publisher, mut readers)) = board(&rt, alloc, first, 2) else {
        return Err(Fail::from("no board"));
    };
    let mut one = readers.remove(1);
    let mut other = readers.remove(0);
    let posted = publisher.post(&rt, alloc, next);
    let met = publisher.meet(&rt, &mut one);
    let posted_last = publisher.post(&rt, alloc, last);
    let met_last = publisher.meet(&rt, &mut other);
    publisher.close(&rt);
    one.compare(&other);
    assert!(rt; posted.is_ok() && met.is_ok() && posted_last.is_ok() && met_last.is_ok());
    assert_eq!(rt; (one.newest().edition.0, other.newest().edition.0), (5, 6));
    Ok(())
}

// A post that answers that memory ran out has changed nothing: the next one comes through, and is what readers see.
#[test]
fn a_board_goes_on_after_a_refused_post(rt: HostRuntime) -> Result<(), Fail> {
    let alloc = rt.alloc();
    let (first, next, last) = (plan(alloc, 0, 1), plan(alloc, 5, 7), plan(alloc, 6, 8));
    let Ok((mut publisher, mut readers)) = board(&rt, alloc, first, 1) else {
        return Err(Fail::from("no board"));
    };
    let mut reader = readers.remove(0);
    let posted = publisher.post(&rt, alloc, next);
    let met = publisher.meet(&rt, &mut reader);
    let seen = reader.newest().edition.0;
    let posted_last = publisher.post(&rt, alloc, last);
    let met_last = publisher.meet(&rt, &mut reader);
    let shown = (
        publisher.newest().edition.0,
        reader.newest().edition.0,
        reader.newest().schedule.length,
    );
    publisher.close(&rt);
    assert!(rt; posted_last.is_ok() && met.is_ok() && met_last.is_ok());
    assert_eq!(rt; seen, if posted.is_ok() { 5 } else { 0 });
    assert_eq!(rt; shown, (6, 6, 8));
    Ok(())
}

// Posts the editions 1 to 299.
fn post_all<R: Wait>(rt: &R, alloc: Global, publisher: &mut Publisher) -> bool
    ensures { publisher.new.board ≡ publisher.old.board }
{
    let mut all = true;
    for edition in 1..300 {
        if publisher.newest().edition.0 < edition {
            all = all && publisher.post(rt, alloc, plan(alloc, edition, 3)).is_ok();
        }
    }
    all
}

// Looks a thousand times, and says whether what it saw never went back.
fn look_often(reader: &mut Reader) -> bool
    ensures { reader.new.board ≡ reader.old.board }
{
    let mut rises = true;
    for _ in 0..1000 {
        let before = reader.newest().edition.0;
        rises = rises && reader.look().is_ok() && before <= reader.newest().edition.0;
    }
    rises
}

// One thread posts while another looks.
fn at_once<R: Threads + Wait + Sync>(
    rt: &R,
    alloc: Global,
    publisher: &mut Publisher,
    reader: &mut Reader,
) -> (bool, bool)
    ensures publisher { publisher.new.board ≡ publisher.old.board }
    ensures reader { reader.new.board ≡ reader.old.board }
{
    join_mut(
        rt,
        &mut || post_all(rt, alloc, publisher),
        &mut || look_often(reader),
    )
}

#[test]
fn a_thread_looks_while_another_posts(rt: HostRuntime) -> Result<(), Fail> {
    let alloc = rt.alloc();
    let first = plan(alloc, 0, 1);
    let Ok((mut publisher, mut readers)) = board(&rt, alloc, first, 2) else {
        return Err(Fail::from("no board"));
    };
    let mut reader = readers.remove(1);
    let (posted, rises) = at_once(&rt, alloc, &mut publisher, &mut reader);
    let met = publisher.meet(&rt, &mut reader);
    publisher.close(&rt);
    assert!(rt; posted && rises && met.is_ok());
    assert_eq!(rt; reader.newest().edition.0, 299);
    Ok(())
}
