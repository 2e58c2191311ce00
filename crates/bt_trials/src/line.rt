// What only a run shows: the calls of several threads are all made, and memory that is there suffices for them.
ghost use Rattle.std.specs.Prelude.{◌≡◌, ◌≤◌, ◌<◌, ℕ, length, slice_index_or};
ghost use Rattle.bt_frame.specs.declared.limits.TheConstants.{MOST_CALLERS};
ghost use Rattle.bt_shared.specs.Passes.{IsOfLine, IsSamePass};

use crate::adder::Adder;
use bt_shared::{Line, Pass};
use std::alloc::Global;
use std::sync::Wait;
use std::test::Fail;
use std::thread::{Threads, for_each_chunk_mut};

// One caller adds 1, so many times.
fn add_many<R: Wait>(rt: &R, alloc: Global, line: &Line<Adder>, pass: &mut Pass<Adder>, calls: u32)
    requires of_line { IsOfLine line.now.table.shared.table_id line.now.table.shared.key.value pass.old.place }
    requires limit { 1 ≤ line.now.table.shared.key.value.limit }
    ensures { IsSamePass pass.old.place pass.new.place }
{
    for _ in 0..calls {
        let _answer = line.call(rt, alloc, pass, 1);
    }
}

// The caller of a piece of one pass.
fn add_as<R: Wait>(rt: &R, alloc: Global, line: &Line<Adder>, part: &mut [Pass<Adder>], calls: u32)
    requires one { length part.old ≡ 1 }
    requires limit { 1 ≤ line.now.table.shared.key.value.limit }
    requires of_line { (d : _) → IsOfLine line.now.table.shared.table_id line.now.table.shared.key.value (slice_index_or part.old 0 d).place }
    ensures { (d : _) → IsSamePass (slice_index_or part.old 0 d).place (slice_index_or part.new 0 d).place }
{
    add_many(rt, alloc, line, &mut part[0], calls);
}

// All callers at once.
fn add_all<R: Threads + Wait + Sync>(
    rt: &R,
    alloc: Global,
    line: &Line<Adder>,
    passes: &mut [Pass<Adder>],
    calls: u32,
)
    requires limit { 1 ≤ line.now.table.shared.key.value.limit }
    requires of_line { (i : ℕ) (d : _) → i < length passes.old → IsOfLine line.now.table.shared.table_id line.now.table.shared.key.value (slice_index_or passes.old i d).place }
    ensures length { length passes.new ≡ length passes.old }
    ensures each { (i : ℕ) (d : _) → i < length passes.old → IsSamePass (slice_index_or passes.old i d).place (slice_index_or passes.new i d).place }
{
    for_each_chunk_mut(
        rt,
        passes,
        1,
        &|_, part| add_as(rt, alloc, line, part, calls),
    );
}

// How many entries there are after these calls, and the sum.
fn entries_and_sum<R: Threads + Wait + Sync>(
    rt: &R,
    alloc: Global,
    seats: u32,
    calls: u32,
) -> Option<(usize, u64)>
    requires { (0 < seats) × (seats ≤ MOST_CALLERS) }
{
    let Ok((line, mut passes)) = Line::start(alloc, Adder::new(alloc, 10), seats) else {
        return None;
    };
    add_all(rt, alloc, &line, &mut passes[..], calls);
    let adder = line.close(passes);
    Some((adder.count(), adder.total()))
}

#[test]
fn two_threads_make_one_history(rt: HostRuntime) -> Result<(), Fail> {
    assert_eq!(rt;
        entries_and_sum(&rt, rt.alloc(), 2, 1000),
        Some((2000, 2000))
    );
    Ok(())
}

#[test]
fn all_seats_make_one_history(rt: HostRuntime) -> Result<(), Fail> {
    assert_eq!(rt; entries_and_sum(&rt, rt.alloc(), 64, 10), Some((640, 640)));
    assert_eq!(rt; entries_and_sum(&rt, rt.alloc(), 1, 10), Some((10, 10)));
    Ok(())
}
