// A machine is recovered from a store of records.
ghost use Rattle.std.specs.Prelude.{◌≡◌, ◌≤◌, ◌⊎◌, [], Some, length, take, IfOk, IfErr, IfSome, IsErrOf, OnErr, OnOk, option_map};
ghost use Rattle.bt_frame.specs.declared.limits.TheConstants.{MOST_JOURNAL_BYTES};
ghost use Rattle.bt_outside.specs.Told.{Gives, GainsPrefix, HasCause, gained};
ghost use Rattle.bt_outside.specs.Crash.{Elapses, IsSettled, LeavesSince};
ghost use Rattle.bt_history.specs.Causes.{Follows};
ghost use Rattle.bt_history.specs.Machine.{running};
ghost use Rattle.bt_history.specs.Records.{IsAppendFault, IsLeftOrCut};
ghost use Rattle.bt_history.specs.Recovery.{AreInRange, IsReadable, IsRecoverFault, MaybeCut, Recovered, mark_where, marked, whole};

use crate::RecoverFault;
use crate::machine::Machine;
use crate::replay::Taken;
use bt_frame::MOST_JOURNAL_BYTES;
use bt_journal::{lines_end_once, lines_tell_changes, mark_text, marks_tell_sizes};
use bt_net::Network;
use bt_outside::{KeepFault, Keeper};
use std::alloc::Global;

/// Reads the store, makes the changes of all its lines again, then cuts what stands behind the last newline, and then appends
/// the mark where it is owed.
pub(crate) fn recover_machine<K: Keeper>(
    alloc: Global,
    net: &Network,
    store: &mut K,
) -> Result<Machine, RecoverFault>
    ensures net { IfOk result (λ machine. machine.net ≡ net.now) }
    ensures history { IfOk result (λ machine. machine.history ≡ []) }
    ensures state { IfOk result (λ machine. machine.state ≡ running machine.state.changes) }
    ensures changes { IfOk result (λ machine. IfSome (K.told store.old) (λ bytes. Recovered net.now bytes machine.state.changes)) }
    ensures readable { IfOk result (λ _. IsReadable (K.told store.old)) }
    ensures follows { IfOk result (λ machine. Follows net.now machine.state.changes) }
    ensures ranges { IfOk result (λ machine. AreInRange net.now 0 machine.state.changes) }
    ensures told { IfOk result (λ machine. K.told store.new ≡ option_map (marked net.now) (K.told store.old)) }
    ensures later { K.fault_count store.old ≤ K.fault_count store.new }
    ensures fault { IfErr result (IsRecoverFault net.now (K.told store.old) (K.told store.new) (K.fault_count store.old) (K.fault_count store.new)) }
    ensures settled { OnOk result (IsSettled (K.told store.new) (K.crashes store.new)) }
    ensures time { Elapses (K.crashes store.old) (K.crashes store.new) }
    ensures crash { LeavesSince (K.crashes store.old) (K.crashes store.new) (IsLeftOrCut net.now (K.told store.old) (K.crashes store.old)) }
{
    let mut machine = Machine::open(alloc, net)?;
    match take_store(alloc, &mut machine, store) {
        Ok(()) => Ok(machine),
        Err(fault) => {
            // All that the machine holds goes with its history.
            machine.into_history();
            Err(fault)
        }
    }
}

/// Makes the changes of all lines of a store again, on a machine that has made none, then cuts what the store has behind its
/// last newline, and then appends the mark where it is owed.
fn take_store<K: Keeper>(
    alloc: Global,
    machine: &mut Machine,
    store: &mut K,
) -> Result<(), RecoverFault>
    requires state { machine.old.state ≡ running [] }
    requires history { machine.old.history ≡ [] }
    ensures net { machine.new.net ≡ machine.old.net }
    ensures history { machine.new.history ≡ [] }
    ensures state { OnOk result (machine.new.state ≡ running machine.new.state.changes) }
    ensures changes { OnOk result (IfSome (K.told store.old) (λ bytes. Recovered machine.old.net bytes machine.new.state.changes)) }
    ensures readable { OnOk result (IsReadable (K.told store.old)) }
    ensures follows { OnOk result (Follows machine.old.net machine.new.state.changes) }
    ensures ranges { OnOk result (AreInRange machine.old.net 0 machine.new.state.changes) }
    ensures told { OnOk result (K.told store.new ≡ option_map (marked machine.old.net) (K.told store.old)) }
    ensures later { K.fault_count store.old ≤ K.fault_count store.new }
    ensures fault { IfErr result (IsRecoverFault machine.old.net (K.told store.old) (K.told store.new) (K.fault_count store.old) (K.fault_count store.new)) }
    ensures settled { OnOk result (IsSettled (K.told store.new) (K.crashes store.new)) }
    ensures time { Elapses (K.crashes store.old) (K.crashes store.new) }
    ensures crash { LeavesSince (K.crashes store.old) (K.crashes store.new) (IsLeftOrCut machine.old.net (K.told store.old) (K.crashes store.old)) }
{
    // These are there for what holds of each network, that it is sound, and of the lines of changes and of marks.
    let _net = machine.network();
    lines_end_once();
    lines_tell_changes();
    marks_tell_sizes();
    let bytes = store.read_all(alloc)?;
    let taken = machine.take_lines(alloc, bytes.as_slice())?;
    cut_tail(alloc, store, bytes.as_slice(), taken.kept)?;
    put_mark(alloc, machine.network(), store, taken)?;
    Ok(())
}

/// Cuts a settled store after that many of its bytes, by one call, where it has more.
fn cut_tail<K: Keeper>(
    alloc: Global,
    store: &mut K,
    bytes: &[u8],
    kept: usize,
) -> Result<(), KeepFault>
    requires held { Gives (K.told store.old) bytes.now }
    requires kept { take kept bytes.now ≡ whole bytes.now }
    requires within { kept ≤ length bytes.now }
    requires settled { IsSettled (K.told store.old) (K.crashes store.old) }
    ensures ok { OnOk result (K.told store.new ≡ option_map whole (K.told store.old)) }
    ensures err { OnErr result (MaybeCut (K.told store.old) (K.told store.new)) }
    ensures not_too_long { IsErrOf result KeepFault.TooLong → ⊥ }
    ensures cause { HasCause KeepFault.Failed (K.fault_count store.old) (K.fault_count store.new) result }
    ensures time { Elapses (K.crashes store.old) (K.crashes store.new) }
    ensures still { OnOk result (IsSettled (K.told store.new) (K.crashes store.new)) }
    ensures crash { LeavesSince (K.crashes store.old) (K.crashes store.new)
        (λ left. (Some left ≡ K.told store.old) ⊎ (Some left ≡ option_map whole (K.told store.old))) }
{
    if kept < bytes.len() {
        store.cut(alloc, kept as u64)
    } else {
        Ok(())
    }
}

/// Appends the mark of the network to a settled store, by one call, where it does not stand yet and there is room for it behind
/// so many bytes.
fn put_mark<K: Keeper>(
    alloc: Global,
    net: &Network,
    store: &mut K,
    taken: Taken,
) -> Result<(), RecoverFault>
    requires short { taken.kept ≤ MOST_JOURNAL_BYTES }
    requires settled { IsSettled (K.told store.old) (K.crashes store.old) }
    ensures ok { OnOk result (K.told store.new ≡ gained (K.told store.old) (mark_where net.now taken.marked taken.kept)) }
    ensures fault { IfErr result (IsAppendFault (mark_where net.now taken.marked taken.kept)
        (K.told store.old) (K.told store.new) (K.fault_count store.old) (K.fault_count store.new)) }
    ensures later { K.fault_count store.old ≤ K.fault_count store.new }
    ensures time { Elapses (K.crashes store.old) (K.crashes store.new) }
    ensures still { OnOk result (IsSettled (K.told store.new) (K.crashes store.new)) }
    ensures crash { LeavesSince (K.crashes store.old) (K.crashes store.new)
        (λ left. GainsPrefix (K.told store.old) (mark_where net.now taken.marked taken.kept) (Some left)) }
{
    if taken.marked {
        return Ok(());
    }
    let mark = mark_text(alloc, net)?;
    let room = MOST_JOURNAL_BYTES as usize - taken.kept;
    if room < mark.len() {
        return Ok(());
    }
    store.append(alloc, mark.as_slice())?;
    Ok(())
}
