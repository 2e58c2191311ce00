// Playing a part of a script.
ghost use Rattle.std.specs.Prelude.{◌≡◌, ◌+◌, ◌<◌, IfErr, IfOk};
ghost use Rattle.bt_frame.specs.declared.limits.TheConstants.{MOST_ANSWERS};
ghost use Rattle.bt_history.specs.Causes.{Follows};
ghost use Rattle.bt_round.specs.AirLines.{opening_in};
ghost use Rattle.bt_script.specs.Named.{IsItemFor, IsRoundFor};
ghost use Rattle.bt_centre.specs.Progress.{IsLeftEarly, IsTogether, ItemFailed, ItemPlayed, RoundPlayed};

use crate::playing::{Playing, Remains, leave};
use crate::restart::play_restart;
use bt_book::RecoverFault;
use bt_net::Network;
use bt_outside::Keeper;
use bt_round::{Gate, run_round};
use bt_script::{Item, Round};
use bt_timeline::round_text;
use bt_world::Events;
use std::alloc::Global;
use std::sync::Wait;
use std::thread::Threads;

/// Plays a part of a script over a simulated air, and gives its text; or what is left of the run, where memory runs out or the recovery at a
/// restart fails.
pub(crate) fn play_item<
    R: Threads + Wait + Sync,
    G: Gate + Sync,
    K: Keeper + Send,
    E: Events + Send,
>(
    rt: &R,
    alloc: Global,
    net: &Network,
    gate: &G,
    item: &Item,
    playing: Playing<K, E>,
) -> Result<(Playing<K, E>, Vec<u8>), (Remains<K, E>, RecoverFault)>
    requires few { playing.rounds < MOST_ANSWERS }
    requires network { playing.book.net ≡ net.now }
    requires air_network { (opening_in playing.air).net ≡ net.now }
    requires together { IsTogether playing.air }
    requires terminals { IsItemFor net.now item.now }
    requires follow { Follows net.now playing.book.state.changes }
    ensures played { IfOk result (λ on. ItemPlayed net.now item.now playing on.0 on.1.items) }
    ensures failed { IfErr result (λ end. ItemFailed net.now item.now playing end.0 end.1) }
{
    match item {
        Item::Round(round) => match play_round(rt, alloc, net, gate, round, playing) {
            Ok(on) => Ok(on),
            Err(remains) => Err((remains, RecoverFault::OutOfMemory)),
        },
        Item::Restart => play_restart(rt, alloc, net, playing),
        // A simulated air has no bus.
        Item::Heard(_) => Ok((playing, Vec::new(alloc))),
    }
}

/// Plays a round, and gives its text; or what is left of the run, where memory runs out.
pub(crate) fn play_round<
    R: Threads + Wait + Sync,
    G: Gate + Sync,
    K: Keeper + Send,
    E: Events + Send,
>(
    rt: &R,
    alloc: Global,
    net: &Network,
    gate: &G,
    round: &Round,
    playing: Playing<K, E>,
) -> Result<(Playing<K, E>, Vec<u8>), Remains<K, E>>
    requires few { playing.rounds < MOST_ANSWERS }
    requires network { playing.book.net ≡ net.now }
    requires air_network { (opening_in playing.air).net ≡ net.now }
    requires terminals { IsRoundFor net.now round.now }
    requires follow { Follows net.now playing.book.state.changes }
    ensures played { IfOk result (λ on. RoundPlayed net.now round.now playing on.0 on.1.items) }
    ensures failed { IfErr result (λ remains. IsLeftEarly playing remains) }
{
    let rounds = playing.rounds + 1;
    let mut text = Vec::new(alloc);
    if round_text(alloc, rounds, &mut text).is_err() {
        return Err(playing.stop(rt, alloc));
    }
    let Playing {
        station,
        before,
        over,
        rounds: _,
    } = playing;
    let (station, ended) = run_round(rt, alloc, net, gate, round, station, &mut text);
    match ended {
        Ok(()) => {
            let playing = Playing {
                station,
                before,
                over,
                rounds,
            };
            Ok((playing, text))
        }
        Err(_) => Err(leave(rt, alloc, station, before, over)),
    }
}
