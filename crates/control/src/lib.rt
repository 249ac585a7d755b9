//! The calls around the performance: start and stop capture, snapshot, apply snapshot, metrics.
#![tactic(auto)]

ghost use Rattle.std.specs.Prelude.{◌≡◌, List, ℕ, min};
ghost use Rattle.session.specs.Session.{with_stage, extent_now};
ghost use Rattle.control.specs.Capture.{capturing, start_capture_of, weigh_stop, stop_capture_of};
ghost use Rattle.control.specs.Snapshot.{snapped, snapshot_of, weigh_apply, transport_by, stage_by, apply_of};
ghost use Rattle.control.specs.Metrics.{metered, metrics_of};
ghost use Rattle.session.specs.declared.Answered.{Answered};

use counts::SongFrame;
use ramp::Tween;
use session::{Answered, Desk, Refusal, Session};
use stage::{Playhead, Sound, Stage};
use transport::{LoopRange, Transport, TransportState};

/// A control snapshot: position, state, the gain that the master is heading for, and the loop.
#[derive(Clone, Copy)]
pub struct PerformanceSnapshot {
    pub position: SongFrame,
    pub state: TransportState,
    pub gain: f32,
    pub looped: Option<LoopRange>,
}

/// Frames rendered, commands executed and dropped, the deepest queue, swaps and stingers fired.
#[repr(C)]
#[derive(Clone, Copy)]
pub struct PerformanceMetrics {
    pub rendered: u64,
    pub executed: u64,
    pub dropped: u64,
    pub deepest: usize,
    pub swaps: u64,
    pub fired: u64,
}

// ---- capture

/// Capture on or off, with no record.
fn capturing(s: Session, on: bool) -> Session
    ensures { result ≡ capturing on s }
{
    Session {
        desk: Desk {
            capturing: on,
            captured: 0,
            ..s.desk
        },
        ..s
    }
}

/// Capture starts empty each time, also while it runs.
#[tactic(auto, unfolding(crate::specs::Capture::start_capture_of, session::specs::Refusal::unless))]
pub fn start_capture(s: Session, queue: &[u64], capture: &[u64]) -> Answered<()>
    ensures { result ≡ start_capture_of s queue.now capture.now }
{
    let weighed = session::weigh_only(s, queue, capture);
    match weighed {
        Ok(()) => Answered {
            answer: Ok(()),
            session: capturing(s, true),
        },
        Err(k) => Answered {
            answer: Err(k),
            session: s,
        },
    }
}

/// Stopping capture: 1, 20.
#[tactic(auto, using(crate::proofs::Capture::stored), unfolding(crate::specs::Capture::weigh_stop, session::specs::Refusal::first))]
pub fn weigh_stop(s: Session, queue: &[u64], capture: &[u64], list: &[u64]) -> Result<(), Refusal>
    ensures { result ≡ weigh_stop s queue.now capture.now list.now }
{
    if !session::well_formed(s, queue, capture) {
        return Err(Refusal::NotWellFormed);
    }
    if list.len() < session::captured_now(s.desk) * 5 {
        return Err(Refusal::ListTooShort);
    }
    Ok(())
}

/// Stopping copies its records to the list's front and keeps the rest of the list; none if capture is off.
#[tactic(auto, using(crate::proofs::Capture::fine_room), unfolding(crate::specs::Capture::stop_capture_of, session::specs::Refusal::unless))]
pub fn stop_capture(s: Session, queue: &[u64], capture: &[u64], list: &mut [u64]) -> Answered<usize>
    ensures { ◌≡◌ {A = Answered ℕ × List ℕ} (result, list.new) (stop_capture_of s queue.now capture.now list.old) }
{
    let weighed = weigh_stop(s, queue, capture, list);
    match weighed {
        Ok(()) => {
            let captured = session::captured_now(s.desk);
            timeline::copy_records(list, capture, captured);
            Answered {
                answer: Ok(captured),
                session: capturing(s, false),
            }
        }
        Err(k) => Answered {
            answer: Err(k),
            session: s,
        },
    }
}

// ---- snapshots

/// Position, state, master target, loop.
fn snapped(s: Session) -> PerformanceSnapshot
    ensures { result ≡ snapped s }
{
    PerformanceSnapshot {
        position: s.position(),
        state: s.state(),
        gain: s.master_gain(),
        looped: s.loop_range(),
    }
}

/// Taking a snapshot changes nothing.
#[tactic(auto, unfolding(crate::specs::Snapshot::snapshot_of, session::specs::Refusal::unless))]
pub fn snapshot(s: Session, queue: &[u64], capture: &[u64]) -> Answered<PerformanceSnapshot>
    ensures { result ≡ snapshot_of s queue.now capture.now }
{
    let weighed = session::weigh_only(s, queue, capture);
    match weighed {
        Ok(()) => Answered {
            answer: Ok(snapped(s)),
            session: s,
        },
        Err(k) => Answered {
            answer: Err(k),
            session: s,
        },
    }
}

/// Applying a snapshot: 1, 14.
#[tactic(auto, unfolding(crate::specs::Snapshot::weigh_apply, session::specs::Refusal::first))]
pub fn weigh_apply(
    s: Session,
    queue: &[u64],
    capture: &[u64],
    x: PerformanceSnapshot,
) -> Result<(), Refusal>
    ensures { result ≡ weigh_apply s queue.now capture.now x }
{
    if !session::well_formed(s, queue, capture) {
        return Err(Refusal::NotWellFormed);
    }
    if !ramp::is_between(0.0, 2.0, x.gain) {
        return Err(Refusal::BadGain);
    }
    Ok(())
}

/// The lesser of a position and the length.
fn clamped(position: SongFrame, extent: SongFrame) -> SongFrame
    ensures { result ≡ record { 0 = min position.0 extent.0 } }
{
    SongFrame(position.0.min(extent.0))
}

/// Loop set as by Loop, none clears it; then state; position = min(snapshot's, length), cursor the same.
fn transport_by(extent: SongFrame, x: PerformanceSnapshot, t: Transport) -> Transport
    ensures { result ≡ transport_by extent.0 x t }
{
    let set = t.set_loop(x.looped, extent);
    let position = clamped(x.position, extent);
    Transport {
        state: x.state,
        position,
        cursor: position,
        ..set
    }
}

/// Gain at once; clock, queue, tail and voices stay.
fn stage_by(extent: SongFrame, x: PerformanceSnapshot, g: Stage) -> Stage
    ensures { result ≡ stage_by extent.0 x g }
{
    Stage {
        playhead: Playhead {
            transport: transport_by(extent, x, g.playhead.transport),
            ..g.playhead
        },
        sound: Sound {
            master: g
                .sound
                .master
                .set(ramp::not_below(x.gain), Tween::IMMEDIATE),
            ..g.sound
        },
        ..g
    }
}

/// What a snapshot that is not refused does: it changes the stage alone.
fn applied(s: Session, x: PerformanceSnapshot) -> Session
    ensures { result ≡ with_stage s (stage_by (extent_now s) x s.stage) s.queued }
{
    Session {
        stage: stage_by(session::extent_now(s), x, s.stage),
        ..s
    }
}

/// Applying a snapshot: gain, loop, state and position at once.
#[tactic(auto, unfolding(crate::specs::Snapshot::apply_of, session::specs::Refusal::unless))]
pub fn apply_snapshot(
    s: Session,
    queue: &[u64],
    capture: &[u64],
    x: PerformanceSnapshot,
) -> Answered<()>
    ensures { result ≡ apply_of s queue.now capture.now x }
{
    let weighed = weigh_apply(s, queue, capture, x);
    match weighed {
        Ok(()) => Answered {
            answer: Ok(()),
            session: applied(s, x),
        },
        Err(k) => Answered {
            answer: Err(k),
            session: s,
        },
    }
}

// ---- metrics

/// Frames rendered equals the clock.
fn metered(s: Session) -> PerformanceMetrics
    ensures { result ≡ metered s }
{
    let counters = s.stage.counters;
    PerformanceMetrics {
        rendered: s.clock().0,
        executed: counters.executed,
        dropped: s.desk.dropped,
        deepest: s.desk.deepest,
        swaps: counters.swaps,
        fired: counters.fired,
    }
}

/// Reading the metrics changes nothing.
#[tactic(auto, unfolding(crate::specs::Metrics::metrics_of, session::specs::Refusal::unless))]
pub fn metrics(s: Session, queue: &[u64], capture: &[u64]) -> Answered<PerformanceMetrics>
    ensures { result ≡ metrics_of s queue.now capture.now }
{
    let weighed = session::weigh_only(s, queue, capture);
    match weighed {
        Ok(()) => Answered {
            answer: Ok(metered(s)),
            session: s,
        },
        Err(k) => Answered {
            answer: Err(k),
            session: s,
        },
    }
}
