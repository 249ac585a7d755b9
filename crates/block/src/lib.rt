//! The block call: a block is split where commands are due, so that none lands early or late.
#![tactic(auto)]

ghost use Rattle.std.specs.Prelude.{ℕ, ◌≡◌, false, List, Float, ◌*◌, ◌≤◌, ◌<◌, length};
ghost use Rattle.bank.specs.Sample.{frames_of};
ghost use Rattle.session.specs.declared.Desk.{Desk};
ghost use Rattle.session.specs.declared.Answered.{Answered};
ghost use Rattle.session.specs.Answer.{answered};
ghost use Rattle.block.specs.Block.{of_parts, weigh_block, ran_of, block_done, block_of, reported};
ghost use Rattle.block.specs.Fill.{first_due, lead_of, first_done, Executable, Fillable};

use bank::{Bank, Clip};
use counts::ClockFrame;
use session::{Answered, CLOCK_END, Desk, Refusal, Session};
use stage::{Settings, Stage};

/// What a block makes: its answer, and what it changes of a session, the stage and the depth.
#[derive(Clone, Copy)]
pub struct Made {
    pub answer: Result<u64, Refusal>,
    pub stage: Stage,
    pub queued: usize,
}

/// The passes that an answer reports; a refused block makes none.
pub fn reported_by(answer: Result<u64, Refusal>) -> u64
    ensures { result ≡ reported answer }
{
    match answer {
        Ok(passes) => passes,
        Err(_) => 0,
    }
}

/// 1, 2, 3, then block 4.
#[tactic(auto, using(session::proofs::Parts::clock_most), unfolding(crate::specs::Block::weigh_block, session::specs::Refusal::first))]
pub fn weigh_block(
    settings: Settings,
    bank: Bank,
    stage: Stage,
    queued: usize,
    desk: Desk,
    queue: &[u64],
    capture: &[u64],
    pool: &[f32],
    out: &[f32],
) -> Result<(), Refusal>
    ensures { result ≡ weigh_block (of_parts settings bank stage queued desk) queue.now capture.now pool.now out.now }
{
    if !session::formed(settings, bank, stage, queued, desk, queue, capture) {
        return Err(Refusal::NotWellFormed);
    }
    if !bank::is_pool(pool, settings.pool) {
        return Err(Refusal::PoolLength);
    }
    if bank::is_odd(out) {
        return Err(Refusal::OddSamples);
    }
    if stage.clock.0 + bank::frames_of(out) > CLOCK_END {
        return Err(Refusal::ClockSpent);
    }
    Ok(())
}

/// Is the first queued command due?
pub fn is_due(clock: ClockFrame, queue: &[u64], queued: usize) -> bool
    requires { queued * 5 ≤ length queue.now }
    ensures { result ≡ first_due queue.now queued clock.0 }
{
    queued > 0 && timeline::first_at(queue, queued).0 <= clock.0
}

/// How many of the frames that are left come before the first queued command.
pub fn lead(clock: ClockFrame, queue: &[u64], queued: usize, left: usize) -> usize
    requires { (queued * 5 ≤ length queue.now) × (first_due queue.now queued clock.0 ≡ false) }
    ensures { result ≡ lead_of queue.now queued clock.0 left }
{
    if queued == 0 {
        return left;
    }
    let ahead = timeline::first_at(queue, queued).0 - clock.0;
    if ahead < left as u64 {
        return ahead as usize;
    }
    left
}

/// Executes the first queued command, where `clip` is the song that plays.
fn execute_first(
    stage: Stage,
    settings: Settings,
    clip: Clip,
    queue: &[u64],
    queued: usize,
) -> Stage
    requires { Executable queue.now queued stage }
    ensures { result ≡ first_done settings clip queue.now queued stage }
{
    let extent = bank::extent_of(clip.kind);
    stage.execute(settings, extent, timeline::first(queue, queued).command)
}

/// While frames remain, the first queued command is executed if it is due, else frames are made up to the next one;
/// after the last frame one command, if it is due. No frames: nothing. It answers the passes of all frames.
#[tactic(auto, using(crate::proofs::Filling::fill_start, crate::proofs::Filling::fill_none))]
pub fn fill(
    settings: Settings,
    bank: Bank,
    stage: Stage,
    queued: usize,
    queue: &[u64],
    pool: &[f32],
    out: &mut [f32],
) -> Made
    requires { Fillable settings bank stage queued queue.now pool.now out.old }
    ensures { (desk : Desk) → ◌≡◌ {A = Answered ℕ × List Float} (answered result.answer (of_parts settings bank result.stage result.queued desk), out.new) (block_done (of_parts settings bank stage queued desk) (ran_of (of_parts settings bank stage queued desk) queue.now pool.now (frames_of out.old))) }
{
    let frames = out.len() / 2;
    if frames == 0 {
        return Made {
            answer: Ok(0),
            stage,
            queued,
        };
    }
    let mut stage = stage;
    let mut queued = queued;
    let mut passes = 0;
    let mut done = 0;
    'block: loop {
        if is_due(stage.clock, queue, queued) {
            let clip = bank.clips[stage.playhead.song.slot as usize];
            stage = execute_first(stage, settings, clip, queue, queued);
            queued -= 1;
            if done == frames {
                break 'block;
            }
        } else if done == frames {
            break 'block;
        } else {
            let ahead = lead(stage.clock, queue, queued, frames - done);
            let at = done * 2;
            let further = runs::frames_on(stage, settings, pool, bank, &mut out[at..], ahead);
            stage = further.stage;
            passes += further.passes;
            done += further.frames;
        }
    }
    Made {
        answer: Ok(passes),
        stage,
        queued,
    }
}

/// A block over a session's parts, of which it gives what it changes.
#[tactic(auto, using(crate::proofs::Weigh::accepted, crate::proofs::Weigh::fillable), unfolding(crate::specs::Block::block_of, session::specs::Refusal::unless))]
pub fn make(
    settings: Settings,
    bank: Bank,
    stage: Stage,
    queued: usize,
    desk: Desk,
    queue: &[u64],
    capture: &[u64],
    pool: &[f32],
    out: &mut [f32],
) -> Made
    ensures { ◌≡◌ {A = Answered ℕ × List Float} (answered result.answer (of_parts settings bank result.stage result.queued desk), out.new) (block_of (of_parts settings bank stage queued desk) queue.now capture.now pool.now out.old) }
{
    let weighed = weigh_block(
        settings,
        bank,
        stage,
        queued,
        desk,
        queue,
        capture,
        pool,
        &out[..],
    );
    match weighed {
        Ok(()) => fill(settings, bank, stage, queued, queue, pool, &mut out[..]),
        Err(k) => Made {
            answer: Err(k),
            stage,
            queued,
        },
    }
}

/// A block of the frames that fit the output: it is filled, and the commands that fall due leave the queue.
/// A refused block leaves it as it was.
pub fn block(
    s: Session,
    queue: &[u64],
    capture: &[u64],
    pool: &[f32],
    out: &mut [f32],
) -> Answered<u64>
    ensures { ◌≡◌ {A = Answered ℕ × List Float} (result, out.new) (block_of s queue.now capture.now pool.now out.old) }
{
    let made = make(
        s.settings, s.bank, s.stage, s.queued, s.desk, queue, capture, pool, out,
    );
    Answered {
        answer: made.answer,
        session: Session {
            stage: made.stage,
            queued: made.queued,
            ..s
        },
    }
}
