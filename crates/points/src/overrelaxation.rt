use crate::Tally;
use anyhow::{Error, Result};
use lattice::Plan;
use mat::Su3;
use rows::Refusal;
use sample::hash::Bits;
use sweep::Job;

// The identity after its update. As numbers they are the identity's; the last row is a cross product,
// and its imaginary parts are -0.
const UPDATED: [f64; 18] = [
    1.0, 0.0, 0.0, 0.0, 0.0, 0.0, 0.0, 0.0, 1.0, 0.0, 0.0, 0.0, 0.0, -0.0, 0.0, -0.0, 1.0, -0.0,
];

// The identity's update with itself scaled as the staple: the scale is every norm.
fn norm(t: &mut Tally, scale: f64, wanted: Option<Refusal>) -> Result<()> {
    let r = sweep::update_link(Su3::IDENTITY, Su3::IDENTITY.scale(scale));
    let norm = Bits(scale);
    t.row(format_args!("the norm {norm}"), r, wanted)?;
    if let Ok(updated) = r {
        t.matrix("updated identity", updated, &UPDATED)?;
    }
    Ok(())
}

// The small examples of rows 6, 7 and 9; the list is a field of zeros. Of the first call both 6 and 7
// hold.
fn refusals(t: &mut Tally, extents: [usize; 4], zeros: &[f64]) -> Result<()> {
    let mut plan = Plan {
        extents,
        coupling: 6.0,
        seed: 0,
        pass: u64::MAX,
    };
    let r = sweep::open_overrelax(&mut plan, 0, 2);
    t.row("parity 2", r, Some(Refusal::Parity))?;
    let r = sweep::open_overrelax(&mut plan, 0, 0);
    t.row("pass 2^64 - 1", r, Some(Refusal::Pass))?;
    let r = sweep::update_link(Su3::ZERO, Su3::IDENTITY);
    t.row("a link of zeros", r, Some(Refusal::Stuck))?;
    let r = sweep::overrelax_link(plan, 0, 0, zeros);
    t.row("a field's link of zeros", r, Some(Refusal::Stuck))
}

// Row 8's: of 16 sites 8 have the job's parity.
fn job_refusals(t: &mut Tally, extents: [usize; 4], links: &mut [f64]) -> Result<()> {
    let mut job = Job {
        extents,
        direction: 0,
        parity: 0,
        visited: 9,
        stuck: 0,
        pass: 0,
    };
    let r = sweep::frame_overrelax(&mut job, 1, links);
    t.row("a frame after 9 of 16 sites", r, Some(Refusal::Job))?;
    let r = sweep::finished(job);
    t.row("to say if 9 of 16 sites are all", r, Some(Refusal::Job))
}

// How many sites are visited, and whether these are all.
fn after_frame(t: &mut Tally, label: &str, job: Job, visited: u64, all: bool) -> Result<()> {
    t.whole(label, job.visited as u64, visited)?;
    let finished = sweep::finished(job).map_err(Error::msg)?;
    t.whole("finished", u64::from(finished), u64::from(all))
}

// Frames of 3, 0 and 9 sites in one half-sweep of a cold field of 16 sites, and between the first two
// one that is lent a shorter list.
fn half_sweep(t: &mut Tally) -> Result<()> {
    let mut links = [0.0; 1152];
    let mut plan = lattice::cold([2, 2, 2, 2], 6.0, 0, &mut links).map_err(Error::msg)?;
    let mut job = sweep::open_overrelax(&mut plan, 0, 0).map_err(Error::msg)?;
    sweep::frame_overrelax(&mut job, 3, &mut links).map_err(Error::msg)?;
    after_frame(t, "frame-3", job, 3, false)?;
    let r = sweep::frame_overrelax(&mut job, 5, &mut [0.0; 1151]);
    t.row("a frame on 1151 numbers", r, Some(Refusal::Length))?;
    sweep::frame_overrelax(&mut job, 0, &mut links).map_err(Error::msg)?;
    after_frame(t, "frame-0", job, 3, false)?;
    sweep::frame_overrelax(&mut job, 9, &mut links).map_err(Error::msg)?;
    after_frame(t, "frame-9", job, 8, true)?;
    t.whole("stuck", job.stuck as u64, 0)
}

pub fn points(t: &mut Tally) -> Result<()> {
    norm(t, 9.999999999999998e-13, Some(Refusal::Stuck))?;
    norm(t, 1e-12, None)?;
    norm(t, 1.0000000000000002e-12, None)?;
    let mut links = [0.0; 1152];
    refusals(t, [2, 2, 2, 2], &links)?;
    job_refusals(t, [2, 2, 2, 2], &mut links)?;
    half_sweep(t)
}
