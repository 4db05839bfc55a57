//! Verdicts on all conditions.

ghost use Rattle.std.specs.Prelude.{◌≡◌, ◌+◌, ◌<◌, ◌≤◌, ◌^◌, length, map, vec_len, IfOk, IfErr};
ghost use Rattle.og_cond.specs.Seen.{seen};
ghost use Rattle.og_cert_text.specs.Shown.{shown};
ghost use Rattle.og_find.specs.Found.{AreOf};
ghost use Rattle.og_pool.specs.Answers.{AreAnswers};
ghost use Rattle.og_find_all.specs.Findings.{AreVerdicts, AreKnown};
ghost use Rattle.og_pool.specs.declared.fault.PoolFault.TheVariants.{Spawn};

use crate::checking::Checking;
use crate::findings::Findings;
use crate::following::{Following, Trial};
use crate::gathering::Gathered;
use crate::groups::grouped;
use crate::leading::{Follower, Shapes, by_shape};
use crate::marking::Marking;
use crate::searching::Searching;
use og_cert_text::CertFile;
use og_cond::Condition;
use og_pool::{Gate, PoolFault, answers};
use std::alloc::Global;
use std::sync::Wait;
use std::thread::Threads;

// How the leaders and the followers of all shapes are searched.
#[derive(Clone, Copy)]
struct Search<'a, 'c, G> {
    conditions: &'a [Condition<'c>],
    budget: u64,
    workers: u32,
    gate: &'a G,
}

impl<'a, 'c, G: Gate> Search<'a, 'c, G> {
    // The findings on the leaders.
    fn led<R: Threads + Wait + Sync>(
        &self,
        rt: &R,
        alloc: Global,
        leaders: Vec<usize>,
        places: Vec<Option<usize>>,
    ) -> Result<Gathered, PoolFault>
        requires workers { (0 < self.now.workers) × (self.now.workers ≤ 64) }
        requires few { vec_len leaders < 2 ^ 32 }
        ensures gathered { IfOk result (λ g.
            AreKnown (map seen self.now.conditions.now) g.verdicts.items g.known.items) }
        ensures spawn { IfErr result (λ e. e ≡ Spawn → 1 < self.now.workers) }
    {
        let searching = Searching {
            conditions: self.conditions,
            indices: &leaders,
            budget: self.budget,
            gate: self.gate,
        };
        let lead = leaders.len() as u32;
        let verdicts = answers(rt, alloc, &searching, lead, self.workers)?;
        let count = self.conditions.len();
        let gathered = Gathered::new(alloc, count, leaders, verdicts, places)?;
        Ok(gathered)
    }

    // The findings on followers after those on their leaders. This many were looked at before.
    fn follow<R: Threads + Wait + Sync>(
        &self,
        rt: &R,
        alloc: Global,
        leaders: Gathered,
        followers: &[Follower],
        before: u32,
    ) -> Result<Gathered, PoolFault>
        requires workers { (0 < self.now.workers) × (self.now.workers ≤ 64) }
        requires few { length followers.now < 2 ^ 32 }
        ensures gathered { IfOk result (λ g. AreKnown (map seen self.now.conditions.now) leaders.verdicts.items leaders.known.items
            → AreKnown (map seen self.now.conditions.now) g.verdicts.items g.known.items) }
        ensures spawn { IfErr result (λ e. e ≡ Spawn → 1 < self.now.workers) }
    {
        let mut gathered = leaders;
        let trial = Trial {
            conditions: self.conditions,
            leaders: &gathered.firsts,
            verdicts: &gathered.verdicts,
            budget: self.budget,
        };
        let following = Following {
            alloc,
            trial,
            followers,
            before,
            gate: self.gate,
        };
        let count = followers.len() as u32;
        let own = answers(rt, alloc, &following, count, self.workers)?;
        gathered.follow(followers, own)?;
        Ok(gathered)
    }

    // The findings on the leaders of kinds, then on those of the other shapes, and then on all
    // others.
    fn gathered<R: Threads + Wait + Sync>(
        &self,
        rt: &R,
        alloc: Global,
        shapes: Shapes,
    ) -> Result<Gathered, PoolFault>
        requires workers { (0 < self.now.workers) × (self.now.workers ≤ 64) }
        requires few { vec_len shapes.leaders + vec_len shapes.heirs + vec_len shapes.others <
            2 ^ 32 }
        ensures gathered { IfOk result (λ g.
            AreKnown (map seen self.now.conditions.now) g.verdicts.items g.known.items) }
        ensures spawn { IfErr result (λ e. e ≡ Spawn → 1 < self.now.workers) }
    {
        let Shapes {
            leaders,
            heirs,
            others,
            places,
        } = shapes;
        let lead = leaders.len() as u32;
        let first = lead.saturating_add(heirs.len() as u32);
        let led = self.led(rt, alloc, leaders, places)?;
        let inherited = self.follow(rt, alloc, led, &heirs, lead)?;
        let followers = inherited.placed(alloc, &others)?;
        let gathered = self.follow(rt, alloc, inherited, &followers, first)?;
        Ok(gathered)
    }
}

/// The verdict of searches on each condition, found by this many workers. The budget holds for each
/// search, as in `og_find::examine`. The verdicts are the same for every number of workers.
///
/// Conditions with equal facts are searched once, and share what was found. Of conditions that
/// differ in the names of variables alone, but for those that their action assigns, one leads:
/// where it has a certificate, that is tried for the others, and those whose facts it closes share
/// it; for those where it does not, the same with variables exchanged is tried. Leaders in which
/// the same stands but for names and order follow one of them in the same way. A condition from
/// which no other differs so is searched together with those others, so that no worker waits for
/// it. The gate hears how many different conditions there are, and before and after each.
///
/// # Errors
///
/// `Spawn`, of two workers or more, where a thread could not be started. `Memory` where an
/// allocation was refused.
pub fn examine_all<G: Gate, R: Threads + Wait + Sync>(
    rt: &R,
    alloc: Global,
    conditions: &[Condition],
    budget: u64,
    workers: u32,
    gate: &G,
) -> Result<Findings, PoolFault>
    requires workers { (0 < workers) × (workers ≤ 64) }
    requires few { length conditions.now < 2 ^ 32 }
    ensures verdicts { IfOk result (AreVerdicts (map seen conditions.now)) }
    ensures spawn { IfErr result (λ e. e ≡ Spawn → 1 < workers) }
{
    let count = conditions.len() as u32;
    let marks = answers(rt, alloc, &Marking { conditions }, count, workers)?;
    let groups = grouped(alloc, &marks)?;
    let shapes = by_shape(alloc, conditions, &marks, &groups.firsts)?;
    drop(marks);
    gate.begin(groups.firsts.len() as u32);
    let search = Search {
        conditions,
        budget,
        workers,
        gate,
    };
    let gathered = search.gathered(rt, alloc, shapes)?;
    let places = gathered.places_of(alloc, &groups.places)?;
    let Gathered {
        firsts,
        verdicts,
        known,
        ..
    } = gathered;
    let checking = Checking {
        conditions,
        places: &places,
        firsts: &firsts,
        known: &known,
        verdicts: &verdicts,
        budget,
    };
    let own = answers(rt, alloc, &checking, count, workers)?;
    Ok(Findings {
        places,
        firsts,
        verdicts,
        own,
    })
}

/// The certificates that searches find for the conditions, each under the number of its condition,
/// counted from 1, found by this many workers. The budget holds for each search, as in
/// `og_find::find`. The file is the same for every number of workers.
///
/// Conditions with equal facts are searched once and share a certificate. There may be at most
/// 999999999 certificates in a file, so none is given for a condition with a greater number.
///
/// # Errors
///
/// As `examine_all`.
pub fn find_all<G: Gate, R: Threads + Wait + Sync>(
    rt: &R,
    alloc: Global,
    conditions: &[Condition],
    budget: u64,
    workers: u32,
    gate: &G,
) -> Result<CertFile, PoolFault>
    requires workers { (0 < workers) × (workers ≤ 64) }
    requires few { length conditions.now < 2 ^ 32 }
    ensures certificates { IfOk result (λ file. AreOf (map seen conditions.now) (shown file)) }
    ensures spawn { IfErr result (λ e. e ≡ Spawn → 1 < workers) }
{
    let findings = examine_all(rt, alloc, conditions, budget, workers, gate)?;
    let file = findings.certificates(alloc)?;
    Ok(file)
}
