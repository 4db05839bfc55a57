//! The search over the tiers of candidates.

use crate::exchanges::{Exchange, exchanges};
use crate::limits::{Inferred, Limits, Wanted};
use crate::needing::Needs;
use crate::printing::additions;
use crate::refuting::are_refuted;
use crate::shrinking::Shrinking;
use crate::unaided::Unaided;
use og_explore::Range;
use og_infer_candidates::Universe;
use og_infer_places::{Places, Samples, obligations, sample};
use og_infer_rounds::{
    Attempt, Duty, Frozen, Pool, Proof, Proving, Questions, Rounds, Scene, Settled, claims,
    count_of, gather,
};
use og_pool::PoolFault;
use og_typed::Outline;
use std::alloc::{AllocError, Global};
use std::sync::Wait;
use std::thread::Threads;

/// With more places nothing is looked for.
const MOST_PLACES: usize = 2_000;

/// With more obligations nothing is looked for.
const MOST_OBLIGATIONS: usize = 200_000;

/// How many moments the samples come from.
const MOMENTS: u32 = 6_000;

/// How many steps of random walks they come from.
const WALKS: u64 = 6_000;

/// How many claims are verdicts at a time.
const MOST_AT_A_TIME: usize = 32;

/// The greatest tier.
const TIERS: u8 = 3;

// Which claims are proved, and which are not.
#[derive(Drop)]
struct Verdicts {
    proved: Vec<Duty>,
    failing: Vec<Duty>,
}

impl Verdicts {
    // Adds a claim.
    fn add(&mut self, duty: Duty, proof: &Proof) -> Result<(), AllocError> {
        if matches!(proof.settled, Settled::True) {
            self.proved.push(duty)?;
        } else {
            self.failing.push(duty)?;
        }
        Ok(())
    }
}

// The candidates of one tier that last, and which claims they prove.
#[derive(Drop)]
struct Tried {
    tier: u8,
    universe: Universe,
    rounds: Rounds,
    verdicts: Verdicts,
    // Whether samples refute what is not proved.
    is_final: bool,
}

// What is the same at all tiers, and the questions that are left.
#[derive(Drop)]
struct Search<'a, 'o> {
    scene: &'a Scene<'o>,
    places: &'a Places<'o>,
    samples: &'a Samples,
    exchanges: &'a [Exchange],
    questions: Questions,
}

// What is handed out without additions where no tier was finished, or none is needed.
fn bare(alloc: Global, unproved: Option<usize>, questions: u64) -> Inferred {
    Inferred {
        additions: Vec::new(alloc),
        unproved,
        is_final: unproved.is_some(),
        tier: 0,
        questions,
    }
}

// The scene of these places; none where they are too many.
fn scene_of<'o>(
    alloc: Global,
    places: &Places<'o>,
    budget: u64,
) -> Result<Option<Scene<'o>>, AllocError> {
    if places.as_slice().len() > MOST_PLACES {
        return Ok(None);
    }
    let Some(obligations) = obligations(alloc, places, MOST_OBLIGATIONS)? else {
        return Ok(None);
    };
    Ok(Some(Scene::new(alloc, places, obligations, budget)?))
}

// Whether the claims are proved with nothing taken. It costs a question for each of them that is
// asked.
fn is_proved<R: Threads + Wait + Sync>(
    pool: &Pool<'_, R>,
    scene: &Scene,
    questions: &mut Questions,
) -> Result<bool, PoolFault> {
    let duties = claims(scene)?;
    for part in duties.chunks(MOST_AT_A_TIME) {
        let count = count_of(part.len());
        let tasks = Unaided {
            scene,
            duties: part,
            count,
        };
        let proofs = pool.answers(&tasks, count)?;
        questions.spend(part.len() as u64);
        if proofs.contains(&false) {
            return Ok(false);
        }
    }
    Ok(true)
}

// Each of these claims, to be settled with this share.
fn attempts_of<'a>(
    alloc: Global,
    duties: &[Duty],
    share: u64,
) -> Result<Vec<Attempt<'a>>, AllocError> {
    let mut attempts = Vec::with_capacity(alloc, duties.len())?;
    for duty in duties {
        attempts.push(Attempt {
            duty: *duty,
            without: &[],
            share,
        })?;
    }
    Ok(attempts)
}

impl<'a, 'o> Search<'a, 'o> {
    // Adds each of these claims to those that the candidates prove, or to those that they do not.
    // Whether the questions suffice.
    fn add_verdicts<'x, R: Threads + Wait + Sync>(
        &mut self,
        pool: &Pool<'_, R>,
        frozen: Frozen<'x, '_>,
        duties: &'x [Duty],
        verdicts: &mut Verdicts,
    ) -> Result<bool, PoolFault> {
        let Some(share) = self.questions.share(duties.len()) else {
            return Ok(false);
        };
        let attempts = attempts_of(pool.alloc, duties, share)?;
        let count = count_of(attempts.len());
        let tasks = Proving {
            frozen,
            attempts: &attempts,
            count,
        };
        let proofs = pool.answers_ahead(&tasks, count, count)?;
        for (duty, proof) in duties.iter().zip(&proofs) {
            if let Some(proof) = proof {
                self.questions.spend(proof.asked);
                verdicts.add(*duty, proof)?;
            }
        }
        Ok(true)
    }

    // Which of the claims the candidates prove, and which they do not. None where the questions do
    // not suffice.
    fn verdicts<R: Threads + Wait + Sync>(
        &mut self,
        pool: &Pool<'_, R>,
        frozen: Frozen<'_, '_>,
    ) -> Result<Option<Verdicts>, PoolFault> {
        let mut verdicts = Verdicts {
            proved: Vec::new(pool.alloc),
            failing: Vec::new(pool.alloc),
        };
        let duties = claims(self.scene)?;
        for part in duties.chunks(MOST_AT_A_TIME) {
            if !self.add_verdicts(pool, frozen, part, &mut verdicts)? {
                return Ok(None);
            }
        }
        Ok(Some(verdicts))
    }

    // The candidates of one tier that last. None where the questions do not suffice.
    fn attempt<R: Threads + Wait + Sync>(
        &mut self,
        pool: &Pool<'_, R>,
        tier: u8,
    ) -> Result<Option<Tried>, PoolFault> {
        let scene = self.scene;
        let universe = Universe::of(scene.alloc, self.places, self.samples, tier)?;
        let mut rounds = gather(pool, scene, &universe, self.samples)?;
        if !rounds.weaken(pool, scene, self.places, &universe, &mut self.questions)? {
            return Ok(None);
        }
        let frozen = Frozen {
            scene,
            universe: &universe,
            lists: rounds.lists(),
            without: &[],
        };
        let Some(verdicts) = self.verdicts(pool, frozen)? else {
            return Ok(None);
        };
        let is_final = are_refuted(scene, self.samples, &verdicts.failing)?;
        Ok(Some(Tried {
            tier,
            universe,
            rounds,
            verdicts,
            is_final,
        }))
    }

    // The candidates of the first tier that prove all that can be proved, or else of the last one.
    // Each tier may use half of the questions that are left.
    fn best<R: Threads + Wait + Sync>(
        &mut self,
        pool: &Pool<'_, R>,
        tiers: u8,
    ) -> Result<Option<Tried>, PoolFault> {
        let mut best = None;
        for tier in 1..tiers.min(TIERS) + 1 {
            self.questions.keep_half();
            let Some(tried) = self.attempt(pool, tier)? else {
                break;
            };
            let is_last = tried.is_final;
            best = Some(tried);
            if is_last {
                break;
            }
        }
        Ok(best)
    }

    // The conjuncts that support what the candidates prove.
    fn supported<R: Threads + Wait + Sync>(
        &mut self,
        pool: &Pool<'_, R>,
        tried: Tried,
    ) -> Result<Inferred, PoolFault> {
        let Tried {
            tier,
            universe,
            rounds,
            verdicts,
            is_final,
        } = tried;
        let (held, lists) = rounds.into_parts();
        let claims = &verdicts.proved;
        self.questions.keep_half();
        let mut needs = Needs::new(self.scene, &universe, &held, self.exchanges, lists);
        needs.owe_all(claims)?;
        needs.prove(pool, &mut self.questions)?;
        let lists = needs.into_lists()?;
        self.questions.free();
        let shrinking = Shrinking::new(self.scene, &universe, &held, self.exchanges, lists);
        let lists = shrinking.shrink(pool, claims, &mut self.questions)?;
        Ok(Inferred {
            additions: additions(self.scene.alloc, self.places, &universe, &lists)?,
            unproved: Some(verdicts.failing.len()),
            is_final,
            tier,
            questions: self.questions.asked(),
        })
    }

    // What is handed out of the candidates that were tried.
    fn finished<R: Threads + Wait + Sync>(
        &mut self,
        pool: &Pool<'_, R>,
        best: Option<Tried>,
        wanted: Wanted,
    ) -> Result<Inferred, PoolFault> {
        let (alloc, asked) = (self.scene.alloc, self.questions.asked());
        let Some(tried) = best else {
            return Ok(bare(alloc, None, asked));
        };
        match wanted {
            Wanted::Conjuncts => self.supported(pool, tried),
            Wanted::Completeness => Ok(Inferred {
                additions: Vec::new(alloc),
                unproved: Some(tried.verdicts.failing.len()),
                is_final: tried.is_final,
                tier: tried.tier,
                questions: asked,
            }),
        }
    }
}

/// Conjuncts that, added to the assertions of the outline, are to prove it: those that support its
/// postcondition, that values fit, the author's assertions, and that the processes never all wait,
/// as far as candidates of three tiers do. Each of the starts is a range for each variable that is
/// no auxiliary; the states of runs from them are the samples.
///
/// Where only the number of claims that are not proved is wanted, there are no additions.
///
/// Nothing is promised of what is found. It is the same for every number of workers. There are no
/// additions where all of that is proved without, where the outline has more than 2,000 places or
/// 200,000 obligations, and where the questions do not suffice for the first tier.
///
/// # Errors
///
/// `Spawn`, of two workers or more, where a thread could not be started. `Memory` where an
/// allocation was refused.
pub fn infer<R: Threads + Wait + Sync>(
    rt: &R,
    alloc: Global,
    outline: &Outline,
    starts: &[Vec<Range>],
    limits: &Limits,
    wanted: Wanted,
) -> Result<Inferred, PoolFault> {
    let places = Places::of(alloc, outline)?;
    let Some(scene) = scene_of(alloc, &places, limits.budget)? else {
        return Ok(bare(alloc, None, 0));
    };
    let pool = Pool {
        rt,
        alloc,
        count: limits.workers,
    };
    let mut questions = Questions::new(limits.questions);
    if is_proved(&pool, &scene, &mut questions)? {
        return Ok(bare(alloc, Some(0), questions.asked()));
    }
    let samples = sample(alloc, &places, starts, MOMENTS, WALKS)?;
    let exchanges = exchanges(alloc, &places)?;
    let mut search = Search {
        scene: &scene,
        places: &places,
        samples: &samples,
        exchanges: &exchanges,
        questions,
    };
    let best = search.best(&pool, limits.tiers)?;
    search.finished(&pool, best, wanted)
}
