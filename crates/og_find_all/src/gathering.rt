//! What was found of leaders and of followers, together.

ghost use Rattle.std.specs.Prelude.{◌≡◌, ◌≢◌, ◌<◌, ℕ, List, Option, Some, length, slice_get, vec_len, OnOk, IfOk};
ghost use Rattle.std.specs.Global.{Box};
ghost use Rattle.og_cond.specs.Condition.{Condition};
ghost use Rattle.og_find.specs.declared.verdict.Verdict.{Verdict};
ghost use Rattle.og_find_all.specs.Findings.{AreKnown, AreOfFirsts, AreTried, IsKnownAt, IsVerdictAt};

use crate::leading::{Follower, Waiting};
use og_find::Verdict;
use std::alloc::{AllocError, Global};

/// Verdicts, each with the index of the first condition that has it; for each group of conditions
/// the place of its verdict; and for each condition the place of a verdict that was seen to be true
/// of it, if one was.
#[derive(Drop)]
pub(crate) struct Gathered {
    pub(crate) firsts: Vec<usize>,
    pub(crate) verdicts: Vec<Verdict>,
    pub(crate) places: Vec<Option<usize>>,
    pub(crate) known: Vec<Option<usize>>,
}

// Writes the place of a group.
fn put(places: &mut [Option<usize>], group: usize, place: usize) {
    if let Some(its) = places.get_mut(group) {
        *its = Some(place);
    }
}

// Writes the place of its leader for the group of each follower.
fn put_led(places: &mut [Option<usize>], followers: &[Follower]) {
    for follower in followers {
        if let Some(leader) = follower.leader {
            put(places, follower.group, leader);
        }
    }
}

// Writes the place at the index.
fn write(known: &mut Vec<Option<usize>>, index: usize, place: usize)
    requires { index < length known.old.items }
    ensures here { slice_get known.new.items index ≡ Some (Some place) }
    ensures others { (i : ℕ) → i ≢ index → slice_get known.new.items i
        ≡ slice_get known.old.items i }
{
    known[index] = Some(place);
}

// Notes the place of a verdict that is true of the condition.
fn note(known: &mut Vec<Option<usize>>, index: usize, place: usize)
    ensures { (cs : List Condition) (verdicts : List Verdict) → IsKnownAt cs verdicts index place
        → AreKnown cs verdicts known.old.items → AreKnown cs verdicts known.new.items }
{
    if index < known.len() {
        write(known, index, place);
    }
}

// Nothing is noted of this many conditions.
fn unknown(alloc: Global, count: usize) -> Result<Vec<Option<usize>>, AllocError>
    ensures { IfOk result (λ known.
        (cs : List Condition) (verdicts : List Verdict) → AreKnown cs verdicts known.items) }
{
    let mut known = Vec::with_capacity(alloc, count)?;
    for _ in 0..count {
        known.push(None)?;
    }
    Ok(known)
}

// Notes the leader at this place.
fn note_leader(known: &mut Vec<Option<usize>>, leaders: &[usize], place: usize)
    ensures { (cs : List Condition) (verdicts : List Verdict) → AreOfFirsts cs leaders.now verdicts
        → AreKnown cs verdicts known.old.items → AreKnown cs verdicts known.new.items }
{
    let Some(index) = leaders.get(place) else {
        return;
    };
    note(known, *index, place);
}

// Of this many conditions the leaders are noted, each with its own place.
fn known_leaders(
    alloc: Global,
    count: usize,
    leaders: &[usize],
) -> Result<Vec<Option<usize>>, AllocError>
    ensures { IfOk result (λ known. (cs : List Condition) (verdicts : List Verdict)
        → AreOfFirsts cs leaders.now verdicts → AreKnown cs verdicts known.items) }
{
    let mut known = unknown(alloc, count)?;
    for place in 0..leaders.len() {
        note_leader(&mut known, leaders, place);
    }
    Ok(known)
}

// Notes the follower at this place, where it shares the verdict of its leader.
fn note_follower(
    known: &mut Vec<Option<usize>>,
    followers: &[Follower],
    own: &[Option<Box<Verdict>>],
    place: usize,
)
    ensures { (cs : List Condition) (verdicts : List Verdict) → AreTried cs verdicts followers.now own.now
        → AreKnown cs verdicts known.old.items → AreKnown cs verdicts known.new.items }
{
    let Some(None) = own.get(place) else {
        return;
    };
    let Some(follower) = followers.get(place) else {
        return;
    };
    let Some(leader) = follower.leader else {
        return;
    };
    note(known, follower.index, leader);
}

// Notes the followers that share the verdict of their leader.
fn note_led(known: &mut Vec<Option<usize>>, followers: &[Follower], own: &[Option<Box<Verdict>>])
    ensures { (cs : List Condition) (verdicts : List Verdict) → AreTried cs verdicts followers.now own.now
        → AreKnown cs verdicts known.old.items → AreKnown cs verdicts known.new.items }
{
    for place in 0..own.len() {
        note_follower(known, followers, own, place);
    }
}

impl Gathered {
    // Adds the verdict of the follower's own search.
    fn add(&mut self, follower: Follower, own: Verdict) -> Result<(), AllocError>
        ensures { OnOk result ((cs : List Condition) → IsVerdictAt cs follower.index own → AreKnown cs self.old.verdicts.items self.old.known.items
            → AreKnown cs self.new.verdicts.items self.new.known.items) }
    {
        let place = self.verdicts.len();
        put(&mut self.places, follower.group, place);
        self.firsts.push(follower.index)?;
        self.verdicts.push(own)?;
        note(&mut self.known, follower.index, place);
        Ok(())
    }

    // Adds the verdicts that followers have of their own searches.
    fn add_all(
        &mut self,
        followers: &[Follower],
        mut own: Vec<Option<Box<Verdict>>>,
    ) -> Result<(), AllocError>
        ensures { OnOk result ((cs : List Condition) (led : List Verdict) → AreTried cs led followers.now own.items
            → AreKnown cs self.old.verdicts.items self.old.known.items → AreKnown cs self.new.verdicts.items self.new.known.items) }
    {
        while let Some(last) = own.pop() {
            let Some(verdict) = last else {
                continue;
            };
            if let Some(follower) = followers.get(own.len()) {
                self.add(*follower, Box::into_inner(verdict))?;
            }
        }
        Ok(())
    }

    /// The findings on the leaders, of this many conditions; for each group its place among them,
    /// if it is one.
    pub(crate) fn new(
        alloc: Global,
        count: usize,
        leaders: Vec<usize>,
        verdicts: Vec<Verdict>,
        places: Vec<Option<usize>>,
    ) -> Result<Gathered, AllocError>
        ensures { IfOk result (λ g. (cs : List Condition) → AreOfFirsts cs leaders.items
            verdicts.items → AreKnown cs g.verdicts.items g.known.items) }
    {
        let known = known_leaders(alloc, count, &leaders)?;
        Ok(Gathered {
            firsts: leaders,
            verdicts,
            places,
            known,
        })
    }

    /// Adds what was found of followers after these verdicts: the group of each has the place of
    /// its leader, or that of its own verdict where it has one.
    pub(crate) fn follow(
        &mut self,
        followers: &[Follower],
        own: Vec<Option<Box<Verdict>>>,
    ) -> Result<(), AllocError>
        ensures { OnOk result ((cs : List Condition) → AreTried cs self.old.verdicts.items followers.now own.items
            → AreKnown cs self.old.verdicts.items self.old.known.items → AreKnown cs self.new.verdicts.items self.new.known.items) }
    {
        put_led(&mut self.places, followers);
        note_led(&mut self.known, followers, &own);
        self.add_all(followers, own)?;
        Ok(())
    }

    /// Those that waited for the leaders of their shapes, with the places of these.
    pub(crate) fn placed(
        &self,
        alloc: Global,
        others: &[Waiting],
    ) -> Result<Vec<Follower>, AllocError>
        ensures { IfOk result (λ followers. vec_len followers ≡ length others.now) }
    {
        let mut followers = Vec::with_capacity(alloc, others.len())?;
        for place in 0..others.len() {
            let other = others[place];
            let leader = match other.leader {
                Some(group) => self.places.get(group).copied().flatten(),
                None => None,
            };
            followers.push(Follower {
                index: other.index,
                group: other.group,
                leader,
            })?;
        }
        Ok(followers)
    }

    /// The place of each condition's verdict, by the group of the condition.
    pub(crate) fn places_of(
        &self,
        alloc: Global,
        groups: &[usize],
    ) -> Result<Vec<usize>, AllocError> {
        let mut places = Vec::with_capacity(alloc, groups.len())?;
        for group in groups {
            let place = match self.places.get(*group) {
                Some(Some(place)) => *place,
                _ => self.verdicts.len(),
            };
            places.push(place)?;
        }
        Ok(places)
    }
}
