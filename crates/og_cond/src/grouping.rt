//! The conditions of an outline in groups, each made when it is asked for.

ghost use Rattle.std.specs.Prelude.{◌≡◌, ◌++◌, map, Some, IfOk, IfErr};
ghost use Rattle.og_cond.specs.Crossing.{crosses, action_crossings};
ghost use Rattle.og_cond.specs.Groups.{rest, first_conditions, last_conditions, IsStarted, IsNext};
ghost use Rattle.og_cond.specs.Limits.{condition_limit};
ghost use Rattle.og_cond.specs.Seen.{seen};
ghost use Rattle.og_cond.specs.Sides.{action_of, side_seen};
ghost use Rattle.og_cond.specs.declared.groups.Next.TheVariants as next;

use crate::condition::Condition;
use crate::count::room_after_conditions;
use crate::fault::{ConditionsError, TooMany};
use crate::groups::{Groups, Next};
use crate::interference::add_action;
use crate::limits::CONDITION_LIMIT;
use crate::sides::sides_of;
use crate::watched::{Move, Side};
use crate::whole::{add_first, add_last};
use og_typed::Outline;
use std::alloc::{AllocError, Global};

// The conditions before interference.
fn first<'a>(alloc: Global, outline: &'a Outline) -> Result<Vec<Condition<'a>>, AllocError>
    ensures { IfOk result (λ group. map seen group.items ≡ first_conditions outline.now) }
{
    let mut group = Vec::new(alloc);
    add_first(&mut group, outline)?;
    Ok(group)
}

// The conditions after it.
fn last<'a>(alloc: Global, outline: &'a Outline) -> Result<Vec<Condition<'a>>, AllocError>
    ensures { IfOk result (λ group. map seen group.items ≡ last_conditions outline.now) }
{
    let mut group = Vec::new(alloc);
    add_last(&mut group, outline)?;
    Ok(group)
}

// One action against the processes before its own and those after it.
#[tactic(auto, using(crate::proofs::Crossings::action_crossings_append))]
fn against<'a>(
    alloc: Global,
    variables: u32,
    action: &Move<'a>,
    earlier: &[Side<'a>],
    later: &[Side<'a>],
) -> Result<Vec<Condition<'a>>, AllocError>
    ensures { IfOk result (λ group. map seen group.items ≡
        action_crossings crosses variables (action_of action.now) (map side_seen earlier.now ++ map side_seen later.now)) }
{
    let mut group = Vec::new(alloc);
    add_action(&mut group, variables, action, earlier)?;
    add_action(&mut group, variables, action, later)?;
    Ok(group)
}

impl<'a> Groups<'a> {
    /// The groups of an outline, of which none is made yet.
    ///
    /// # Errors
    ///
    /// `TooMany` exactly where there are more than 4,000,000 conditions, found before any memory is
    /// asked for. `Memory` where an allocation was refused.
    pub fn new(alloc: Global, outline: &'a Outline) -> Result<Groups<'a>, ConditionsError>
        ensures { IsStarted condition_limit outline.now result }
    {
        outline.follows_rule();
        match room_after_conditions(CONDITION_LIMIT, outline) {
            Some(_) => (),
            None => return Err(ConditionsError::Fault(TooMany)),
        }
        let sides = sides_of(alloc, outline.processes())?;
        Ok(Groups {
            outline,
            sides,
            next: Next::First,
        })
    }

    // The group of an action, or the last one where there is no such process.
    fn cross(
        &mut self,
        alloc: Global,
        process: usize,
        action: usize,
    ) -> Result<Vec<Condition<'a>>, AllocError>
        requires { self.old.next ≡ next.Action process action }
        ensures next { IfOk result (λ group. IsNext self.old self.new (Some group)) }
        ensures kept { IfErr result (λ _. rest self.new ≡ rest self.old) }
    {
        let Some(side) = self.sides.get(process) else {
            let group = last(alloc, self.outline)?;
            self.next = Next::Nothing;
            return Ok(group);
        };
        let Some(act) = side.moves.get(action) else {
            self.next = Next::Action {
                process: process + 1,
                action: 0,
            };
            return Ok(Vec::new(alloc));
        };
        self.outline.follows_rule();
        let variables = self.outline.names().len() as u32;
        let earlier = &self.sides[..process];
        let later = &self.sides[process + 1..];
        let group = against(alloc, variables, act, earlier, later)?;
        self.next = Next::Action {
            process,
            action: action + 1,
        };
        Ok(group)
    }

    /// The next conditions, of which there may be none where others follow; or nothing where all
    /// were reported.
    ///
    /// # Errors
    ///
    /// An allocation was refused; the same conditions are still to come.
    pub fn next(&mut self, alloc: Global) -> Result<Option<Vec<Condition<'a>>>, AllocError>
        ensures next { IfOk result (IsNext self.old self.new) }
        ensures kept { IfErr result (λ _. rest self.new ≡ rest self.old) }
    {
        match self.next {
            Next::First => {
                let group = first(alloc, self.outline)?;
                self.next = Next::Action {
                    process: 0,
                    action: 0,
                };
                Ok(Some(group))
            }
            Next::Action { process, action } => Ok(Some(self.cross(alloc, process, action)?)),
            Next::Nothing => Ok(None),
        }
    }
}
