//! The marks of conditions.

use og_cond::{Condition, Goal, Hypothesis, Part};
use og_linear::{Form, FormError, Map};
use og_search_rows::{last_bits, next_mark};
use og_subst::{Action, ActionMap};
use og_typed::Assert;
use std::alloc::{AllocError, Global};

/// Two marks of a condition, made of its parts without its facts. Conditions in which that
/// differs have the same mark only by a chance of the hash.
#[derive(Clone, Copy, PartialEq, Eq)]
pub struct Marks {
    /// Of its hypotheses, its goal, and the values that its action gives to the variables of the
    /// goal: where these are the same, the facts are equal.
    pub facts: u64,
    /// Of the same, but for the names of the variables that the action does not assign.
    pub shape: u64,
}

// Reads a condition with this action.
#[derive(Clone, Copy)]
struct Reader<'a, 'c> {
    action: Option<&'a Action<'c>>,
}

impl Marks {
    fn number(self, number: u64) -> Marks {
        Marks {
            facts: next_mark(self.facts, number),
            shape: next_mark(self.shape, number),
        }
    }
}

impl Reader<'_, '_> {
    fn assigns(self, var: u32) -> bool {
        match self.action {
            Some(action) => action.assigns(var),
            None => false,
        }
    }

    fn variable(self, marks: Marks, var: u32) -> Marks {
        let name = u64::from(var) + 1;
        Marks {
            facts: next_mark(marks.facts, name),
            shape: next_mark(marks.shape, if self.assigns(var) { name } else { 0 }),
        }
    }

    // With a variable and its coefficient.
    fn term(self, marks: Marks, var: u32, coefficient: i128) -> Marks {
        let high = last_bits(coefficient).rotate_left(32);
        let name = u64::from(var) + 1;
        Marks {
            facts: next_mark(marks.facts, high ^ name),
            shape: next_mark(
                marks.shape,
                if self.assigns(var) { high ^ name } else { high },
            ),
        }
    }

    fn form(self, marks: Marks, form: &Form) -> Marks {
        let mut next = marks.number(last_bits(form.offset()));
        for i in 0..usize::MAX {
            let Some((var, coefficient)) = form.term(i) else {
                return next.number(i as u64);
            };
            next = self.term(next, var, coefficient);
        }
        next
    }

    fn forms(self, marks: Marks, forms: &[Form]) -> Marks {
        let mut next = marks.number(forms.len() as u64);
        for form in forms {
            next = self.form(next, form);
        }
        next
    }

    #[cycle(assertions)]
    fn assertion(self, marks: Marks, assertion: &Assert) -> Marks {
        match assertion {
            Assert::True => marks.number(0),
            Assert::False => marks.number(1),
            Assert::Le(form) => self.form(marks.number(2), form),
            Assert::Eq(form) => self.form(marks.number(3), form),
            Assert::Ne(form) => self.form(marks.number(4), form),
            Assert::Not(one) => self.assertion(marks.number(5), one),
            Assert::And(all) => self.assertions(marks.number(6), all),
            Assert::Or(all) => self.assertions(marks.number(7), all),
            Assert::Imp(a, b) => {
                let first = self.assertion(marks.number(8), a);
                self.assertion(first, b)
            }
        }
    }

    #[cycle(assertions)]
    fn assertions(self, marks: Marks, all: &[Assert]) -> Marks {
        let mut next = marks.number(all.len() as u64);
        for assertion in all {
            next = self.assertion(next, assertion);
        }
        next
    }

    fn part(self, marks: Marks, part: &Part) -> Marks {
        match part {
            Part::Yes(assertion) => self.assertion(marks.number(0), assertion),
            Part::No(assertion) => self.assertion(marks.number(1), assertion),
        }
    }

    fn parts(self, marks: Marks, parts: &[Part]) -> Marks {
        let mut next = marks.number(parts.len() as u64);
        for part in parts {
            next = self.part(next, part);
        }
        next
    }

    fn lists(self, marks: Marks, lists: &[Vec<Part>]) -> Marks {
        let mut next = marks.number(lists.len() as u64);
        for parts in lists {
            next = self.parts(next, parts);
        }
        next
    }

    fn hypothesis(self, marks: Marks, hypothesis: &Hypothesis) -> Marks {
        match hypothesis {
            Hypothesis::Is(part) => self.part(marks.number(0), part),
            Hypothesis::Starts(var, value) => {
                let next = self.variable(marks.number(1), *var);
                next.number(last_bits(i128::from(*value)))
            }
            Hypothesis::OneOf(lists) => self.lists(marks.number(2), lists),
        }
    }

    fn hypotheses(self, marks: Marks, hypotheses: &[Hypothesis]) -> Marks {
        let mut next = marks.number(hypotheses.len() as u64);
        for hypothesis in hypotheses {
            next = self.hypothesis(next, hypothesis);
        }
        next
    }

    fn goal(self, marks: Marks, goal: &Goal) -> Marks {
        match goal {
            Goal::Holds(assertion) => self.assertion(marks.number(0), assertion),
            Goal::Fits => marks.number(1),
            Goal::Never => marks.number(2),
        }
    }

    // With the values that the map gives to the assigned variables of the assertion.
    fn changes(
        self,
        alloc: Global,
        marks: Marks,
        variables: u32,
        map: &Map,
        assertion: &Assert,
    ) -> Result<Marks, FormError> {
        let mut next = marks;
        for var in 0..variables {
            if self.assigns(var) && assertion.mentions(var) {
                let value = Form::variable(alloc, var)?.apply(map)?;
                next = self.form(self.variable(next, var), &value);
            }
        }
        Ok(next)
    }

    // With what the goal takes of the action.
    fn action(
        self,
        alloc: Global,
        marks: Marks,
        condition: &Condition,
        prepared: &ActionMap,
    ) -> Result<Marks, FormError> {
        match condition.goal {
            Goal::Holds(assertion) => {
                let variables = condition.variables;
                self.changes(alloc, marks, variables, prepared.map(), assertion)
            }
            Goal::Fits => Ok(self.forms(marks, prepared.values())),
            Goal::Never => Ok(marks),
        }
    }
}

fn marks_of(alloc: Global, condition: &Condition) -> Result<Marks, FormError> {
    let reader = Reader {
        action: condition.action.as_ref(),
    };
    let none = Marks { facts: 0, shape: 0 };
    let next = none.number(u64::from(condition.variables));
    let next = reader.hypotheses(next, &condition.hypotheses);
    let next = reader.goal(next, &condition.goal);
    match &condition.action {
        Some(action) => reader.action(alloc, next, condition, &action.prepare(alloc)?),
        None => Ok(next),
    }
}

/// The marks of a condition; None where its action has no map, since a number is too large.
///
/// # Errors
///
/// `AllocError` where an allocation was refused.
pub fn mark(alloc: Global, condition: &Condition) -> Result<Option<Marks>, AllocError> {
    match marks_of(alloc, condition) {
        Ok(marks) => Ok(Some(marks)),
        Err(FormError::Memory) => Err(AllocError),
        Err(FormError::Fault(_)) => Ok(None),
    }
}
