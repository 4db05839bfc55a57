//! What conditions have in common that differ in the names of variables.

use og_cond::{Condition, Goal, Hypothesis, Part};
use og_linear::Form;
use og_search_rows::{last_bits, next_mark};
use og_subst::Action;
use og_typed::Assert;

// Reads a condition with this action.
#[derive(Clone, Copy)]
struct Reader<'a, 'c> {
    action: Option<&'a Action<'c>>,
}

impl Reader<'_, '_> {
    fn assigns(self, var: u32) -> bool {
        match self.action {
            Some(action) => action.assigns(var),
            None => false,
        }
    }

    fn form(self, form: &Form) -> u64 {
        let mut sum = last_bits(form.offset());
        for i in 0..usize::MAX {
            let Some((var, coefficient)) = form.term(i) else {
                break;
            };
            let mark = next_mark(1 + u64::from(self.assigns(var)), last_bits(coefficient));
            sum = sum.wrapping_add(mark);
        }
        sum
    }

    #[cycle(assertions)]
    fn assertion(self, assertion: &Assert) -> u64 {
        match assertion {
            Assert::True => 0,
            Assert::False => 1,
            Assert::Le(form) => next_mark(2, self.form(form)),
            Assert::Eq(form) => next_mark(3, self.form(form)),
            Assert::Ne(form) => next_mark(4, self.form(form)),
            Assert::Not(one) => next_mark(5, self.assertion(one)),
            Assert::And(all) => next_mark(6, self.assertions(all)),
            Assert::Or(all) => next_mark(7, self.assertions(all)),
            Assert::Imp(a, b) => next_mark(next_mark(8, self.assertion(a)), self.assertion(b)),
        }
    }

    #[cycle(assertions)]
    fn assertions(self, all: &[Assert]) -> u64 {
        let mut sum = 0u64;
        for assertion in all {
            sum = sum.wrapping_add(self.assertion(assertion));
        }
        sum
    }

    fn part(self, part: &Part) -> u64 {
        match part {
            Part::Yes(assertion) => next_mark(0, self.assertion(assertion)),
            Part::No(assertion) => next_mark(1, self.assertion(assertion)),
        }
    }

    fn parts(self, parts: &[Part]) -> u64 {
        let mut sum = 0u64;
        for part in parts {
            sum = sum.wrapping_add(self.part(part));
        }
        sum
    }

    fn lists(self, lists: &[Vec<Part>]) -> u64 {
        let mut sum = 0u64;
        for parts in lists {
            sum = sum.wrapping_add(next_mark(0, self.parts(parts)));
        }
        sum
    }

    fn hypothesis(self, hypothesis: &Hypothesis) -> u64 {
        match hypothesis {
            Hypothesis::Is(part) => next_mark(0, self.part(part)),
            Hypothesis::Starts(_, value) => next_mark(1, last_bits(i128::from(*value))),
            Hypothesis::OneOf(lists) => next_mark(2, self.lists(lists)),
        }
    }

    fn hypotheses(self, hypotheses: &[Hypothesis]) -> u64 {
        let mut mark = 0u64;
        for hypothesis in hypotheses {
            mark = next_mark(mark, self.hypothesis(hypothesis));
        }
        mark
    }

    fn goal(self, goal: &Goal) -> u64 {
        match goal {
            Goal::Holds(assertion) => next_mark(0, self.assertion(assertion)),
            Goal::Fits => 1,
            Goal::Never => 2,
        }
    }
}

/// A mark of what stands in a condition, whatever the names of variables and the order of what one
/// connective joins: conditions in which processes are exchanged have the same.
pub fn kind(condition: &Condition) -> u64 {
    let reader = Reader {
        action: condition.action.as_ref(),
    };
    next_mark(
        reader.hypotheses(&condition.hypotheses),
        reader.goal(&condition.goal),
    )
}
