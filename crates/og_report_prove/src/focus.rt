//! Which variables are printed for a false condition. Nothing is promised of the choice: each value
//! printed is that of the state.

use og_cond::{Condition, Goal, Hypothesis, Part};
use og_linear::Form;
use og_report_explain::{Explanation, Fault, Stand};
use og_subst::Action;
use og_typed::{Assert, Basic, Item, Stmt};
use std::alloc::{AllocError, Global};

/// Some of the variables.
#[derive(Drop)]
pub(crate) struct Vars {
    count: u32,
    flags: Vec<bool>,
}

impl Vars {
    /// None of this many variables.
    pub(crate) fn none(alloc: Global, count: u32) -> Result<Vars, AllocError> {
        let flags = vec![in alloc; false; count as usize]?;
        Ok(Vars { count, flags })
    }

    fn has(&self, var: u32) -> bool {
        self.flags.get(var as usize).copied().unwrap_or(false)
    }

    fn add(&mut self, var: u32) {
        let var = var as usize;
        if var < self.flags.len() {
            self.flags[var] = true;
        }
    }

    fn add_assertion(&mut self, assert: &Assert) {
        for var in 0..self.count {
            if assert.mentions(var) {
                self.add(var);
            }
        }
    }

    fn add_form(&mut self, form: &Form) {
        for var in 0..self.count {
            if form.mentions(var) {
                self.add(var);
            }
        }
    }

    fn add_part(&mut self, part: &Part) {
        match part {
            Part::Yes(assert) => self.add_assertion(assert),
            Part::No(assert) => self.add_assertion(assert),
        }
    }

    fn add_parts(&mut self, parts: &[Part]) {
        for part in parts {
            self.add_part(part);
        }
    }

    fn add_hypothesis(&mut self, hypothesis: &Hypothesis) {
        match hypothesis {
            Hypothesis::Is(part) => self.add_part(part),
            Hypothesis::Starts(var, _) => self.add(*var),
            Hypothesis::OneOf(lists) => {
                for parts in lists {
                    self.add_parts(parts);
                }
            }
        }
    }

    // The variables of the right sides.
    fn add_right_sides(&mut self, body: &[Basic]) {
        for basic in body {
            if let Basic::Assign(_, form) = basic {
                self.add_form(form);
            }
        }
    }

    fn add_action(&mut self, action: &Action) {
        match action {
            Action::Assign(_, form) => self.add_form(form),
            Action::Await(body) => self.add_right_sides(body),
        }
    }

    /// The variables that occur in the condition.
    pub(crate) fn of_condition(alloc: Global, condition: &Condition) -> Result<Vars, AllocError> {
        let mut vars = Vars::none(alloc, condition.variables)?;
        for hypothesis in &condition.hypotheses {
            vars.add_hypothesis(hypothesis);
        }
        if let Goal::Holds(assert) = condition.goal {
            vars.add_assertion(assert);
        }
        if let Some(action) = &condition.action {
            vars.add_action(action);
        }
        Ok(vars)
    }

    // The variables on which those among these that the body assigns depend.
    fn trace_back(&mut self, body: &[Basic]) {
        for i in 0..body.len() {
            if let Basic::Assign(var, form) = &body[body.len() - 1 - i] {
                if self.has(*var) {
                    self.add_form(form);
                }
            }
        }
    }

    fn trace_action(&mut self, action: &Action) {
        match action {
            Action::Assign(var, form) => {
                if self.has(*var) {
                    self.add_form(form);
                }
            }
            Action::Await(body) => self.trace_back(body),
        }
    }

    fn add_assertions(&mut self, all: &[&Assert]) {
        for assert in all {
            self.add_assertion(assert);
        }
    }

    /// The variables of the false conjuncts, and those on which they depend.
    pub(crate) fn of_fault(
        alloc: Global,
        condition: &Condition,
        fault: &Fault,
    ) -> Result<Vars, AllocError> {
        let mut vars = Vars::none(alloc, condition.variables)?;
        match fault {
            Fault::False(_, found) => {
                vars.add_assertions(found);
                if let Some(action) = &condition.action {
                    vars.trace_action(action);
                }
            }
            Fault::TooLarge(..) => {
                if let Some(action) = &condition.action {
                    vars.add_action(action);
                }
            }
            Fault::Blocked(_) => {}
        }
        Ok(vars)
    }

    // The variables of the test or guard.
    fn add_test(&mut self, item: &Item) {
        match &item.stmt {
            Stmt::If(test, _, _) => self.add_assertion(test),
            Stmt::While(test, _) => self.add_assertion(test),
            Stmt::Await(guard, _) => self.add_assertion(guard),
            _ => {}
        }
    }

    fn add_guards(&mut self, stands: &[Stand]) {
        for stand in stands {
            if let Stand::Waits(site) = stand {
                self.add_test(site.item);
            }
        }
    }

    /// Adds the variables of the tests and guards that are printed.
    pub(crate) fn add_tests(&mut self, explanation: &Explanation) {
        if let Some(test) = &explanation.test {
            self.add_test(test.site.item);
        }
        if let Some(site) = &explanation.action {
            self.add_test(site.item);
        }
        if let Fault::Blocked(stands) = &explanation.fault {
            self.add_guards(stands);
        }
    }

    /// These variables in order.
    pub(crate) fn list(&self, alloc: Global) -> Result<Vec<u32>, AllocError> {
        let mut list = Vec::new(alloc);
        for var in 0..self.count {
            if self.has(var) {
                list.push(var)?;
            }
        }
        Ok(list)
    }

    /// Those of these that are among the others, or not, in order.
    fn split(&self, alloc: Global, others: &Vars, among: bool) -> Result<Vec<u32>, AllocError> {
        let mut list = Vec::new(alloc);
        for var in 0..self.count {
            if self.has(var) && others.has(var) == among {
                list.push(var)?;
            }
        }
        Ok(list)
    }

    /// Those of these that are printed first, and the others.
    pub(crate) fn shown_first(
        &self,
        alloc: Global,
        first: &Vars,
    ) -> Result<(Vec<u32>, Vec<u32>), AllocError> {
        let state = self.split(alloc, first, true)?;
        let besides = self.split(alloc, first, false)?;
        if state.is_empty() {
            Ok((besides, state))
        } else {
            Ok((state, besides))
        }
    }
}
