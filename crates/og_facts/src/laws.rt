//! What the definition of facts means.

ghost use Rattle.std.specs.Prelude.{◌≡◌, ℤ, List, Ok, ◌&&◌, not, length};
ghost use Rattle.og_cond.specs.Condition.{Condition, assignments};
ghost use Rattle.og_cond.specs.Valid.{hypotheses_true, goal_true};
ghost use Rattle.og_facts.specs.Counts.{count};
ghost use Rattle.og_facts.specs.Facts.{Fact, facts_of};
ghost use Rattle.og_facts.specs.Truth.{all_true_at};

/// What the facts of a condition say, and how many they are.
///
/// This function does nothing: its clauses are laws about the definition that other contracts cite.
/// At every state all facts are true exactly where the hypotheses are true and the goal is false,
/// after the action. There are as many as are counted by the structure of the condition.
pub fn facts_law()
    ensures truth { (c : Condition) (fs : List Fact) (s : List ℤ)
        → facts_of c ≡ Ok fs
        → all_true_at s fs ≡ (hypotheses_true s c.hypotheses && not (goal_true s (assignments c.action) c.goal)) }
    ensures size { (c : Condition) (fs : List Fact) → facts_of c ≡ Ok fs → length fs ≡ count c }
{}
