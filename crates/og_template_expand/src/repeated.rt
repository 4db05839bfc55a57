//! What stands once, or for each value of a binder.

ghost use Rattle.std.specs.Prelude.{map};
ghost use Rattle.og_template_expand.specs.Answer.{behind, gathered};
ghost use Rattle.og_template_expand.specs.Ranges.{instances, instance_of};
ghost use Rattle.og_template_expand.specs.Repeated.{repeated_by};
ghost use Rattle.og_template_expand.specs.Scoped.{IsExpanded, scope_of};
ghost use Rattle.og_template_expand.specs.TreeOf.{binder_of};

use crate::binders::{enter, values};
use crate::expander::Expander;
use crate::fault::Stop;
use crate::scope::Scope;
use og_template::Binder;

/// What makes one part of an outline, or one in each instance of its binder.
pub(crate) trait Repeated {
    ghost use Rattle.std.specs.Prelude.{◌≡◌, List, [], ◌∷◌, Option, option_map};
    ghost use Rattle.og_template_expand.specs.Answer.{Checked};
    ghost use Rattle.og_template_expand.specs.Scope as scopes;
    ghost use Rattle.og_template_expand.specs.Scoped.{IsExpanded, scope_of};
    ghost use Rattle.og_template_expand.specs.Trees as trees;
    ghost use Rattle.og_template_expand.specs.TreeOf.{binder_of};

    /// The part that it makes.
    type Made: Drop;

    /// What a part stands for.
    ghost Tree: { Type 0 };

    ghost view: { Self.Made → Self.Tree };

    ghost binds: { Self → Option trees.Binder };

    /// What is made in a scope.
    ghost means: { Self → scopes.Scope → Checked (List Self.Tree) };

    /// The binder, if it has one.
    fn binder(&self) -> &Option<Binder>
        ensures { binds self.now ≡ option_map binder_of result.now };

    /// The part in a scope.
    fn made<'a>(
        &'a self,
        scope: &Scope<'_, 'a>,
        work: &mut Expander<'a>,
    ) -> Result<Self::Made, Stop>
        ensures { IsExpanded (λ m. view m ∷ []) result (means self.now (scope_of scope.now)) };
}

// Adds the part in a scope.
fn put_made<'a, R: Repeated>(
    scope: &Scope<'_, 'a>,
    work: &mut Expander<'a>,
    repeated: &'a R,
    all: &mut Vec<R::Made>,
) -> Result<(), Stop>
    ensures { IsExpanded (λ _. map R.view all.new.items) result
        (behind (map R.view all.old.items) (R.means repeated.now (scope_of scope.now))) }
{
    let made = repeated.made(scope, work)?;
    all.push(made)?;
    Ok(())
}

// Adds the part in an instance of a binder.
fn put_instance<'a, R: Repeated>(
    scope: &Scope<'_, 'a>,
    work: &mut Expander<'a>,
    binder: &'a Binder,
    value: i64,
    repeated: &'a R,
    all: &mut Vec<R::Made>,
) -> Result<(), Stop>
    ensures { IsExpanded (λ _. map R.view all.new.items) result
        (behind (map R.view all.old.items) (instance_of (scope_of scope.now)
        (binder_of binder.now) (R.means repeated.now) value)) }
{
    match enter(scope, work, binder, value)? {
        Some(inner) => put_made(&inner, work, repeated, all),
        None => Ok(()),
    }
}

// Adds the part in each instance of a binder.
fn put_instances<'a, R: Repeated>(
    scope: &Scope<'_, 'a>,
    work: &mut Expander<'a>,
    binder: &'a Binder,
    repeated: &'a R,
    all: &mut Vec<R::Made>,
) -> Result<(), Stop>
    ensures { IsExpanded (λ _. map R.view all.new.items) result
        (behind (map R.view all.old.items) (instances (scope_of scope.now)
        (binder_of binder.now) (R.means repeated.now))) }
{
    let values = values(scope, work, binder)?;
    for value in &values {
        put_instance(scope, work, binder, *value, repeated, all)?;
    }
    Ok(())
}

// Adds what it makes.
fn put<'a, R: Repeated>(
    scope: &Scope<'_, 'a>,
    work: &mut Expander<'a>,
    repeated: &'a R,
    all: &mut Vec<R::Made>,
) -> Result<(), Stop>
    ensures { IsExpanded (λ _. map R.view all.new.items) result
        (behind (map R.view all.old.items)
        (repeated_by (scope_of scope.now) (R.binds repeated.now) (R.means repeated.now))) }
{
    match repeated.binder() {
        None => put_made(scope, work, repeated, all),
        Some(binder) => put_instances(scope, work, binder, repeated, all),
    }
}

/// What they make, one after the other.
pub(crate) fn all_made<'a, R: Repeated>(
    scope: &Scope<'_, 'a>,
    work: &mut Expander<'a>,
    parts: &'a [R],
) -> Result<Vec<R::Made>, Stop>
    ensures { IsExpanded (λ v. map R.view v.items) result
        (gathered (λ r. repeated_by (scope_of scope.now) (R.binds r) (R.means r)) parts.now) }
{
    let mut all = Vec::new(work.alloc);
    for part in parts {
        put(scope, work, part, &mut all)?;
    }
    Ok(all)
}
