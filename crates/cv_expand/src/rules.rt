//! The rules and applies of a script, as they are written.

ghost use Rattle.std.specs.Prelude.{◌≡◌, IfOk};
ghost use Rattle.cv_expand.specs.Heads.{rules_in, applies_in};

use crate::copying::{copy_name, copy_names};
use cv_syntax::{Apply, Factor, Item, Match, NamedRule, Term, Terms};
use cv_token::{OutOfMemory, Pair};
use sqlite_items::{Boxed, Items};
use std::alloc::Global;

/// An equal match.
fn copy_match(alloc: Global, matched: &Match) -> Result<Match, OutOfMemory>
    ensures { IfOk result (λ copy. copy ≡ matched.now) }
{
    let group = matched.group.copy(alloc)?;
    let mut fields = Items::new(alloc);
    for field in matched.fields.as_slice() {
        let key = field.key.copy(alloc)?;
        let value = field.value.copy(alloc)?;
        fields.push(Pair { key, value })?;
    }
    Ok(Match { group, fields })
}

/// An equal part of an expression.
#[cycle(copy)]
#[tactic(auto, using(cv_syntax::proofs::Weights::group_weight))]
fn copy_factor(alloc: Global, factor: &Factor) -> Result<Factor, OutOfMemory>
    ensures { IfOk result (λ copy. copy ≡ factor.now) }
{
    match factor {
        Factor::Not(inner) => {
            let inner = copy_factor(alloc, inner.get())?;
            Ok(Factor::Not(Boxed::new(alloc, inner)?))
        }
        Factor::Group(terms) => Ok(Factor::Group(copy_terms(alloc, terms)?)),
        Factor::Name(name) => Ok(Factor::Name(copy_name(alloc, name)?)),
        Factor::Match(matched) => Ok(Factor::Match(copy_match(alloc, matched)?)),
    }
}

/// Equal factors.
#[cycle(copy)]
fn copy_term(alloc: Global, term: &Term) -> Result<Term, OutOfMemory>
    ensures { IfOk result (λ copy. copy ≡ term.now) }
{
    let mut copies = Items::new(alloc);
    for factor in term.as_slice() {
        copies.push(copy_factor(alloc, factor)?)?;
    }
    Ok(copies)
}

/// An equal expression.
#[cycle(copy)]
fn copy_terms(alloc: Global, terms: &Terms) -> Result<Terms, OutOfMemory>
    ensures { IfOk result (λ copy. copy ≡ terms.now) }
{
    let mut copies = Items::new(alloc);
    for term in terms.as_slice() {
        copies.push(copy_term(alloc, term)?)?;
    }
    Ok(copies)
}

/// An equal rule.
fn copy_rule(alloc: Global, rule: &NamedRule) -> Result<NamedRule, OutOfMemory>
    ensures { IfOk result (λ copy. copy ≡ rule.now) }
{
    let name = copy_name(alloc, &rule.name)?;
    let terms = copy_terms(alloc, &rule.terms)?;
    Ok(NamedRule {
        at: rule.at,
        name,
        terms,
    })
}

/// An equal apply.
fn copy_apply(alloc: Global, apply: &Apply) -> Result<Apply, OutOfMemory>
    ensures { IfOk result (λ copy. copy ≡ apply.now) }
{
    let names = copy_names(alloc, apply.names.as_slice())?;
    let terms = copy_terms(alloc, &apply.terms)?;
    Ok(Apply {
        at: apply.at,
        names,
        terms,
    })
}

/// The rules of a script, in written order.
pub(crate) fn rules_of(alloc: Global, script: &[Item]) -> Result<Items<NamedRule>, OutOfMemory>
    ensures { IfOk result (λ rules. rules ≡ rules_in script.now) }
{
    let mut rules = Items::new(alloc);
    for item in script {
        if let Item::Rule(rule) = item {
            rules.push(copy_rule(alloc, rule)?)?;
        }
    }
    Ok(rules)
}

/// The applies of a script, in written order.
pub(crate) fn applies_of(alloc: Global, script: &[Item]) -> Result<Items<Apply>, OutOfMemory>
    ensures { IfOk result (λ applies. applies ≡ applies_in script.now) }
{
    let mut applies = Items::new(alloc);
    for item in script {
        if let Item::Apply(apply) = item {
            applies.push(copy_apply(alloc, apply)?)?;
        }
    }
    Ok(applies)
}
