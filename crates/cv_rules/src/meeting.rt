//! Whether a node's attributes meet a rule.

ghost use Rattle.std.specs.Prelude.{◌≡◌};
ghost use Rattle.std.specs.List.{list_all};
ghost use Rattle.cv_rules.specs.RuleHolds.{holds, has, is_attribute, is_under};

use crate::attrs::Attrs;
use crate::rule::Rule;
use cv_token::{Pair, Text};

/// Whether the rule holds of the attributes.
pub fn meets(rule: &Rule, attrs: &Attrs) -> bool
    ensures { result ≡ holds rule.now attrs.now }
{
    match rule {
        Rule::Any => true,
        Rule::Match(group, fields) => {
            has_all(attrs.as_slice(), group.as_str(), fields.as_slice())
        }
        Rule::And(one, other) => meets(one.get(), attrs) && meets(other.get(), attrs),
        Rule::Or(one, other) => meets(one.get(), attrs) || meets(other.get(), attrs),
        Rule::Not(rule) => !meets(rule.get(), attrs),
    }
}

/// Whether each field is an attribute of the group.
fn has_all(attrs: &[Pair<Text>], group: &str, fields: &[Pair<Text>]) -> bool
    ensures { result ≡ list_all (has attrs.now group.now) fields.now }
{
    fields.iter().all(|field| has(attrs, group, field))
}

/// Whether a field is an attribute of the group.
fn has(attrs: &[Pair<Text>], group: &str, field: &Pair<Text>) -> bool
    ensures { result ≡ has attrs.now group.now field.now }
{
    attrs.iter().any(|attr| is_attribute(attr, group, field))
}

/// Whether an attribute is this field of the group.
fn is_attribute(attr: &Pair<Text>, group: &str, field: &Pair<Text>) -> bool
    ensures { result ≡ is_attribute group.now field.now attr.now }
{
    is_under(
        attr.key.as_str().as_bytes(),
        group.as_bytes(),
        field.key.as_str().as_bytes(),
    ) && attr.value.as_str() == field.value.as_str()
}

/// Whether a key is `GROUP.FIELD`.
fn is_under(key: &[u8], group: &[u8], field: &[u8]) -> bool
    ensures { result ≡ is_under group.now field.now key.now }
{
    let Some(rest) = key.strip_prefix(group) else {
        return false;
    };
    match rest.split_first() {
        Some((first, tail)) => *first == b'.' && tail == field,
        None => false,
    }
}
