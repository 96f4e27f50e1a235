//! Policies between commas.
ghost use Rattle.std.specs.Prelude.{◌≡◌, ◌≢◌, All, MatchOption, IfOk, None, true};
ghost use Rattle.std.specs.Option.{is_some, option_copied};
ghost use Rattle.policy_model.specs.declared.names.PolicyName.TheVariants.{Belady};
ghost use Rattle.bound_words.specs.Capacities.{words_left, words_of_list};
ghost use Rattle.bound_words.specs.Policies.{IsNextPolicy, is_named, looks_ahead, named_once, policies_in, policies_of, policy_list};

use crate::capacities::cut;
use crate::values::is;
use bound_base::NoMemory;
use policy_model::PolicyName;
use std::alloc::Global;
use std::marker::Model;

// The first policy of a list, and what is left after its comma, if it has one.
#[derive(Clone, Copy)]
struct Next<'a> {
    policy: PolicyName,
    left: Option<&'a str>,
}

// Whether a policy goes by requests that are yet to come.
fn looks_ahead(policy: PolicyName) -> bool
    ensures { result ≡ looks_ahead policy }
{
    matches!(policy, PolicyName::Belady)
}

// Whether a word of what is left of a list names a policy.
fn is_named(policy: PolicyName, left: Option<&str>) -> bool
    ensures { result ≡ is_named policy (words_left (option_copied left.entry)) }
{
    match left {
        Some(list) => list.split(',').any(|word| is(word, policy.word())),
        None => false,
    }
}

// The first policy of a list, if it doesn't look ahead and is not named again.
fn next_policy(list: &str) -> Option<Next<'_>>
    ensures { MatchOption result (named_once (words_of_list list.now) ≡ None) (λ next. IsNextPolicy list.now next.policy (option_copied next.left)) }
{
    let (word, left) = cut(list);
    match PolicyName::named(word) {
        Some(policy) if !looks_ahead(policy) && !is_named(policy, left) => {
            Some(Next { policy, left })
        }
        _ => None,
    }
}

// Whether a value is a list of policies.
fn are_policies(value: &str) -> bool
    ensures { result ≡ is_some (policies_of value.now) }
{
    let mut left = Some(value);
    while let Some(list) = left {
        let Some(next) = next_policy(list) else {
            return false;
        };
        left = next.left;
    }
    true
}

// The policies of a value that is a list of them.
fn policies_in(alloc: Global, value: &str) -> Result<Vec<PolicyName>, NoMemory>
    requires { is_some (policies_of value.now) ≡ true }
    ensures { IfOk result (λ policies. policies.items ≡ policies_in value.now) }
{
    let mut policies = Vec::new(alloc);
    let mut left = Some(value);
    while let Some(list) = left {
        let Some(next) = next_policy(list) else {
            return Ok(policies);
        };
        policies.push(next.policy)?;
        left = next.left;
    }
    Ok(policies)
}

/// A list of policies, each once, none of which looks ahead: the word that lists them, with commas between.
#[derive(Debug, Drop)]
pub struct PolicyList<'a> {
    list: &'a str,
}

impl<'a> Model for PolicyList<'a> {
    ghost use Rattle.std.specs.Prelude.{◌≡◌, List, ℕ, true};
    ghost use Rattle.std.specs.Option.{is_some};
    ghost use Rattle.bound_words.specs.Policies.{policies_of};

    ghost Value = { List ℕ };

    ghost view = { λ l. l.list.now };

    ghost invariant = { λ l. is_some (policies_of l.list.now) ≡ true };
}

impl<'a> PartialEq for PolicyList<'a> {
    ghost use Rattle.std.specs.Str.{bytes_eq};
    ghost use Rattle.std.specs.Cmp.Rules.{comparing};
    ghost use Rattle.std.proofs.Common.{rules};

    ghost eq = { bytes_eq };

    ghost laws = { Prim.search (comparing, rules) };

    fn eq(&self, other: &Self) -> bool {
        self.list == other.list
    }
}

impl<'a> PolicyList<'a> {
    /// The list that a value is, if it is one.
    pub(crate) fn of(value: &'a str) -> Option<Self>
        ensures { result ≡ policy_list value.now }
    {
        if are_policies(value) {
            Some(PolicyList { list: value })
        } else {
            None
        }
    }

    /// The policies, in the order of the list, of which there are at most ten.
    pub fn policies(&self, alloc: Global) -> Result<Vec<PolicyName>, NoMemory>
        ensures listed { IfOk result (λ policies. policies.items ≡ policies_in self.now) }
        ensures ahead_of { IfOk result (λ policies. All (λ n. n ≢ Belady) policies.items) }
    {
        let policies = policies_in(alloc, self.list)?;
        Ok(policies)
    }
}
