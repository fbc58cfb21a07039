//! The policies that a table can name: their words, their keys, what a help says of them, and which type each is. One is added here, in
//! `specs/Policies`, and in the crate that has its type.

ghost use Rattle.std.specs.Prelude.{◌≡◌, IfSome, IfNone};
ghost use Rattle.wb_table.specs.Policies.{NamesPolicy, has_key};
ghost use Rattle.wb_table.specs.declared.policy.PolicyName.{PolicyName as Named};

use wb_types::Key;

/// A policy that a table can name.
#[derive(Clone, Copy, PartialEq, Eq)]
pub enum PolicyName {
    /// `tinylfu`, or `default`.
    TinyLfu,
    /// `cleaner`.
    Cleaner,
}

/// What is wanted where a table names its policy.
pub(crate) const WANTED: &str = "the policy, 'tinylfu', 'default' or 'cleaner'";

impl PolicyName {
    /// Whether a key can be given under it.
    pub(crate) fn has_key(self, key: Key) -> bool
        ensures { result ≡ has_key self key }
    {
        match (self, key) {
            (_, Key::MigrationThreshold) => true,
            (PolicyName::TinyLfu, Key::PromoteMin) => true,
            (PolicyName::Cleaner, Key::PromoteMin) => false,
        }
    }
}

/// Reads the name of a policy.
pub(crate) fn read_policy(word: &str) -> Option<PolicyName>
    ensures found { IfSome result (NamesPolicy word.now) }
    ensures only { IfSome result (λ policy. (named : Named) → NamesPolicy word.now named → named ≡ policy) }
    ensures none { IfNone result ((policy : Named) → ¬ NamesPolicy word.now policy) }
{
    match word {
        "tinylfu" | "default" => Some(PolicyName::TinyLfu),
        "cleaner" => Some(PolicyName::Cleaner),
        _ => None,
    }
}

/// Calls a function, whose first type is a policy, with the one of this name; the caller's crate knows the types.
#[macro_export]
macro_rules! by_policy {
    ($name:expr, $serve:ident[$($given:ty),*]($($args:expr),*)) => {
        match $name {
            $crate::PolicyName::TinyLfu => $serve::<wb_policy::TinyLfu, $($given),*>($($args),*),
            $crate::PolicyName::Cleaner => $serve::<wb_policy::Cleaner, $($given),*>($($args),*),
        }
    };
}

/// What a help says of the policies, and of the keys that each has, as a literal.
#[macro_export]
macro_rules! policies_help {
    () => {
        "  policy  tinylfu, or default, the same: caches what is read or written again;
          cleaner: caches nothing more, and writes back what is dirty
  keys    how many words follow, and these: 0, or
          2 migration_threshold N   the most sectors on the way at once (2048)
          2 promote_min N           tinylfu: accesses, 1 to 17, that make a
                                    block worth caching (2)
          4 migration_threshold N promote_min N   both
"
    };
}
