// Laws only: this crate has no function.
#![tactic(auto)]
