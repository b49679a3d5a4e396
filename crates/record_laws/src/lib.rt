// Laws of the recording format: each is a statement of proofs/ about the definitions of the crate records.
#![tactic(auto)]
