// Laws of the pipeline over any calls: each is a statement of proofs/ about the definitions of the crate pipeline.
#![tactic(auto)]
