// The register as a state machine: what each call does, and what that means over all runs.
#![tactic(auto)]
