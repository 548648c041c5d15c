// The specification: definitions that contracts cite, and their laws. No code.
#![tactic(auto)]
