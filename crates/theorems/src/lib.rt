// No code: the theorems that the rules promise beside the contracts, each held to the law that proves it.
#![tactic(auto)]
