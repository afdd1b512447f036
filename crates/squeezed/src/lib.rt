// What a list is squeezed to, and what that keeps of it: no code, but what the squeezing is held to.
#![tactic(auto)]
