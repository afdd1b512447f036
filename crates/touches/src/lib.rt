// No code: which pixels a shape touches, what becomes of their bytes, and how many they are at most.
#![tactic(auto)]
