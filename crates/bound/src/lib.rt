// No code: the exact blend of a pixel, and the bound on how far its byte is from it.
#![tactic(auto)]
