// No code: laws about a slice that is lent on by a thin reference, of any function whatever.

#![tactic(auto)]
