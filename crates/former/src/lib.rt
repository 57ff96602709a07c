// The former order of refusals 1 and 2, verdict on independence and log records, and laws that say which answers differ from them.
// It holds no code of its own.
#![tactic(auto)]
