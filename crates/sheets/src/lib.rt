// The worked sheets that have a label, as one proved list. It holds no code of its own.
#![tactic(auto)]
