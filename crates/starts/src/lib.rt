// What a stream of register and data words starts: what is claimed and proved of it. It has no code.
#![tactic(auto)]
