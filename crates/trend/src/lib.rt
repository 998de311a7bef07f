// The wear strip on the panel: what is claimed and proved of it. It has no code.
#![tactic(auto)]
