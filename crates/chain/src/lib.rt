// The chain of marks, quotes and lists as a definition, with what it consumes; demand 3 over it; the starred positions.
#![tactic(auto)]
