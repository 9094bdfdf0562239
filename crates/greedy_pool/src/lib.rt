// Theory: the pool kept as the list of the frames that wait in it, and what the cycles of a plan write. There is no code here.
#![tactic(auto)]
