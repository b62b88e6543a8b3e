// Forbidden patterns, the walk that finds them, bridges and streams: definitions and laws, in specs/. There is no code here.
#![tactic(auto)]
