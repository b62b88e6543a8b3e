// The published code: legal words, counts, indices and message lengths, definitions and laws, in specs/. There is no code here.
#![tactic(auto)]
