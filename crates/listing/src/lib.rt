// Words in level order, their listing, counts and indices, for any test on words: definitions and laws, in specs/. There is no code here.
#![tactic(auto)]
