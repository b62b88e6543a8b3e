// What a profile means, by name: definitions in specs/. There is no code here.
#![tactic(auto)]
