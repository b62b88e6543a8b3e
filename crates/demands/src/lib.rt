// What the calls on streams come to together: theorems over their outcomes, in specs/. There is no code here.
#![tactic(auto)]
