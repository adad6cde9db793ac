// What document 01 says of a plan for a request: its rows of refusals, and when none is given. It has no code.
#![tactic(auto)]
