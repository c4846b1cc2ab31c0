// What is promised of a crane's text: definitions and theorems, no code.
#![tactic(auto)]
