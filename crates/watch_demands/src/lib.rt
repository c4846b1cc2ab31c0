// What is promised of a text to watch: definitions and theorems, no code.
#![tactic(auto)]
