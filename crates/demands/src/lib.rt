// What is promised of the planner and the reviewer: definitions and theorems, no code.
#![tactic(auto)]
