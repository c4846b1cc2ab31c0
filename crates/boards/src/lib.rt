// Definitions and laws only: the board that a plan is made for, and the theorem that it keeps the plan's figures.
#![tactic(auto)]
