// Definitions and laws only: a toy text as a model for the next one, and a table as it was read before.
#![tactic(auto)]
