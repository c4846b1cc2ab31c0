// Definitions and laws only: orders of a table's rows, the rule, and the order chosen. The code that finds it stands in
// `search`.
#![tactic(auto)]
