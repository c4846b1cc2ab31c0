// Definitions and laws only: a table as text, what it is read as, and what is refused on which line. The code that reads
// it stands in `readers`.
#![tactic(auto)]
