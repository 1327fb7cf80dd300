// Demand 3 over any series of calls. Everything here is a statement: see specs/, and proofs/ for the walk over a series.
#![tactic(auto)]
