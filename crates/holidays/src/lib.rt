// What the days of a recording are: when nobody milled, and when nobody saw. Everything here is a statement: see specs/.
#![tactic(auto)]
