// Laws only: document 01's exercises with known results, P1 to P12, as one table that is computed from the definitions. No code runs from here.
#![tactic(auto)]
