// Laws only: one morning in two editions. A recording that was converted comes to the same book and the same sheet, but for the Security Types. No code runs from here.
#![tactic(auto)]
